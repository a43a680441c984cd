//! Where a time stands, looked for from an index on in both directions.
ghost use Rattle.std.specs.Prelude.{◌≡◌, ◌<◌, ◌≤◌, ℕ, true, length, slice_index_or};
ghost use Rattle.std.specs.List.Sorted.{IsBinarySearchResult};
ghost use Rattle.std.specs.Ordering.{nat_cmp};

use mp_names::Time;

// How many times on from an index are looked at one by one, and the one before it.
const BESIDE: usize = 4;

// How often a step doubles. A time that is farther away is as quickly found among all.
const DOUBLINGS: u32 = 8;

/// The index of a time among times that ascend, or where it would stand. It takes one look where the time is at the index
/// `hint`, else time by the logarithm of how far it is from the index `near`, where it is there and no more than 256 away,
/// else by that of how many they are.
#[inline]
pub(crate) fn index_of(times: &[Time], hint: usize, near: usize, time: Time) -> Result<usize, usize>
    ensures { IsBinarySearchResult (λ t. nat_cmp t time) times.now result }
{
    if stands_at(times, hint, time) {
        return Ok(hint);
    }
    index_from(times, near, time)
}

// The index of a time, looked for from an index on: beside it first.
#[inline(never)]
fn index_from(times: &[Time], near: usize, time: Time) -> Result<usize, usize>
    ensures { IsBinarySearchResult (λ t. nat_cmp t time) times.now result }
{
    let middle = near.min(times.len());
    for index in middle.saturating_sub(1)..middle + BESIDE {
        if stands_at(times, index, time) {
            return Ok(index);
        }
    }
    index_around(times, middle, time)
}

// The index of a time, looked for from an index on in steps that double, in both directions.
fn index_around(times: &[Time], middle: usize, time: Time) -> Result<usize, usize>
    requires { middle ≤ length times.now }
    ensures { IsBinarySearchResult (λ t. nat_cmp t time) times.now result }
{
    let from = back_to(times, middle, time);
    let to = on_to(times, middle, time);
    match times[from..to].binary_search(&time) {
        Ok(index) => Ok(from + index),
        Err(_) => times.binary_search(&time),
    }
}

// Whether the time at an index is this one.
fn stands_at(times: &[Time], index: usize, time: Time) -> bool
    ensures { result ≡ true → (index < length times.now) × ((d : ℕ) → slice_index_or times.now index d ≡ time) }
{
    match times.get(index) {
        Some(there) => *there == time,
        None => false,
    }
}

// An index at or before another one, with steps that double, until the time there is no later.
fn back_to(times: &[Time], middle: usize, time: Time) -> usize
    requires { middle ≤ length times.now }
    ensures { result ≤ middle }
{
    let mut step = 1;
    for _ in 0..DOUBLINGS {
        if step > middle {
            return 0;
        }
        if times[middle - step] <= time {
            return middle - step;
        }
        step = step.saturating_mul(2);
    }
    0
}

// An index at or after another one, with steps that double, until the time there is later.
fn on_to(times: &[Time], middle: usize, time: Time) -> usize
    requires { middle ≤ length times.now }
    ensures not_before { middle ≤ result }
    ensures inside { result ≤ length times.now }
{
    let mut step = 1;
    for _ in 0..DOUBLINGS {
        if step >= times.len() - middle {
            return times.len();
        }
        if times[middle + step] > time {
            return middle + step;
        }
        step = step.saturating_mul(2);
    }
    times.len()
}
