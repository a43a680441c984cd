//! Two threads that raise a number each, under one lock.
ghost use Rattle.std.specs.Prelude.{◌≡◌, ◌+◌, ◌<◌, ◌≤◌, ◌⊎◌, ◌∷◌, [], IfOk, Some, length, sum, vec_capacity, slice_get, slice_set};
ghost use Rattle.mp_seat.specs.Seats.{IsIdle};

use mp_seat::{Rows, Seat, SeatLock};
use std::alloc::{AllocError, Global};
use std::marker::Model;
use std::sync::Wait;
use std::thread::{Threads, join};

/// Two numbers, neither above 1,000, and how often one of them was raised. Contracts see the numbers and
/// that count.
#[derive(Drop)]
pub struct Counts {
    left: u64,
    right: u64,
    raised: u64,
}

impl Model for Counts {
    ghost use Rattle.std.specs.Prelude.{◌≡◌, ◌+◌, ◌≤◌, ◌∷◌, [], ℕ, List};

    ghost Value = { List ℕ × ℕ };

    ghost view = { λ c. (c.left ∷ c.right ∷ [], c.raised) };

    ghost invariant = { λ c. (c.raised ≡ c.left + c.right) × (c.left ≤ 1000) × (c.right ≤ 1000) };
}

impl Rows for Counts {
    type Row = u64;

    ghost rows = { λ c. c.0 };

    ghost version = { λ c. c.1 };
}

impl Counts {
    /// Both numbers are 0.
    pub fn new() -> Counts
        ensures { result ≡ (0 ∷ 0 ∷ [], 0) }
    {
        Counts {
            left: 0,
            right: 0,
            raised: 0,
        }
    }

    /// Raises the number at this place, which is so much.
    pub fn raise(&mut self, at: u32, number: u64)
        requires number { slice_get self.old.0 at ≡ Some number }
        requires low { number < 1000 }
        ensures numbers { self.new.0 ≡ slice_set self.old.0 at (number + 1) }
        ensures raised { self.new.1 ≡ self.old.1 + 1 }
    {
        if at == 0 {
            self.left += 1;
        } else {
            self.right += 1;
        }
        self.raised += 1;
    }

    /// The first number.
    pub fn left(&self) -> u64
        ensures { slice_get self.now.0 0 ≡ Some result }
    {
        self.left
    }

    /// How often a number was raised.
    pub fn raised(&self) -> u64
        ensures raised { result ≡ self.now.1 }
        ensures sum { result ≡ sum self.now.0 }
    {
        self.raised
    }
}

// Raises the number of a seat once.
fn raise_once<R: Wait>(
    rt: &R,
    lock: &SeatLock<Counts>,
    seat: &mut Seat<Counts>,
    at: u32,
    number: u64,
)
    requires seat { IsIdle lock.now seat.old × (seat.old.number ≡ at) }
    requires number { (seat.old.row ≡ Some number) × (number < 1000) }
    ensures seat { IsIdle lock.now seat.new × (seat.new.number ≡ at) }
    ensures number { seat.new.row ≡ Some (number + 1) }
{
    let mut counts = lock.take(rt, seat);
    counts.raise(at, number);
    lock.put(seat, counts);
}

// Raises the number of a seat 1,000 times.
fn raise_all<R: Wait>(
    rt: &R,
    lock: &SeatLock<Counts>,
    mut seat: Seat<Counts>,
    at: u32,
) -> Seat<Counts>
    requires seat { IsIdle lock.now seat × (seat.number ≡ at) }
    requires number { seat.row ≡ Some 0 }
    ensures seat { IsIdle lock.now result × (result.number ≡ at) }
    ensures number { result.row ≡ Some 1000 }
{
    for number in 0..1000u64 {
        raise_once(rt, lock, &mut seat, at, number);
    }
    seat
}

/// The lock round two numbers, both 0, with the seats of the first and of the second. `AllocError`: no memory.
pub fn open_two(alloc: Global) -> Result<(SeatLock<Counts>, Seat<Counts>, Seat<Counts>), AllocError>
    ensures lock { IfOk result (λ r. r.0.seats ≡ 2) }
    ensures first { IfOk result (λ r. IsIdle r.0 r.1 × (r.1.number ≡ 0)) }
    ensures second { IfOk result (λ r. IsIdle r.0 r.2 × (r.2.number ≡ 1)) }
    ensures rows { IfOk result (λ r. (r.1.row ≡ Some 0) × (r.2.row ≡ Some 0)) }
{
    let (lock, mut seats) = SeatLock::open(alloc, Counts::new(), 2)?;
    let Some(second) = seats.pop() else {
        unreachable!()
    };
    let Some(first) = seats.pop() else {
        unreachable!()
    };
    Ok((lock, first, second))
}

/// The numbers of a lock, for its two seats, in any order, and a list with room for them.
pub fn close_two(
    lock: SeatLock<Counts>,
    mut seats: Vec<Seat<Counts>>,
    first: Seat<Counts>,
    second: Seat<Counts>,
) -> Counts
    requires room { (seats.items ≡ []) × (2 ≤ vec_capacity seats) }
    requires lock { lock.seats ≡ 2 }
    requires idle { IsIdle lock first × IsIdle lock second }
    requires numbers { ((first.number ≡ 0) × (second.number ≡ 1)) ⊎ ((first.number ≡ 1) × (second.number ≡ 0)) }
    ensures many { length result.0 ≡ 2 }
    ensures first { slice_get result.0 first.number ≡ first.row }
    ensures second { slice_get result.0 second.number ≡ second.row }
{
    seats.push_reserved(first);
    seats.push_reserved(second);
    lock.close(seats)
}

/// Two threads raise a number each, 1,000 times. `AllocError`: no memory.
pub fn count_in_two<R: Threads + Wait + Sync>(rt: &R, alloc: Global) -> Result<Counts, AllocError>
    ensures { IfOk result (λ counts. counts ≡ (1000 ∷ 1000 ∷ [], 2000)) }
{
    let seats = Vec::with_capacity(alloc, 2)?;
    let (lock, first, second) = open_two(alloc)?;
    let shared = &lock;
    let (first, second) = join(
        rt,
        move ||
            requires { IsIdle shared.now first × (first.number ≡ 0) × (first.row ≡ Some 0) }
            ensures { IsIdle shared.entry.now result × (result.number ≡ 0) × (result.row ≡ Some 1000) }
        { raise_all(rt, shared, first, 0) },
        move ||
            requires { IsIdle shared.now second × (second.number ≡ 1) × (second.row ≡ Some 0) }
            ensures { IsIdle shared.entry.now result × (result.number ≡ 1) × (result.row ≡ Some 1000) }
        { raise_all(rt, shared, second, 1) },
    );
    Ok(close_two(lock, seats, first, second))
}
