//! Wakes by the bins of their keys.
ghost use Rattle.std.specs.Prelude.{◌≡◌, ◌≤◌, true, false, IfOk, IsPermutation, filter, length, map};
ghost use Rattle.std.specs.List.Sorted.{IsPartitionPoint, IsSortedByKey};
ghost use Rattle.std.specs.Ordering.{is_le, is_lt, nat_cmp};
ghost use Rattle.mp_layout.specs.Bins.{IsBinCount, bin_of_key};
ghost use Rattle.mp_opening.specs.ByBin.{rank_of_wake, time_and_key, triple_cmp, wakes_in};

use crate::checkpoint::KeyWake;
use mp_layout::bin_of;
use mp_model::Time;
use std::alloc::{AllocError, Global};

/// Wakes, each a time and a key, by bin, then by time, and then by key. Takes n log n comparisons of n wakes. `AllocError`:
/// no memory.
pub fn wakes_by_bin(
    alloc: Global,
    wakes: &[KeyWake],
    bins: u32,
) -> Result<Vec<(Time, u64)>, AllocError>
    requires { IsBinCount bins }
    ensures all { IfOk result (λ own. IsPermutation (map time_and_key wakes.now) own.items) }
    ensures order { IfOk result (λ own. IsSortedByKey (rank_of_wake bins) triple_cmp own.items) }
{
    let mut own = times_and_keys(alloc, wakes)?;
    put_in_order(&mut own, bins);
    Ok(own)
}

// Wakes as times and keys, in this order. `AllocError`: no memory.
fn times_and_keys(alloc: Global, wakes: &[KeyWake]) -> Result<Vec<(Time, u64)>, AllocError>
    ensures { IfOk result (λ own. own.items ≡ map time_and_key wakes.now) }
{
    let mut own = Vec::with_capacity(alloc, wakes.len())?;
    for wake in wakes {
        own.push((wake.time, wake.key))?;
    }
    Ok(own)
}

// Puts wakes in the order of the bins of their keys, then of their times, and then of their keys.
fn put_in_order(wakes: &mut Vec<(Time, u64)>, bins: u32)
    requires { IsBinCount bins }
    ensures same { IsPermutation wakes.old.items wakes.new.items }
    ensures order { IsSortedByKey (rank_of_wake bins) triple_cmp wakes.new.items }
{
    wakes.sort_unstable_by_key(
        |wake: &(Time, u64)| -> (u32, Time, u64)
            requires { IsBinCount bins }
            ensures { result ≡ rank_of_wake bins wake.now }
        { (bin_of(wake.1, bins), wake.0, wake.1) },
    );
}

/// Those of a bin, of wakes by bin. Found by halving.
pub fn wakes_of_bin(wakes: &[(Time, u64)], bins: u32, bin: u32) -> &[(Time, u64)]
    requires count { IsBinCount bins }
    requires order { IsSortedByKey (rank_of_wake bins) triple_cmp wakes.now }
    ensures { result.now ≡ filter (wakes_in bins bin) wakes.now }
{
    let rest = &wakes[count_before(wakes, bins, bin)..];
    &rest[..count_upto(rest, bins, bin)]
}

// How many are of bins below, of wakes by bin.
fn count_before(wakes: &[(Time, u64)], bins: u32, bin: u32) -> usize
    requires { IsBinCount bins }
    ensures bound { result ≤ length wakes.now }
    ensures point { IsSortedByKey (λ w. bin_of_key w.1 bins) nat_cmp wakes.now →
        IsPartitionPoint (λ w. is_lt (nat_cmp (bin_of_key w.1 bins) bin) ≡ true) (λ w. is_lt (nat_cmp (bin_of_key w.1 bins) bin) ≡ false) wakes.now result }
{
    wakes.partition_point(
        |wake: &(Time, u64)| -> bool
            requires { IsBinCount bins }
            ensures { result ≡ is_lt (nat_cmp (bin_of_key wake.now.1 bins) bin) }
        { bin_of(wake.1, bins) < bin },
    )
}

// How many are of bins up to this one, of wakes by bin.
fn count_upto(wakes: &[(Time, u64)], bins: u32, bin: u32) -> usize
    requires { IsBinCount bins }
    ensures bound { result ≤ length wakes.now }
    ensures point { IsSortedByKey (λ w. bin_of_key w.1 bins) nat_cmp wakes.now →
        IsPartitionPoint (λ w. is_le (nat_cmp (bin_of_key w.1 bins) bin) ≡ true) (λ w. is_le (nat_cmp (bin_of_key w.1 bins) bin) ≡ false) wakes.now result }
{
    wakes.partition_point(
        |wake: &(Time, u64)| -> bool
            requires { IsBinCount bins }
            ensures { result ≡ is_le (nat_cmp (bin_of_key wake.now.1 bins) bin) }
        { bin_of(wake.1, bins) <= bin },
    )
}
