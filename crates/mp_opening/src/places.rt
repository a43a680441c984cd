//! Where the cells of each bin stand in a checkpoint.
ghost use Rattle.std.specs.Prelude.{◌≡◌, ◌≤◌, ◌<◌, true, false, All, IfOk, IsPermutation, Some, filter, length, map};
ghost use Rattle.std.specs.List.Sorted.{IsPartitionPoint, IsSortedByKey};
ghost use Rattle.std.specs.Ordering.{is_le, is_lt};
ghost use Rattle.mp_layout.specs.Bins.{IsBinCount};
ghost use Rattle.mp_opening.specs.ByBin.{cell_at, is_of_bin, pair_cmp, places_from, rank_of_place};

use crate::checkpoint::KeyCell;
use mp_layout::bin_of;
use mp_model::Query;
use std::alloc::{AllocError, Global};

/// Where a cell stands in a checkpoint, and the bin of its key.
#[derive(Clone, Copy)]
pub struct CellPlace {
    /// From 0.
    pub stage: u32,
    /// From 0.
    pub bin: u32,
    /// From 0.
    pub place: usize,
}

/// The places of cells, by stage and bin. Takes n log n comparisons of n cells. `AllocError`: no memory.
pub fn places_by_bin<C: Drop>(
    alloc: Global,
    cells: &[KeyCell<C>],
    bins: u32,
) -> Result<Vec<CellPlace>, AllocError>
    requires { IsBinCount bins }
    ensures all { IfOk result (λ places. IsPermutation (places_from bins 0 cells.now) places.items) }
    ensures order { IfOk result (λ places. IsSortedByKey rank_of_place pair_cmp places.items) }
{
    let mut places = places_in_turn(alloc, cells, bins)?;
    put_in_order(&mut places);
    Ok(places)
}

// The places of cells, in the order of the cells. `AllocError`: no memory.
fn places_in_turn<C: Drop>(
    alloc: Global,
    cells: &[KeyCell<C>],
    bins: u32,
) -> Result<Vec<CellPlace>, AllocError>
    requires { IsBinCount bins }
    ensures { IfOk result (λ places. places.items ≡ places_from bins 0 cells.now) }
{
    let mut places = Vec::with_capacity(alloc, cells.len())?;
    for place in 0..cells.len() {
        let cell = &cells[place];
        places.push(CellPlace {
            stage: cell.stage,
            bin: bin_of(cell.key, bins),
            place,
        })?;
    }
    Ok(places)
}

// Puts places in the order of their stages, and then of their bins.
fn put_in_order(places: &mut Vec<CellPlace>)
    ensures same { IsPermutation places.old.items places.new.items }
    ensures order { IsSortedByKey rank_of_place pair_cmp places.new.items }
{
    places.sort_unstable_by_key(
        |place: &CellPlace| -> (u32, u32)
            ensures { result ≡ rank_of_place place.now }
        { (place.stage, place.bin) },
    );
}

/// Those of a bin of a stage, of places by stage and bin. Found by halving.
pub fn places_of(places: &[CellPlace], stage: u32, bin: u32) -> &[CellPlace]
    requires { IsSortedByKey rank_of_place pair_cmp places.now }
    ensures { result.now ≡ filter (is_of_bin stage bin) places.now }
{
    let rest = &places[count_before(places, stage, bin)..];
    &rest[..count_upto(rest, stage, bin)]
}

// How many come before the bin of the stage, of places by stage and bin.
fn count_before(places: &[CellPlace], stage: u32, bin: u32) -> usize
    ensures bound { result ≤ length places.now }
    ensures point { IsSortedByKey rank_of_place pair_cmp places.now →
        IsPartitionPoint (λ p. is_lt (pair_cmp (rank_of_place p) (stage, bin)) ≡ true) (λ p. is_lt (pair_cmp (rank_of_place p) (stage, bin)) ≡ false) places.now result }
{
    places.partition_point(
        |place: &CellPlace| -> bool
            ensures { result ≡ is_lt (pair_cmp (rank_of_place place.now) (stage, bin)) }
        { place.stage < stage || place.stage == stage && place.bin < bin },
    )
}

// How many come before the bin of the stage or are of it, of places by stage and bin.
fn count_upto(places: &[CellPlace], stage: u32, bin: u32) -> usize
    ensures bound { result ≤ length places.now }
    ensures point { IsSortedByKey rank_of_place pair_cmp places.now →
        IsPartitionPoint (λ p. is_le (pair_cmp (rank_of_place p) (stage, bin)) ≡ true) (λ p. is_le (pair_cmp (rank_of_place p) (stage, bin)) ≡ false) places.now result }
{
    places.partition_point(
        |place: &CellPlace| -> bool
            ensures { result ≡ is_le (pair_cmp (rank_of_place place.now) (stage, bin)) }
        { place.stage < stage || place.stage == stage && place.bin <= bin },
    )
}

/// Copies of the cells at places, with their keys. `AllocError`: no memory.
pub fn copy_at<Q: Query>(
    alloc: Global,
    query: &Q,
    stage: u32,
    cells: &[KeyCell<Q::Cell>],
    places: &[CellPlace],
) -> Result<Vec<(u64, Q::Cell)>, AllocError>
    requires { All (λ p. p.place < length cells.now) places.now }
    ensures { IfOk result (λ copies. map (cell_at cells.now) places.now ≡ map Some copies.items) }
{
    let mut copies = Vec::with_capacity(alloc, places.len())?;
    for place in places {
        let saved = &cells[place.place];
        let cell = query.copy_cell(alloc, stage, &saved.cell)?;
        copies.push((saved.key, cell))?;
    }
    Ok(copies)
}
