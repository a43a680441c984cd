//! A checkpoint with the places of its cells and its wakes by bin.
ghost use Rattle.std.specs.Prelude.{◌≡◌, ◌↔◌, ℕ, All, AllPairs, Contains, IfOk, map};
ghost use Rattle.mp_layout.specs.Bins.{IsBinCount};
ghost use Rattle.mp_model.specs.QueryLaws.{WakeIsBefore};
ghost use Rattle.mp_opening.specs.Checkpoints.{KeyIsBefore};
ghost use Rattle.mp_opening.specs.Openings.{AreCellsOf, AreWakesOf};

use crate::checkpoint::Checkpoint;
use crate::places::{CellPlace, copy_at, places_by_bin, places_of};
use crate::wakes::{wakes_by_bin, wakes_of_bin};
use mp_model::{Query, Time};
use std::alloc::{AllocError, Global};
use std::marker::Model;

/// What a job goes on from: a checkpoint, and the bins of its cells and wakes. Contracts see the checkpoint and the number
/// of bins of a stage.
pub struct Opening<Q: Query> {
    checkpoint: Checkpoint<Q>,
    bins: u32,
    // By stage and bin.
    places: Vec<CellPlace>,
    // By bin, then by time, and then by key.
    wakes: Vec<(Time, u64)>,
}

// By hand, so that crates above call it and don't write out the drop of each field.
impl<Q: Query> Drop for Opening<Q> {
    fn drop(self) {
        let Opening {
            checkpoint: _,
            bins: _,
            places: _,
            wakes: _,
        } = self;
    }
}

impl<Q: Query> Model for Opening<Q> {
    ghost use Rattle.mp_opening.specs.ByBin.{AreByBin};
    ghost use Rattle.mp_opening.specs.Openings.{OpeningOf};

    ghost Value = { OpeningOf Q.Cell };

    ghost view = { λ o. record { bins = o.bins; from = o.checkpoint } };

    ghost invariant = { λ o. AreByBin o.bins o.checkpoint o.places.items o.wakes.items };
}

impl<Q: Query> Opening<Q> {
    /// A checkpoint with so many bins in each stage. It is in order, and its wakes are of the first stage. Takes n log n
    /// comparisons of n cells and of n wakes. `AllocError`: no memory.
    pub fn new(
        alloc: Global,
        checkpoint: Checkpoint<Q>,
        bins: u32,
    ) -> Result<Opening<Q>, AllocError>
        requires bins { IsBinCount bins }
        requires cells_ascend { AllPairs KeyIsBefore checkpoint.cells }
        requires wakes_ascend { AllPairs WakeIsBefore checkpoint.wakes }
        requires first { All (λ w. w.stage ≡ 0) checkpoint.wakes }
        ensures { IfOk result (λ o. o ≡ record { bins = bins; from = checkpoint }) }
    {
        let places = places_by_bin(alloc, checkpoint.cells.as_slice(), bins)?;
        let wakes = wakes_by_bin(alloc, checkpoint.wakes.as_slice(), bins)?;
        Ok(Opening {
            checkpoint,
            bins,
            places,
            wakes,
        })
    }

    /// The time that the job goes on from.
    pub fn time(&self) -> Time
        ensures { result ≡ self.now.from.time }
    {
        self.checkpoint.time
    }

    /// Copies of the cells of a bin of a stage, with their keys. `AllocError`: no memory.
    pub fn copy_cells(
        &self,
        alloc: Global,
        query: &Q,
        stage: u32,
        bin: u32,
    ) -> Result<Vec<(u64, Q::Cell)>, AllocError>
        ensures { IfOk result (λ cells. AreCellsOf self.now stage bin cells.items) }
    {
        let places = places_of(self.places.as_slice(), stage, bin);
        copy_at(
            alloc,
            query,
            stage,
            self.checkpoint.cells.as_slice(),
            places,
        )
    }

    /// The wakes of a bin of a stage, each a time and a key, ascending.
    pub fn wakes_of(&self, stage: u32, bin: u32) -> &[(Time, u64)]
        ensures { AreWakesOf self.now stage bin result.now }
    {
        let all = self.wakes.as_slice();
        if stage != 0 {
            return &[];
        }
        wakes_of_bin(all, self.bins, bin)
    }

    /// All its wakes, each a time and a key. The contract speaks of their times alone.
    pub fn wakes(&self) -> &[(Time, u64)]
        ensures { (u : ℕ) → Contains (map (λ w. w.0) result.now) u ↔ Contains (map (λ w. w.time) self.now.from.wakes) u }
    {
        self.wakes.as_slice()
    }
}
