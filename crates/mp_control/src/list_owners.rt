//! The owners by the control records of a list, kept while the list grows.
ghost use Rattle.std.specs.Prelude.{◌≡◌, ◌<◌, ◌^◌, [], All, IfOk, OnOk, length};
ghost use Rattle.mp_bins.specs.Notes.{FirstFits, IsShape, IsWithin};
ghost use Rattle.mp_control.specs.Drains.{AreListOwners};

use mp_bins::Owners;
use mp_job::{Control, Shape};
use mp_names::First;
use std::alloc::{AllocError, Global};

/// The owners by the first so many control records of a list, so that each record is noted once however often they are asked for.
#[derive(Drop)]
pub struct ListOwners {
    /// The owners by these records.
    pub owners: Owners,
    /// So many of the list are noted.
    pub count: usize,
}

impl ListOwners {
    /// The first owners of a job of this shape, where none of a list is noted. `AllocError`: no memory.
    pub fn new(alloc: Global, shape: Shape, firsts: &[First]) -> Result<ListOwners, AllocError>
        requires shape { IsShape shape }
        requires firsts { All (FirstFits shape) firsts.now }
        ensures layout { IfOk result (λ kept. kept.owners.layout ≡ record { shape = shape; firsts = firsts.now }) }
        ensures none_noted { IfOk result (λ kept. kept.owners.noted ≡ []) }
        ensures none { IfOk result (λ kept. kept.count ≡ 0) }
    {
        Ok(ListOwners {
            owners: Owners::with_firsts(alloc, shape, firsts)?,
            count: 0,
        })
    }

    /// Notes those of the list that came since. `AllocError`: no memory.
    pub fn note_more(&mut self, controls: &[Control]) -> Result<(), AllocError>
        requires kept { AreListOwners self.old.owners.layout controls.now self.old }
        requires within { All (IsWithin self.old.owners.layout.shape) controls.now }
        requires few { length controls.now < 2 ^ 32 }
        ensures kept { OnOk result (AreListOwners self.old.owners.layout controls.now self.new) }
        ensures all { OnOk result (self.new.count ≡ length controls.now) }
    {
        for index in self.count..controls.len() {
            self.owners.note(index as u32, controls[index])?;
        }
        self.count = controls.len();
        Ok(())
    }
}
