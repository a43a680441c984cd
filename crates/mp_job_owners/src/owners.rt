//! The owners of a job's bins, and the moves.
ghost use Rattle.std.specs.Prelude.{◌≡◌, ◌<◌, ◌^◌, ℕ, true, All, IfOk, length};
ghost use Rattle.mp_names.specs.Outlines.{moves_of};
ghost use Rattle.mp_bins.specs.Laws.{AreNotesOf};
ghost use Rattle.mp_bins.specs.Notes.{FirstFits, IsShape, IsWithin, is_noted};
ghost use Rattle.mp_job.specs.Legal.{JobIsLegal};
ghost use Rattle.mp_job_owners.specs.Told.{TellOwners};
ghost use Rattle.mp_outline.specs.JobOutline.{layout_of, outline_of};
ghost use Rattle.mp_model.specs.Tables.{table_of};

use mp_bins::Owners;
use mp_job::Job;
use mp_model::Query;
use mp_names::{Control, First, Move, Shape};
use std::alloc::{AllocError, Global};

/// The moves of a job's control records, by time, stage and bin. `AllocError`: no memory.
pub fn moves_of<Q: Query>(alloc: Global, job: &Job<Q>) -> Result<Vec<Move>, AllocError>
    ensures moves { IfOk result (λ moves.
        moves.items ≡ moves_of (outline_of (table_of Q.facts job.now) job.now)) }
    ensures legal { JobIsLegal (table_of Q.facts job.now) job.now }
{
    let owners = owners_of(alloc, job)?;
    owners.moves()
}

/// The owners of a job's bins, by all its control records. `AllocError`: no memory.
pub fn owners_of<Q: Query>(alloc: Global, job: &Job<Q>) -> Result<Owners, AllocError>
    ensures layout { IfOk result (λ owners. owners.layout ≡ layout_of job.now) }
    ensures told { IfOk result (λ owners. TellOwners (outline_of (table_of Q.facts job.now) job.now) owners) }
    ensures legal { JobIsLegal (table_of Q.facts job.now) job.now }
{
    noted(alloc, job.shape(), job.firsts(), job.controls())
}

// The owners, who are these at first, with all of a list's control records noted. `AllocError`: no memory.
fn noted(
    alloc: Global,
    shape: Shape,
    firsts: &[First],
    controls: &[Control],
) -> Result<Owners, AllocError>
    requires shape { IsShape shape }
    requires firsts { All (FirstFits shape) firsts.now }
    requires within { All (IsWithin shape) controls.now }
    requires few { length controls.now < 2 ^ 32 }
    ensures layout { IfOk result (λ owners. owners.layout ≡ record { shape = shape; firsts = firsts.now }) }
    ensures notes { IfOk result (λ owners. AreNotesOf controls.now owners) }
    ensures all { IfOk result (λ owners.
        (i : ℕ) → i < length controls.now → is_noted owners.noted i ≡ true) }
{
    let mut owners = Owners::with_firsts(alloc, shape, firsts)?;
    for (index, control) in controls.iter().enumerate() {
        owners.note(index as u32, *control)?;
    }
    Ok(owners)
}
