//! The control records that drain a worker: its bins of a stage go to the others.
ghost use Rattle.std.specs.Prelude.{◌≡◌, ◌++◌, ◌<◌, ◌≤◌, IfErr, IfOk, OnErr, OnOk, length};
ghost use Rattle.mp_bins.specs.Laws.{AreAllNoted, AreNotesOf};
ghost use Rattle.mp_bins.specs.Notes.{owner_at};
ghost use Rattle.mp_names.specs.Limits.{greatest_time, most_controls};
ghost use Rattle.mp_plans.specs.Drains.{bins_of, drained, last_turn, owner_in, worker_of_turn};
ghost use Rattle.mp_plans.specs.Refusals.{IsTooMany};

use crate::refused::PlanRefused;
use mp_bins::Owners;
use mp_names::limits::MAX_CONTROLS;
use mp_names::{Control, Shape, Time};
use std::alloc::{AllocError, Global};

/// Appends a record for each bin of the stage that the worker owns at the time, upward, each `gap` later than the one before it;
/// the first goes to the worker behind this one, the second to the next, and so on by turns, but never to this one. The owners
/// are those by the list. There are two workers at least, and the time of the last bin is at most 2^47. `TooMany`: exactly where
/// the list would have more than 65,536 records, with how many it would have; `NoMemory`: an allocation failure. On both the
/// list is as it was.
pub fn drain(
    list: &mut Vec<Control>,
    owners: &Owners,
    shape: Shape,
    time: Time,
    gap: Time,
    stage: u32,
    worker: u32,
) -> Result<(), PlanRefused>
    requires workers { 2 ≤ shape.workers }
    requires shape { owners.now.layout.shape ≡ shape }
    requires stage { stage < shape.stages }
    requires notes { AreNotesOf list.old.items owners.now }
    requires noted { AreAllNoted list.old.items owners.now }
    requires last { last_turn time gap (length (bins_of (owner_in owners.now.layout list.old.items stage time) shape.bins worker)) ≤ greatest_time }
    ensures appended { OnOk result (list.new.items ≡ list.old.items ++ drained (owner_in owners.now.layout list.old.items stage time) shape time gap stage worker) }
    ensures few { OnOk result (length list.new.items ≤ most_controls) }
    ensures too_many { IfErr result (IsTooMany (length (list.old.items ++ drained (owner_in owners.now.layout list.old.items stage time) shape time gap stage worker))) }
    ensures unchanged { OnErr result (list.new.items ≡ list.old.items) }
{
    let bins = owned_bins(*list.allocator(), owners, shape, stage, time, worker)?;
    let count = list.len() as u64 + bins.len() as u64;
    if count > MAX_CONTROLS as u64 {
        return Err(PlanRefused::TooMany { count });
    }
    list.reserve(bins.len())?;
    for (turn, bin) in bins.iter().enumerate() {
        list.push_reserved(Control {
            time: time + turn as u64 * gap,
            stage,
            bin: *bin,
            worker: worker_of_turn(shape, worker, turn),
        });
    }
    Ok(())
}

/// The bins of a stage that a worker owns at a time, upward, by what was noted. `AllocError`: no memory.
pub fn owned_bins(
    alloc: Global,
    owners: &Owners,
    shape: Shape,
    stage: u32,
    time: Time,
    worker: u32,
) -> Result<Vec<u32>, AllocError>
    requires shape { owners.now.layout.shape ≡ shape }
    requires stage { stage < shape.stages }
    ensures { IfOk result (λ bins. bins.items ≡ bins_of (λ bin. owner_at owners.now stage bin time) shape.bins worker) }
{
    let mut bins = Vec::new(alloc);
    for bin in 0..shape.bins {
        if owners.owner(stage, bin, time) == worker {
            bins.push(bin)?;
        }
    }
    Ok(bins)
}

// The worker of a turn, which is never the one that is drained.
fn worker_of_turn(shape: Shape, worker: u32, turn: usize) -> u32
    requires { 2 ≤ shape.workers }
    ensures { result ≡ worker_of_turn shape worker turn }
{
    let others = u64::from(shape.workers) - 1;
    ((u64::from(worker) + 1 + turn as u64 % others) % u64::from(shape.workers)) as u32
}
