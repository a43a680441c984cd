//! Moves in the order of their ranks: by stage, owner before, time and bin.
ghost use Rattle.std.specs.Prelude.{◌≡◌, ◌≢◌, ◌↔◌, ◌⊎◌, ◌≤◌, ◌<◌, ◌+◌, Some, IfSome, IfNone, Contains};
ghost use Rattle.mp_bins.specs.Changes.{AreRanked, IsFirstFrom, NoneIsFrom, IsReplaced};

use crate::kept::{ByOwner, UptoMove, UptoPlace, is_from};
use mp_names::{Move, TimedBin};
use mp_ordered::OrderedBlocks;

/// The first of the moves from a worker, in a stage, that come after a place; of all where there is none.
pub fn first_from(
    changes: &OrderedBlocks<Move, ByOwner>,
    stage: u32,
    worker: u32,
    after: Option<TimedBin>,
) -> Option<Move>
    requires { AreRanked changes.now.items }
    ensures first { IfSome result (IsFirstFrom changes.now.items stage worker after) }
    ensures none { IfNone result (NoneIsFrom changes.now.items stage worker after) }
{
    let cut = UptoPlace {
        stage,
        worker,
        after,
    };
    let Some(change) = changes.first_behind(&cut) else {
        return None;
    };
    if is_from(*change, stage, worker) {
        return Some(*change);
    }
    None
}

/// Takes one move out and puts another in, where there are such. There is room for one more.
pub fn replace(changes: &mut OrderedBlocks<Move, ByOwner>, old: Option<Move>, new: Option<Move>)
    requires ranked { AreRanked changes.old.items }
    requires room { 0 < changes.old.room }
    requires there { IfSome old (Contains changes.old.items) }
    requires fresh { IfSome new (λ move. Contains changes.old.items move → old ≡ Some move) }
    ensures ranked { AreRanked changes.new.items }
    ensures replaced { IsReplaced changes.old.items old new changes.new.items }
    ensures room { changes.old.room ≤ changes.new.room + 1 }
{
    take_out(changes, old);
    put_in(changes, new);
}

fn take_out(changes: &mut OrderedBlocks<Move, ByOwner>, old: Option<Move>)
    requires ranked { AreRanked changes.old.items }
    requires there { IfSome old (Contains changes.old.items) }
    ensures ranked { AreRanked changes.new.items }
    ensures others { (move : Move) →
        (Contains changes.new.items move ↔ (Contains changes.old.items move × (old ≢ Some move))) }
    ensures room { changes.new.room ≡ changes.old.room }
{
    if let Some(change) = old {
        changes.take_last_in_front(&UptoMove { change });
    }
}

fn put_in(changes: &mut OrderedBlocks<Move, ByOwner>, new: Option<Move>)
    requires ranked { AreRanked changes.old.items }
    requires room { 0 < changes.old.room }
    requires fresh { IfSome new (λ move. Contains changes.old.items move → ⊥) }
    ensures ranked { AreRanked changes.new.items }
    ensures one_more { (move : Move) →
        (Contains changes.new.items move ↔ (Contains changes.old.items move ⊎ (new ≡ Some move))) }
    ensures room { changes.old.room ≤ changes.new.room + 1 }
{
    if let Some(change) = new {
        changes.insert_reserved(change);
    }
}
