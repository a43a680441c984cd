//! The orders in which notes and moves are kept, and what parts each of them in two.
ghost use Rattle.std.specs.Prelude.{◌≡◌, ◌&&◌, ◌==◌, ◌∷◌, [], not};
ghost use Rattle.mp_names.specs.Names.{is_before};
ghost use Rattle.mp_bins.specs.Notes.{rank_of_note};
ghost use Rattle.mp_bins.specs.Changes.{key_after, key_of, rank_of_move};

use crate::owners::Note;
use mp_names::{Control, Move, TimedBin};
use mp_ordered::{Cut, Order};

/// A bin of a stage, and the worker that owns it before any record of it.
#[derive(Clone, Copy, Drop)]
pub struct StageBin {
    /// From 0.
    pub stage: u32,
    /// From 0.
    pub bin: u32,
    /// The owner before any record, from 0.
    pub first: u32,
}

/// Notes by stage, bin, time and index.
pub struct ByBin;

impl Order<Note> for ByBin {
    ghost rank = { rank_of_note };

    fn is_before(first: &Note, second: &Note) -> bool {
        note_is_before(*first, *second)
    }
}

fn note_is_before(a: Note, b: Note) -> bool
    ensures { result ≡ is_before (rank_of_note a) (rank_of_note b) }
{
    let (x, y) = (a.control, b.control);
    x.stage < y.stage
        || x.stage == y.stage
            && (x.bin < y.bin
                || x.bin == y.bin && (x.time < y.time || x.time == y.time && a.index < b.index))
}

/// Moves by stage, owner before, time and bin.
pub struct ByOwner;

impl Order<Move> for ByOwner {
    ghost rank = { rank_of_move };

    fn is_before(first: &Move, second: &Move) -> bool {
        move_is_before(*first, *second)
    }
}

fn move_is_before(a: Move, b: Move) -> bool
    ensures { result ≡ is_before (rank_of_move a) (rank_of_move b) }
{
    a.stage < b.stage
        || a.stage == b.stage
            && (a.from < b.from
                || a.from == b.from
                    && (a.time < b.time
                        || a.time == b.time && (a.bin < b.bin || a.bin == b.bin && a.to < b.to)))
}

/// Up to a note: those of no greater rank.
#[derive(Drop)]
pub struct UptoNote {
    /// The note.
    pub note: Note,
}

impl Cut<Note> for UptoNote {
    ghost front = { λ c n. not (is_before (rank_of_note c.note) (rank_of_note n)) };

    fn is_in_front(&self, item: &Note) -> bool {
        !note_is_before(self.note, *item)
    }
}

/// Before a limit, by stage, bin and time.
#[derive(Drop)]
pub struct BelowLimit {
    /// The stage and the bin.
    pub of: StageBin,
    /// The time, or one past the last.
    pub limit: u128,
}

impl Cut<Note> for BelowLimit {
    ghost front = { λ c n. is_before (rank_of_note n) (c.of.stage ∷ c.of.bin ∷ c.limit ∷ []) };

    fn is_in_front(&self, item: &Note) -> bool {
        is_below(item.control, self.of, self.limit)
    }
}

fn is_below(control: Control, of: StageBin, limit: u128) -> bool
    ensures { result ≡ is_before (control.stage ∷ control.bin ∷ control.time ∷ []) (of.stage ∷ of.bin ∷ limit ∷ []) }
{
    control.stage < of.stage
        || control.stage == of.stage
            && (control.bin < of.bin || control.bin == of.bin && u128::from(control.time) < limit)
}

/// Up to a move: those of no greater rank.
#[derive(Drop)]
pub struct UptoMove {
    /// The move.
    pub change: Move,
}

impl Cut<Move> for UptoMove {
    ghost front = { λ c m. not (is_before (rank_of_move c.change) (rank_of_move m)) };

    fn is_in_front(&self, item: &Move) -> bool {
        !move_is_before(self.change, *item)
    }
}

/// Up to a place among the moves from a worker, in a stage; before all of them where there is none.
#[derive(Drop)]
pub struct UptoPlace {
    /// From 0.
    pub stage: u32,
    /// From 0.
    pub worker: u32,
    /// The time and the bin of the place.
    pub after: Option<TimedBin>,
}

impl Cut<Move> for UptoPlace {
    ghost front = { λ c m. not (is_before (key_of c.stage c.worker c.after) (rank_of_move m)) };

    fn is_in_front(&self, item: &Move) -> bool {
        !is_behind(*item, self.stage, self.worker, self.after)
    }
}

fn is_behind(change: Move, stage: u32, worker: u32, after: Option<TimedBin>) -> bool
    ensures { result ≡ is_before (key_of stage worker after) (rank_of_move change) }
{
    stage < change.stage
        || stage == change.stage
            && (worker < change.from || worker == change.from && is_after(change, after))
}

fn is_after(change: Move, after: Option<TimedBin>) -> bool
    ensures { result ≡ is_before (key_after after) (change.time ∷ change.bin ∷ change.to ∷ []) }
{
    match after {
        Some(last) => {
            last.time < change.time || last.time == change.time && last.bin < change.bin
        }
        None => true,
    }
}

/// The record is one of the bin.
pub fn is_of(control: Control, of: StageBin) -> bool
    ensures { result ≡ (control.stage == of.stage && control.bin == of.bin) }
{
    control.stage == of.stage && control.bin == of.bin
}

/// The move is one from the worker, in the stage.
pub fn is_from(change: Move, stage: u32, worker: u32) -> bool
    ensures { result ≡ (change.stage == stage && change.from == worker) }
{
    change.stage == stage && change.from == worker
}
