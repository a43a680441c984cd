//! The moves of what was noted, kept at each note: one note changes at most two of them.
ghost use Rattle.std.specs.Prelude.{◌≡◌, ◌<◌, ◌≤◌, ◌+◌, false, IfSome, IfNone};
ghost use Rattle.mp_bins.specs.Notes.{AreInOrder, controls_in, is_noted, with_note};
ghost use Rattle.mp_bins.specs.Changes.{AreChangesOf, IsMoveThere, IsMoveThen};

use crate::finding::{next_time, owner_below};
use crate::kept::{ByBin, ByOwner, StageBin};
use crate::owners::Note;
use crate::ranked::replace;
use mp_layout::FirstOwners;
use mp_names::{Control, Move, Time};
use mp_ordered::OrderedBlocks;

/// Puts a note of a new index in its place, and brings the moves in line with it. There is room for one more note and two
/// more moves.
pub fn put_down(
    notes: &mut OrderedBlocks<Note, ByBin>,
    changes: &mut OrderedBlocks<Move, ByOwner>,
    owners: &FirstOwners,
    note: Note,
)
    requires order { AreInOrder notes.old.items }
    requires not_yet { is_noted notes.old.items note.index ≡ false }
    requires changes { AreChangesOf owners.now notes.old.items changes.old.items }
    requires room { 0 < notes.old.room }
    requires room_for_changes { 1 < changes.old.room }
    ensures notes { notes.new.items ≡ with_note notes.old.items note }
    ensures changes { AreChangesOf owners.now notes.new.items changes.new.items }
    ensures room { notes.old.room ≤ notes.new.room + 1 }
    ensures room_for_changes { changes.old.room ≤ changes.new.room + 2 }
{
    let Control {
        time,
        stage,
        bin,
        ..
    } = note.control;
    let first = owners.of(stage, bin);
    let of = StageBin { stage, bin, first };
    let next = next_time(notes, note);
    let here = move_at(notes, of, time);
    let then = move_then(notes, of, next);
    notes.insert_reserved(note);
    let new_here = move_at(notes, of, time);
    let new_then = move_then(notes, of, next);
    replace(changes, here, new_here);
    replace(changes, then, new_then);
}

// The move at a time, if the owner changes there.
fn move_at(notes: &OrderedBlocks<Note, ByBin>, of: StageBin, time: Time) -> Option<Move>
    requires { AreInOrder notes.now.items }
    ensures some { IfSome result (IsMoveThere (controls_in notes.now.items) of time) }
    ensures none { IfNone result ((move : Move) → IsMoveThere (controls_in notes.now.items) of time move → ⊥) }
{
    let from = owner_below(notes, of, u128::from(time), None);
    let to = owner_below(notes, of, u128::from(time) + 1, None);
    if from == to {
        return None;
    }
    Some(Move {
        time,
        stage: of.stage,
        bin: of.bin,
        from,
        to,
    })
}

// The same at a time that there may be.
fn move_then(notes: &OrderedBlocks<Note, ByBin>, of: StageBin, time: Option<Time>) -> Option<Move>
    requires { AreInOrder notes.now.items }
    ensures some { IfSome result (IsMoveThen (controls_in notes.now.items) of time) }
    ensures none { IfNone result ((move : Move) → IsMoveThen (controls_in notes.now.items) of time move → ⊥) }
{
    match time {
        Some(time) => move_at(notes, of, time),
        None => None,
    }
}
