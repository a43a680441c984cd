//! What the notes say of a bin, and which one comes next.
ghost use Rattle.std.specs.Prelude.{◌≡◌, ◌<◌, ◌-◌, ◌∷◌, [], slice_get, IfNone, IfSome, Some};
ghost use Rattle.std.specs.List.{prefix_len};
ghost use Rattle.mp_names.specs.Names.{is_before};
ghost use Rattle.mp_names.specs.Controls.{owner_below};
ghost use Rattle.mp_bins.specs.Notes.{AreInOrder, controls_in, place_of_note, rank_of_note};
ghost use Rattle.mp_bins.specs.Changes.{IsNextTime};

use crate::kept::{BelowLimit, ByBin, StageBin, UptoNote, is_of};
use crate::owners::Note;
use mp_names::Time;
use mp_ordered::{OrderedBlocks, Spot};
use std::cell::Cell;

/// The owner by the notes of times below a limit. The note that says it is looked for where `hint` points, if it is there.
pub fn owner_below(
    notes: &OrderedBlocks<Note, ByBin>,
    of: StageBin,
    limit: u128,
    hint: Option<&Cell<Spot>>,
) -> u32
    requires { AreInOrder notes.now.items }
    ensures { result ≡ owner_below (controls_in notes.now.items) of.first of.stage of.bin limit }
{
    let cut = BelowLimit { of, limit };
    let Some(note) = last_below(notes, &cut, hint) else {
        return of.first;
    };
    if is_of(note.control, of) {
        return note.control.worker;
    }
    of.first
}

// The last note below a limit.
fn last_below<'n>(
    notes: &'n OrderedBlocks<Note, ByBin>,
    cut: &BelowLimit,
    hint: Option<&Cell<Spot>>,
) -> Option<&'n Note>
    requires { AreInOrder notes.now.items }
    ensures some { IfSome result (λ x. slice_get notes.now.items (prefix_len (λ n. is_before (rank_of_note n) (cut.now.of.stage ∷ cut.now.of.bin ∷ cut.now.limit ∷ [])) notes.now.items - 1) ≡ Some x.now) }
    ensures some_in_front { IfSome result (λ x. 0 < prefix_len (λ n. is_before (rank_of_note n) (cut.now.of.stage ∷ cut.now.of.bin ∷ cut.now.limit ∷ [])) notes.now.items) }
    ensures none { IfNone result (prefix_len (λ n. is_before (rank_of_note n) (cut.now.of.stage ∷ cut.now.of.bin ∷ cut.now.limit ∷ [])) notes.now.items ≡ 0) }
{
    match hint {
        Some(hint) => notes.last_in_front_hinted(cut, hint),
        None => notes.last_in_front(cut),
    }
}

/// The time of the first note behind the place of this one, if it is one of the same bin and of another time.
pub fn next_time(notes: &OrderedBlocks<Note, ByBin>, note: Note) -> Option<Time>
    requires { AreInOrder notes.now.items }
    ensures { IsNextTime notes.now.items (place_of_note notes.now.items note) note.control result }
{
    let control = note.control;
    let cut = UptoNote { note };
    let Some(behind) = notes.first_behind(&cut) else {
        return None;
    };
    let next = behind.control;
    if next.stage == control.stage && next.bin == control.bin && next.time != control.time {
        return Some(next.time);
    }
    None
}
