//! Changes that are added to the counts.
ghost use Rattle.std.specs.Prelude.{◌≡◌, ◌<◌, ◌+◌, ◌∷◌, [], All, ℕ, pos, ◌+ℤ◌, false, length};
ghost use Rattle.mp_names.specs.declared.locations.Loc.{Loc};
ghost use Rattle.mp_names.specs.declared.locations.Loc.TheVariants.{Source};
ghost use Rattle.mp_stamps.specs.Counts.{IsCounted, SamePlaces, count_in};
ghost use Rattle.mp_stamps.specs.Flow.{KeepsFrontiers};
ghost use Rattle.mp_rows.specs.Entries.{change_at, sum_at};
ghost use Rattle.mp_rows.specs.Opening.{source_entries};
ghost use Rattle.mp_board.specs.Totals.{HasRoomFor};

use mp_model::Event;
use mp_names::{Change, Loc, Pointstamp};
use mp_stamps::Counts;

/// Adds changes to the counts; where no count is kept they are dropped. Each count has room for so many. It gives whether
/// the least time of outstanding work has moved anywhere; where it hasn't, all frontiers stay.
pub(crate) fn add_all(counts: &mut Counts, changes: &[Change]) -> bool
    requires { HasRoomFor (length changes.now) counts.old }
    ensures counted { (loc : Loc) (t : ℕ) → IsCounted counts.old loc t →
        count_in counts.new loc t ≡ count_in counts.old loc t +ℤ sum_at changes.now loc t }
    ensures dropped { (loc : Loc) (t : ℕ) → ¬ IsCounted counts.old loc t →
        count_in counts.new loc t ≡ count_in counts.old loc t }
    ensures same { SamePlaces counts.old counts.new }
    ensures room { (k : ℕ) → HasRoomFor (length changes.now + k) counts.old → HasRoomFor k counts.new }
    ensures still { result ≡ false → KeepsFrontiers counts.old counts.new }
{
    let mut moved = false;
    for change in changes {
        moved = add_one(counts, *change) || moved;
    }
    moved
}

/// Counts the records of the events of these indices, each once at its time; where no count is kept they are dropped. Each
/// count has room for so many.
pub(crate) fn add_records(counts: &mut Counts, events: &[Event], share: &[u32])
    requires inside { All (λ i. i < length events.now) share.now }
    requires room { HasRoomFor (length share.now) counts.old }
    ensures counted { (loc : Loc) (t : ℕ) → IsCounted counts.old loc t →
        count_in counts.new loc t ≡ count_in counts.old loc t +ℤ sum_at (source_entries events.now share.now) loc t }
    ensures dropped { (loc : Loc) (t : ℕ) → ¬ IsCounted counts.old loc t →
        count_in counts.new loc t ≡ count_in counts.old loc t }
    ensures same { SamePlaces counts.old counts.new }
    ensures room { (k : ℕ) → HasRoomFor (length share.now + k) counts.old → HasRoomFor k counts.new }
{
    for index in share {
        add_one(counts, change_of(&events[*index as usize]));
    }
}

// What the record of an event counts.
fn change_of(event: &Event) -> Change
    ensures { result ≡ change_at Source event.now.time (pos 1) }
{
    Change {
        at: Pointstamp {
            loc: Loc::Source,
            time: event.time,
        },
        by: 1,
    }
}

// Adds a change to the counts, if it is one.
fn add_one(counts: &mut Counts, change: Change) -> bool
    requires { HasRoomFor 1 counts.old }
    ensures counted { (loc : Loc) (t : ℕ) → IsCounted counts.old loc t →
        count_in counts.new loc t ≡ count_in counts.old loc t +ℤ sum_at (change ∷ []) loc t }
    ensures dropped { (loc : Loc) (t : ℕ) → ¬ IsCounted counts.old loc t →
        count_in counts.new loc t ≡ count_in counts.old loc t }
    ensures same { SamePlaces counts.old counts.new }
    ensures room { (k : ℕ) → HasRoomFor (1 + k) counts.old → HasRoomFor k counts.new }
    ensures still { result ≡ false → KeepsFrontiers counts.old counts.new }
{
    if change.by == 0 {
        return false;
    }
    counts.add(change.at.loc, change.at.time, change.by)
}
