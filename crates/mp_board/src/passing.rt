//! Counts that are given back once frontiers have passed them.
ghost use Rattle.std.specs.Prelude.{◌≡◌, ◌<◌, ◌≤◌, ℕ, pos, true, false};
ghost use Rattle.mp_names.specs.Frontiers.{HasPassed};
ghost use Rattle.mp_names.specs.Limits.{most_stages};
ghost use Rattle.mp_names.specs.Locations.{IsLocation};
ghost use Rattle.mp_names.specs.declared.locations.Loc.{Loc};
ghost use Rattle.mp_stamps.specs.Counts.{count_in};
ghost use Rattle.mp_stamps.specs.Places.{places_of};
ghost use Rattle.mp_stamps.specs.Seen.{seen_at};
ghost use Rattle.mp_board.specs.Passing.{IsGivenBack, end_of};

use mp_names::Time;
use mp_stamps::{Counts, Frontier, Seen, loc_at};

/// Where a least time has moved, gives back the counts of each location before the frontier that was seen there, which are
/// all 0. Takes no memory.
pub(crate) fn give_back_passed(counts: &mut Counts, moved: bool, seen: &Seen)
    requires few { seen.now.stages ≤ most_stages }
    requires stages { counts.old.stages ≡ seen.now.stages }
    requires quiet { (loc : Loc) (t : ℕ) → IsLocation seen.now.stages loc → HasPassed (seen_at seen.now loc) t →
        count_in counts.old loc t ≡ pos 0 }
    ensures moved { moved ≡ true → IsGivenBack seen.now (places_of seen.now.stages) counts.old counts.new }
    ensures still { moved ≡ false → counts.new ≡ counts.old }
{
    if moved {
        give_back_all(counts, seen);
    }
}

// Gives back the counts of each location before the frontier that was seen there.
fn give_back_all(counts: &mut Counts, seen: &Seen)
    requires few { seen.now.stages ≤ most_stages }
    requires stages { counts.old.stages ≡ seen.now.stages }
    requires quiet { (loc : Loc) (t : ℕ) → IsLocation seen.now.stages loc → HasPassed (seen_at seen.now loc) t →
        count_in counts.old loc t ≡ pos 0 }
    ensures { IsGivenBack seen.now (places_of seen.now.stages) counts.old counts.new }
{
    for place in 0..5 * seen.stages() + 5 {
        let loc = loc_at(place);
        counts.drop_below(loc, end_of(seen.frontier(loc)));
    }
}

// The first time that a frontier hasn't passed; where it is done, the last that there may be.
fn end_of(frontier: Frontier) -> Time
    ensures is { result ≡ end_of frontier }
    ensures passed { (t : ℕ) → t < result → HasPassed frontier t }
{
    match frontier {
        Frontier::At(time) => time,
        Frontier::Done => Time::MAX,
    }
}
