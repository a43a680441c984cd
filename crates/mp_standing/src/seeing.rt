//! What a worker must have seen for its steps along lists.
ghost use Rattle.std.specs.Prelude.{◌≡◌, ◌↔◌, ◌<◌, ℕ, IsTrue};
ghost use Rattle.mp_names.specs.Frontiers.{HasPassed, HasReached};
ghost use Rattle.mp_names.specs.declared.locations.Loc.{Loc};
ghost use Rattle.mp_stamps.specs.Seen.{seen_at};
ghost use Rattle.mp_standing.specs.Seeing.{IsBeforeNext};

use mp_chart::Entry;
use mp_names::{Frontier, Loc, Time};
use mp_stamps::{Seen, passed};

/// Whether the hosts of so many stages have passed a time.
pub fn hosts_passed(seen: &Seen, stages: u32, time: Time) -> bool
    ensures { IsTrue result ↔ ((j : ℕ) → j < stages → HasPassed (seen_at seen.now (Loc.Host j)) time) }
{
    for stage in 0..stages {
        if !passed(seen.frontier(Loc::Host(stage)), time) {
            return false;
        }
    }
    true
}

/// Whether a packet of a stage may leave at a time: its control records are known to have come, and the groups before it to be
/// applied.
pub fn sees_packet(seen: &Seen, stage: u32, time: Time) -> bool
    ensures { IsTrue result ↔ (HasPassed (seen_at seen.now Loc.CtlMail) time × HasReached (seen_at seen.now (Loc.Host stage)) time) }
{
    passed(seen.frontier(Loc::CtlMail), time) && reached(seen.frontier(Loc::Host(stage)), time)
}

/// Whether a time of control records may be settled, where this packet of the stage comes next: its control records are known to
/// have come, and the packet is of a later time.
pub fn sees_time(seen: &Seen, time: Time, next: Option<Entry>) -> bool
    ensures { IsTrue result ↔ (HasPassed (seen_at seen.now Loc.CtlMail) time × IsBeforeNext time next) }
{
    passed(seen.frontier(Loc::CtlMail), time) && is_before_next(time, next)
}

/// Whether a group of a stage may be applied at a time: its records and its packets are known to have come.
pub fn sees_group(seen: &Seen, stage: u32, time: Time) -> bool
    ensures { IsTrue result ↔ (HasPassed (seen_at seen.now (Loc.Mail stage)) time × HasPassed (seen_at seen.now (Loc.State stage)) time) }
{
    passed(seen.frontier(Loc::Mail(stage)), time) && passed(seen.frontier(Loc::State(stage)), time)
}

// Whether a frontier stands at a time, or has passed it.
fn reached(frontier: Frontier, time: Time) -> bool
    ensures { IsTrue result ↔ HasReached frontier time }
{
    match frontier {
        Frontier::At(next) => time <= next,
        Frontier::Done => true,
    }
}

// Whether the next, if there is one, is of a later time.
fn is_before_next(time: Time, next: Option<Entry>) -> bool
    ensures { IsTrue result ↔ IsBeforeNext time next }
{
    match next {
        Some(entry) => time < entry.time,
        None => true,
    }
}
