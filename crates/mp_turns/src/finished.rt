//! Whether all that a worker saw has ended.
ghost use Rattle.std.specs.Prelude.{◌↔◌, IsTrue};
ghost use Rattle.mp_names.specs.Frontiers.{HasEnded};
ghost use Rattle.mp_stamps.specs.Seen.{seen_at};
ghost use Rattle.mp_turns.specs.Done.{AllHaveEnded, OthersHaveEnded, StageHasEnded};

use mp_names::{Frontier, Loc, Time};
use mp_stamps::Seen;

/// Whether the frontier of each location of a job with that many stages has come to its end: it is `Done` or, where there is a
/// stop time, has reached it.
pub fn all_have_ended(seen: &Seen, until: Option<Time>, stages: u32) -> bool
    ensures { IsTrue result ↔ AllHaveEnded until stages seen.now }
{
    for stage in 0..stages {
        if !stage_has_ended(seen, until, stage) {
            return false;
        }
    }
    others_have_ended(seen, until)
}

fn stage_has_ended(seen: &Seen, until: Option<Time>, stage: u32) -> bool
    ensures { IsTrue result ↔ StageHasEnded until stage seen.now }
{
    has_ended(seen, until, Loc::Route(stage))
        && has_ended(seen, until, Loc::Mail(stage))
        && has_ended(seen, until, Loc::Move(stage))
        && has_ended(seen, until, Loc::State(stage))
        && has_ended(seen, until, Loc::Host(stage))
}

fn others_have_ended(seen: &Seen, until: Option<Time>) -> bool
    ensures { IsTrue result ↔ OthersHaveEnded until seen.now }
{
    has_ended(seen, until, Loc::Ctl)
        && has_ended(seen, until, Loc::CtlMail)
        && has_ended(seen, until, Loc::Source)
        && has_ended(seen, until, Loc::OutRoute)
        && has_ended(seen, until, Loc::OutMail)
}

// Whether the frontier of a location has come to its end.
fn has_ended(seen: &Seen, until: Option<Time>, loc: Loc) -> bool
    ensures { IsTrue result ↔ HasEnded until (seen_at seen.now loc) }
{
    match (until, seen.frontier(loc)) {
        (_, Frontier::Done) => true,
        (Some(stop), Frontier::At(time)) => stop <= time,
        (None, Frontier::At(_)) => false,
    }
}
