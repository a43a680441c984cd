//! What a paced run waits for.
ghost use Rattle.std.specs.Prelude.{◌<◌, ◌↔◌, ℕ, IsTrue};
ghost use Rattle.mp_names.specs.declared.locations.Loc.TheVariants.{Host};
ghost use Rattle.mp_names.specs.Frontiers.{HasPassed};
ghost use Rattle.mp_stamps.specs.Seen.{seen_at};

use mp_names::{Loc, Time};
use mp_stamps::{Seen, passed};

/// Whether the seen frontier of the host of every stage has passed a time.
pub(crate) fn hosts_have_passed(seen: &Seen, stages: u32, time: Time) -> bool
    ensures { IsTrue result ↔ ((j : ℕ) → j < stages → HasPassed (seen_at seen.now (Host j)) time) }
{
    for stage in 0..stages {
        if !passed(seen.frontier(Loc::Host(stage)), time) {
            return false;
        }
    }
    true
}
