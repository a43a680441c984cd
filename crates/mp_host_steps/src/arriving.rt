//! Whether all that belongs to a group has come.
ghost use Rattle.std.specs.Prelude.{◌↔◌, IsTrue};
ghost use Rattle.mp_names.specs.declared.locations.Loc.TheVariants.{Mail, State};
ghost use Rattle.mp_names.specs.Frontiers.{HasPassed};
ghost use Rattle.mp_stamps.specs.Seen.{seen_at};

use mp_model::Time;
use mp_names::Loc;
use mp_stamps::{Seen, passed};

/// Whether no record of a stage and no packet of its bins comes any more that a group at a time has to wait for: by what
/// the worker has seen, their frontiers have passed the time (as Naiad's notifications).
pub fn all_has_come(seen: &Seen, stage: u32, time: Time) -> bool
    ensures { IsTrue result ↔ (HasPassed (seen_at seen.now (Mail stage)) time × HasPassed (seen_at seen.now (State stage)) time) }
{
    passed(seen.frontier(Loc::Mail(stage)), time) && passed(seen.frontier(Loc::State(stage)), time)
}
