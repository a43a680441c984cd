//! What a pointstamp is of.
ghost use Rattle.std.specs.Prelude.{◌≡◌};
ghost use Rattle.mp_stamps.specs.Counts.{is_stamp};

use mp_names::{Loc, Pointstamp, Time};

/// Whether a pointstamp is of this location and time.
pub fn is_stamp(stamp: Pointstamp, loc: Loc, time: Time) -> bool
    ensures { result ≡ is_stamp loc time stamp }
{
    stamp.time == time && stamp.loc == loc
}
