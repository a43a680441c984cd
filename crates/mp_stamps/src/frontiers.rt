//! What a frontier says of a time.
ghost use Rattle.std.specs.Prelude.{◌≡◌, ◌↔◌, IsTrue};
ghost use Rattle.mp_names.specs.Frontiers.{HasPassed};

use mp_names::{Frontier, Time};

/// Whether a frontier has passed a time: nothing of that time comes any more. It hasn't passed the time
/// at which it stands.
pub fn passed(frontier: Frontier, time: Time) -> bool
    ensures { IsTrue result ↔ HasPassed frontier time }
{
    match frontier {
        Frontier::At(next) => time < next,
        Frontier::Done => true,
    }
}
