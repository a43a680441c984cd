//! How a worker posts its log.
ghost use Rattle.std.specs.Prelude.{◌≢◌, ℕ, Err};
ghost use Rattle.mp_worker_refinement.specs.Served.{IsAtHub};
ghost use Rattle.mp_turns.specs.declared.turn.Stop.TheVariants.{Memory};
ghost use Rattle.mp_worker.specs.Exchanging.{Exchanges};

use crate::{Stop, Turn};
use mp_board::{Hub, OutlineOf};
use mp_model::{Naming, Query};
use mp_worker_sends::{Exchanged, Parts};

// Posts the log, and sees what all posted logs show then. `Seen`: the version of the board, which is later than the one that
// was seen before. `NotNow`: it is the same, so nothing had changed, and the log that was posted is what was posted last.
// `Busy`: only where the hub says so. `Other`: another worker stopped before. Only `Seen` changes the parts and what the hub
// has of them. It takes no memory, and has no other refusal.
pub(crate) fn exchange<Q: Query, J: Naming, H: Hub<OutlineOf<Q, J>>>(
    parts: &mut Parts<'_, Q, J>,
    hub: &mut H,
) -> Result<Turn, Stop>
    requires at_hub { IsAtHub H.serves H.posted H.version parts.old.worker hub.old }
    ensures exchanges { Exchanges H.after H.kept H.shows H.goes_on H.was_stopped H.was_busy parts.old.worker parts.new.worker hub.old hub.new result }
    ensures memory { result ≢ Err Memory }
    ensures at_hub { IsAtHub H.serves H.posted H.version parts.new.worker hub.new }
    ensures still_serves { (w : ℕ) → H.serves hub.old w → H.serves hub.new w }
{
    match parts.exchange(hub)? {
        Exchanged::Seen(version) => Ok(Turn::Seen(version)),
        Exchanged::NothingNew => Ok(Turn::NotNow),
        Exchanged::Busy => Ok(Turn::Busy),
    }
}
