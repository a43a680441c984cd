//! What a worker tells of what it has done.
ghost use Rattle.std.specs.Prelude.{◌≡◌, ◌++◌, All, IfOk, OnOk, map};
ghost use Rattle.mp_model.specs.Tables.{table_of};
ghost use Rattle.mp_handoff.specs.Keys.{SentHasKeys};
ghost use Rattle.mp_tally.specs.Tallies.{MovedHasKeys, moved_by, moved_of};

use mp_handoff::{Movers, Sent};
use mp_model::{Naming, Query, Time};
use std::alloc::{AllocError, Global};

/// A packet that a worker sent: its stage, its bin, the time of its move, and how many keys of the bin then had a cell.
#[derive(Clone, Copy)]
pub struct Moved {
    /// From 0.
    pub stage: u32,
    /// From 0.
    pub bin: u32,
    /// In units of the event file.
    pub time: Time,
    /// How many keys of the bin then had a cell that isn't fresh.
    pub keys: u64,
}

/// How many groups a worker has applied, and the packets that it has sent, by stage and then in the order in which they
/// were sent.
#[derive(Drop)]
pub struct Tally {
    /// How many it has applied.
    pub groups: u64,
    /// By stage, then in the order of sending.
    pub moved: Vec<Moved>,
}

/// The packets that were sent by the movers of all stages. `AllocError`: no memory.
pub fn moved_so_far<Q: Query, J: Naming>(
    alloc: Global,
    movers: &[Movers<Q, J>],
) -> Result<Vec<Moved>, AllocError>
    ensures moved { IfOk result (λ moved. moved.items ≡ moved_by movers.now) }
    ensures keys { IfOk result (λ moved. All (MovedHasKeys (table_of Q.facts J.job) J.job) moved.items) }
{
    let mut moved = Vec::new(alloc);
    for one in movers {
        push_moved(&mut moved, one)?;
    }
    Ok(moved)
}

// Lists the packets that were sent by the movers of a stage behind others. `AllocError`: no memory.
fn push_moved<Q: Query, J: Naming>(
    moved: &mut Vec<Moved>,
    movers: &Movers<Q, J>,
) -> Result<(), AllocError>
    ensures moved { OnOk result (moved.new.items ≡ moved.old.items ++ map (moved_of movers.now.stage) movers.now.sent) }
    ensures keys { All (SentHasKeys (table_of Q.facts J.job) J.job movers.now.stage) movers.now.sent }
{
    let stage = movers.stage();
    for sent in movers.sent_so_far() {
        let Sent { bin, time, keys } = *sent;
        moved.push(Moved {
            stage,
            bin,
            time,
            keys,
        })?;
    }
    Ok(())
}
