//! Room for what a message may bring. All of it is made before one is taken, as nothing may be refused after that.
ghost use Rattle.std.specs.Prelude.{◌≡◌, ◌≤◌, ◌<◌, ◌+◌, ◌^◌, All, OnOk};
ghost use Rattle.mp_names.specs.Limits.{most_in_bundle};
ghost use Rattle.mp_worker_take.specs.Rooms.{HasRoomToTake, SameHosts, SameMovers};
ghost use Rattle.mp_model.specs.Tables.{table_of};

use mp_bins::Owners;
use mp_handoff::Movers;
use mp_host::Host;
use mp_model::{Naming, Query};
use mp_names::limits::MAX_BUNDLE;
use mp_output::Rows;
use mp_rows::{Log, OutlineOf};
use mp_worker_parts::Parts;
use std::alloc::AllocError;

/// Makes room for one message, whatever it holds. `AllocError`: no memory, and nothing but rooms changes.
pub(crate) fn make_room_to_take<'a, Q: Query, J: Naming>(
    parts: &mut Parts<'a, Q, J>,
) -> Result<(), AllocError>
    ensures same { parts.new.worker ≡ parts.old.worker }
    ensures room { OnOk result (HasRoomToTake (table_of Q.facts J.job) J.job parts.new) }
{
    let times = parts.job.count_of_post_times();
    parts.lists.make_room(times)?;
    make_room_in_front(times, &mut parts.log, &mut parts.rows, &mut parts.owners)?;
    make_room_in_hosts(&mut parts.hosts)?;
    make_room_in_movers(&mut parts.movers)
}

// Makes room in the log, the rows and the owners for one message, whatever it holds, where a packet's wakes are of so many
// times. `AllocError`: no memory, and nothing but rooms changes.
fn make_room_in_front<Q: Query, J: Naming>(
    times: usize,
    log: &mut Log<OutlineOf<Q, J>>,
    rows: &mut Rows<Q, J>,
    owners: &mut Owners,
) -> Result<(), AllocError>
    requires few { times + 64 < 2 ^ 64 }
    ensures same_log { (log.new.worker ≡ log.old.worker) × (log.new.log ≡ log.old.log) }
    ensures posted { log.new.posted ≡ log.old.posted }
    ensures same_rows { rows.new.rows ≡ rows.old.rows }
    ensures same_owners { (owners.new.layout ≡ owners.old.layout) × (owners.new.noted ≡ owners.old.noted) }
    ensures log { OnOk result ((most_in_bundle ≤ log.new.room_for_names) × (times + 2 ≤ log.new.room_for_changes)) }
    ensures rows { OnOk result (1 ≤ rows.new.room) }
    ensures owners { OnOk result (1 ≤ owners.new.room) }
{
    log.make_room((times + MAX_BUNDLE) as u64)?;
    rows.make_room(1)?;
    owners.make_room(1)
}

// Makes room in each host for the records of a message and for a bin. `AllocError`: no memory, and nothing but rooms changes.
fn make_room_in_hosts<'a, Q: Query, J: Naming>(
    hosts: &mut [Host<'a, Q, J>],
) -> Result<(), AllocError>
    ensures same { SameHosts hosts.old hosts.new }
    ensures room { OnOk result (All (λ h. (most_in_bundle ≤ h.room) × (1 ≤ h.room_for_bins)) hosts.new) }
{
    for host in hosts {
        host.make_room(MAX_BUNDLE as u64)?;
    }
    Ok(())
}

// Makes room in the movers of each stage for a note. `AllocError`: no memory, and nothing but rooms changes.
fn make_room_in_movers<Q: Query, J: Naming>(movers: &mut [Movers<Q, J>]) -> Result<(), AllocError>
    ensures same { SameMovers movers.old movers.new }
    ensures room { OnOk result (All (λ m. 1 ≤ m.room) movers.new) }
{
    for one in movers {
        one.make_room(1)?;
    }
    Ok(())
}
