//! What the hosts of a worker have at the end.
ghost use Rattle.std.specs.Prelude.{◌≡◌, ◌++◌, All, IfOk, OnOk};
ghost use Rattle.std.specs.List.{flat_map};
ghost use Rattle.mp_model.specs.Tables.{table_of};
ghost use Rattle.mp_host_laws.specs.Last.{EndsWithLastStates};
ghost use Rattle.mp_worker_parts.specs.Last.{staged};

use mp_host::Host;
use mp_model::{Naming, Query};
use mp_msg::BinState;
use std::alloc::{AllocError, Global};

/// The states that hosts have in hand, each with its stage. `AllocError`: no memory, and the states are gone.
pub(crate) fn states_of<Q: Query, J: Naming>(
    alloc: Global,
    hosts: Vec<Host<'_, Q, J>>,
) -> Result<Vec<(u32, BinState<Q::Cell>)>, AllocError>
    ensures states { IfOk result (λ states. states.items ≡ flat_map staged hosts.entry.items) }
    ensures last { OnOk result (All (EndsWithLastStates (table_of Q.facts J.job) J.job) hosts.entry.items) }
{
    let mut states = Vec::new(alloc);
    for host in hosts {
        add_states(&mut states, host)?;
    }
    Ok(states)
}

// Adds the states that a host has in hand, each with its stage. `AllocError`: no memory, and the states are gone.
fn add_states<Q: Query, J: Naming>(
    states: &mut Vec<(u32, BinState<Q::Cell>)>,
    host: Host<'_, Q, J>,
) -> Result<(), AllocError>
    ensures states { OnOk result (states.new.items ≡ states.old.items ++ staged host.entry) }
    ensures last { EndsWithLastStates (table_of Q.facts J.job) J.job host.entry }
{
    let stage = host.stage();
    let held = host.into_states();
    states.reserve(held.len())?;
    for one in held {
        states.push_reserved((stage, one.state));
    }
    Ok(())
}
