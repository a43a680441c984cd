//! What workers have at the end.
ghost use Rattle.std.specs.Prelude.{All, IfOk, map};
ghost use Rattle.mp_model.specs.Tables.{table_of};
ghost use Rattle.mp_outline.specs.JobOutline.{outline_of};
ghost use Rattle.mp_worker_refinement.specs.SystemState.{KnowsTheEnd};
ghost use Rattle.mp_worker.specs.Last.{AreTheirStates};

use crate::Worker;
use mp_model::{Naming, Query};
use mp_msg::BinState;
use std::alloc::{AllocError, Global};

/// What each of some workers has, in their order. Each knows that all is over; they are done with. `AllocError`: no memory,
/// and the states are gone.
pub fn last_states<Q: Query, J: Naming>(
    alloc: Global,
    workers: Vec<Worker<'_, Q, J>>,
) -> Result<Vec<Vec<(u32, BinState<Q::Cell>)>>, AllocError>
    requires { All (KnowsTheEnd (outline_of (table_of Q.facts J.job) J.job)) workers.items }
    ensures { let q = table_of Q.facts J.job in
        IfOk result (λ all. AreTheirStates q J.job workers.entry.items (map (λ states. states.items) all.items)) }
{
    let mut all = Vec::with_capacity(alloc, workers.len())?;
    for worker in workers {
        all.push_reserved(worker.into_state(alloc)?);
    }
    Ok(all)
}
