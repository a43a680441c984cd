//! What the bins have, once all workers are finished.
ghost use Rattle.std.specs.Prelude.{IfOk, map};
ghost use Rattle.mp_job.specs.Runs.{IsRunOf};
ghost use Rattle.mp_model.specs.Tables.{table_of};
ghost use Rattle.mp_msg.specs.LastStates.{AreAllStates};
ghost use Rattle.mp_outline.specs.JobOutline.{outline_of};
ghost use Rattle.mp_tally.specs.Tallies.{AreTalliesOf};
ghost use Rattle.mp_threads_crew.specs.Crews.{AreFinished};

use crate::tallies::tallies_of;
use mp_job::Job;
use mp_model::{Naming, Query};
use mp_msg::BinState;
use mp_tally::Tally;
use mp_threads_member::{Worker, last_states};
use std::alloc::{AllocError, Global};

/// What a run by threads came to, by the workers' numbers, with what the bins have at its end.
#[derive(Drop)]
pub struct EndedStates<C: Drop> {
    /// What each worker has done.
    pub tallies: Vec<Tally>,
    /// The states of the bins that each worker owns at the end, each with its stage.
    pub states: Vec<Vec<(u32, BinState<C>)>>,
}

/// What finished workers tell, and what their bins have at the end. `AllocError`: no memory.
pub fn states_told_by<Q: Query, J: Naming>(
    alloc: Global,
    job: &Job<Q>,
    workers: Vec<Worker<Q, J>>,
) -> Result<EndedStates<Q::Cell>, AllocError>
    requires job { IsRunOf job.now J.job }
    requires finished { AreFinished (outline_of (table_of Q.facts J.job) J.job) workers.items }
    ensures tallies { IfOk result (λ run. AreTalliesOf (table_of Q.facts J.job) J.job run.tallies.items) }
    ensures states { IfOk result (λ run. AreAllStates (table_of Q.facts J.job) J.job (map (λ own. own.items) run.states.items)) }
{
    let tallies = tallies_of(alloc, job, workers.as_slice())?;
    let states = last_states(alloc, workers)?;
    Ok(EndedStates { tallies, states })
}
