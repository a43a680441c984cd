//! A whole run by threads, with what the bins have at its end.
ghost use Rattle.std.specs.Prelude.{◌<◌, IfOk, map};
ghost use Rattle.mp_model.specs.Tables.{table_of};
ghost use Rattle.mp_msg.specs.LastStates.{AreAllStates};
ghost use Rattle.mp_tally.specs.Tallies.{AreTalliesOf};
ghost use Rattle.mp_answer_laws.specs.Runs.{RunLeaves};
ghost use Rattle.mp_threads_member.specs.Below.{MayRun};

use crate::run_workers;
use mp_board::Cause;
use mp_gate::Gate;
use mp_job::Job;
use mp_model::{Naming, Query};
use mp_outside::Sink;
use mp_threads_crew::{Crew, EndedStates, states_told_by};
use mp_threads_member::RunPlan;
use std::alloc::{AllocError, Global};
use std::sync::Wait;
use std::thread::Threads;

/// Runs a whole job by threads and by a plan, as [`run_workers`] does, and gives what each worker has done and what the
/// bins have at the job's end, just before its stop time or after all where it has none; of a paced run too. The query's
/// last stage gives rows alone. No steps are given. The refusals are those of `run_workers`; where there is no memory for
/// what is given, the whole answer is written.
pub fn run_with_states<
    Q: Query + Send,
    J: Naming + Send + Sync,
    T: Threads + Wait + Sync,
    G: Gate + Sync,
    S: Sink,
>(
    rt: &T,
    alloc: Global,
    job: &Job<Q>,
    plan: RunPlan,
    gate: &G,
    sink: &mut S,
) -> Result<EndedStates<Q::Cell>, Cause>
    requires run { MayRun (table_of Q.facts J.job) job.now J.job plan.paced }
    requires depth { 0 < plan.depth }
    ensures tallies { IfOk result (λ run. AreTalliesOf (table_of Q.facts job.now) job.now run.tallies.items) }
    ensures states { IfOk result (λ run. AreAllStates (table_of Q.facts job.now) job.now (map (λ own. own.items) run.states.items)) }
    ensures leaves { let q = table_of Q.facts J.job in
        RunLeaves q J.job S.written S.faults S.frame result sink.old sink.new }
{
    let Ok(crew) = Crew::<Q, J, &T>::open_by(rt, alloc, job, plan) else {
        return Err(Cause::Memory);
    };
    let workers = run_workers(rt, alloc, crew, gate, sink)?;
    match states_told_by(alloc, job, workers) {
        Ok(ended) => Ok(ended),
        Err(AllocError) => Err(Cause::Memory),
    }
}
