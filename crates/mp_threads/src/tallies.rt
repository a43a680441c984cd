//! A whole run by threads, with what each worker has done.
ghost use Rattle.std.specs.Prelude.{◌≡◌, ◌<◌, [], IfOk, false, map, true};
ghost use Rattle.mp_model.specs.Tables.{table_of};
ghost use Rattle.mp_outline.specs.JobOutline.{outline_of};
ghost use Rattle.mp_tally.specs.Tallies.{AreTalliesOf};
ghost use Rattle.mp_threads_crew.specs.Journals.{TellFullLogs};
ghost use Rattle.mp_answer_laws.specs.Runs.{RunLeaves};
ghost use Rattle.mp_threads_member.specs.Below.{MayRun};

use crate::run_workers;
use mp_board::Cause;
use mp_gate::Gate;
use mp_job::Job;
use mp_model::{Naming, Query};
use mp_outside::Sink;
use mp_threads_crew::{Crew, Ended, told_by};
use mp_threads_member::RunPlan;
use std::alloc::{AllocError, Global};
use std::sync::Wait;
use std::thread::Threads;

/// Runs a whole job by threads and by a plan, as [`run_workers`] does, and tells what each worker has done, by the
/// workers' numbers: the job's tallies, paced or not, and where the plan keeps steps those that each kept. The query's
/// last stage gives rows alone. The refusals are those of `run_workers`; where there is no memory for the tallies or for
/// the list of what was kept, the whole answer is written.
pub fn run_with_tallies<
    Q: Query + Send,
    J: Naming + Send + Sync,
    T: Threads + Wait + Sync,
    G: Gate + Sync,
    S: Sink,
>(
    rt: &T,
    alloc: Global,
    job: &Job<Q>,
    plan: RunPlan,
    gate: &G,
    sink: &mut S,
) -> Result<Ended, Cause>
    requires run { MayRun (table_of Q.facts J.job) job.now J.job plan.paced }
    requires depth { 0 < plan.depth }
    ensures tallies { IfOk result (λ run. AreTalliesOf (table_of Q.facts job.now) job.now run.tallies.items) }
    ensures kept { plan.keeps ≡ true → IfOk result (λ run.
        TellFullLogs (outline_of (table_of Q.facts J.job) J.job) (map (λ v. v.items) run.kept.items)) }
    ensures none_kept { plan.keeps ≡ false → IfOk result (λ run. run.kept.items ≡ []) }
    ensures leaves { let q = table_of Q.facts J.job in
        RunLeaves q J.job S.written S.faults S.frame result sink.old sink.new }
{
    let Ok(crew) = Crew::<Q, J, &T>::open_by(rt, alloc, job, plan) else {
        return Err(Cause::Memory);
    };
    let workers = run_workers(rt, alloc, crew, gate, sink)?;
    match told_by(alloc, job, workers, plan.keeps) {
        Ok(ended) => Ok(ended),
        Err(AllocError) => Err(Cause::Memory),
    }
}
