//! The workers of a run.
ghost use Rattle.std.specs.Prelude.{◌≡◌, ℕ, All, IfOk, Some, length, replicate, slice_get};
ghost use Rattle.mp_names.specs.Logs.{empty_log};
ghost use Rattle.mp_board.specs.Boards.{ShowsFrontiers};
ghost use Rattle.mp_model.specs.Tables.{table_of};
ghost use Rattle.mp_outline.specs.JobOutline.{outline_of};
ghost use Rattle.mp_worker_refinement.specs.Laws.{IsNewWorker};
ghost use Rattle.mp_worker_refinement.specs.State.{WorkerState};
ghost use Rattle.mp_turns.specs.Keeping.{no_steps};
ghost use Rattle.mp_worker.specs.Plans.{MayRun};

use crate::{RunPlan, Worker};
use mp_job::Job;
use mp_model::{Naming, Query};
use mp_stamps::Seen;
use std::alloc::{AllocError, Global};

/// A worker for each number, which has done nothing, of a run of the job by this plan: paced or not, and keeping their steps or
/// not. Each has seen what the board shows on which every worker posted its empty log. `AllocError`: no memory.
pub fn new_workers<'a, Q: Query, J: Naming>(
    alloc: Global,
    job: &'a Job<Q>,
    seen: Seen,
    plan: RunPlan,
) -> Result<Vec<Worker<'a, Q, J>>, AllocError>
    requires run { MayRun (table_of Q.facts J.job) job.now J.job plan.paced }
    requires version { seen.version ≡ 0 }
    requires opening { let o = outline_of (table_of Q.facts J.job) J.job in
        ShowsFrontiers o (replicate J.job.shape.workers empty_log) seen }
    ensures all { IfOk result (λ workers. length workers.items ≡ J.job.shape.workers) }
    ensures new { let o = outline_of (table_of Q.facts J.job) J.job in
        IfOk result (λ workers. (w : ℕ) (s : WorkerState)
        → slice_get workers.items w ≡ Some s → IsNewWorker o w s) }
    ensures keeps { IfOk result (λ workers. All (λ (s : WorkerState). s.steps ≡ no_steps plan.keeps) workers.items) }
{
    let count = job.shape().workers;
    let mut workers = Vec::with_capacity(alloc, count as usize)?;
    for number in 0..count {
        workers.push_reserved(Worker::begin(alloc, job, number, seen, plan.paced, plan.keeps)?);
    }
    Ok(workers)
}
