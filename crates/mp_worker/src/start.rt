//! How a worker begins.
ghost use Rattle.std.specs.Prelude.{◌≡◌, ◌<◌, true, false, IfOk, None, replicate};
ghost use Rattle.mp_names.specs.Logs.{empty_log};
ghost use Rattle.mp_job.specs.Runs.{IsRunOf};
ghost use Rattle.mp_board.specs.Boards.{ShowsFrontiers};
ghost use Rattle.mp_outline.specs.JobOutline.{outline_of};
ghost use Rattle.mp_output.specs.Rows.{GivesRows};
ghost use Rattle.mp_model.specs.Tables.{table_of};
ghost use Rattle.mp_turns.specs.Keeping.{no_steps};

use crate::Worker;
use mp_job::Job;
use mp_model::{Naming, Query};
use mp_stamps::Seen;
use mp_turns::kept_at_first;
use mp_worker_sends::Parts;
use std::alloc::{AllocError, Global};

impl<'a, Q: Query, J: Naming> Worker<'a, Q, J> {
    /// A worker that has done nothing, of a run of the job that isn't paced. It has seen what the board shows on which every
    /// worker posted its empty log. `AllocError`: no memory.
    pub fn new(
        alloc: Global,
        job: &'a Job<Q>,
        number: u32,
        seen: Seen,
    ) -> Result<Worker<'a, Q, J>, AllocError>
        requires job { IsRunOf job.now J.job }
        requires pace { J.job.paced ≡ false }
        requires number { number < J.job.shape.workers }
        requires rows { GivesRows (table_of Q.facts J.job) }
        requires opening { ShowsFrontiers (outline_of (table_of Q.facts J.job) J.job) (replicate J.job.shape.workers empty_log) seen }
        ensures number { IfOk result (λ worker. worker.number ≡ number) }
        ensures log { IfOk result (λ worker. worker.log ≡ empty_log) }
        ensures posted { IfOk result (λ worker. worker.posted ≡ empty_log) }
        ensures seen { IfOk result (λ worker. worker.seen ≡ seen) }
        ensures steps { IfOk result (λ worker. worker.steps ≡ None) }
    {
        let keeps = false;
        let paced = false;
        Worker::begin(alloc, job, number, seen, paced, keeps)
    }

    /// The same, of a paced run: worker 0 sends the control records of a time once the moves of all earlier times are over.
    /// `AllocError`: no memory.
    pub fn new_paced(
        alloc: Global,
        job: &'a Job<Q>,
        number: u32,
        seen: Seen,
    ) -> Result<Worker<'a, Q, J>, AllocError>
        requires job { IsRunOf job.now J.job }
        requires pace { J.job.paced ≡ true }
        requires number { number < J.job.shape.workers }
        requires rows { GivesRows (table_of Q.facts J.job) }
        requires opening { ShowsFrontiers (outline_of (table_of Q.facts J.job) J.job) (replicate J.job.shape.workers empty_log) seen }
        ensures number { IfOk result (λ worker. worker.number ≡ number) }
        ensures log { IfOk result (λ worker. worker.log ≡ empty_log) }
        ensures posted { IfOk result (λ worker. worker.posted ≡ empty_log) }
        ensures seen { IfOk result (λ worker. worker.seen ≡ seen) }
        ensures steps { IfOk result (λ worker. worker.steps ≡ None) }
    {
        let keeps = false;
        let paced = true;
        Worker::begin(alloc, job, number, seen, paced, keeps)
    }

    // A worker that has done nothing, of a run of the job that is paced or isn't, and that keeps its steps or doesn't.
    pub(crate) fn begin(
        alloc: Global,
        job: &'a Job<Q>,
        number: u32,
        seen: Seen,
        paced: bool,
        keeps: bool,
    ) -> Result<Worker<'a, Q, J>, AllocError>
        requires job { IsRunOf job.now J.job }
        requires pace { J.job.paced ≡ paced }
        requires number { number < J.job.shape.workers }
        requires rows { GivesRows (table_of Q.facts J.job) }
        requires opening { ShowsFrontiers (outline_of (table_of Q.facts J.job) J.job) (replicate J.job.shape.workers empty_log) seen }
        ensures number { IfOk result (λ worker. worker.number ≡ number) }
        ensures log { IfOk result (λ worker. worker.log ≡ empty_log) }
        ensures posted { IfOk result (λ worker. worker.posted ≡ empty_log) }
        ensures seen { IfOk result (λ worker. worker.seen ≡ seen) }
        ensures steps { IfOk result (λ worker. worker.steps ≡ no_steps keeps) }
    {
        let parts = Parts::new(alloc, job, number, seen, paced)?;
        let kept = kept_at_first(alloc, keeps);
        Ok(Worker { parts, kept })
    }
}
