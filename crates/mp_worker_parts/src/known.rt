//! What the parts tell of their worker.
ghost use Rattle.std.specs.Prelude.{◌≡◌, ◌<◌, ◌↔◌, All, IfOk, IsTrue, None, length, map};
ghost use Rattle.mp_names.specs.Logs.{LogIsLegal};
ghost use Rattle.mp_names.specs.Outlines.{OutlineIsSound};
ghost use Rattle.mp_stamps.specs.Seen.{SeenIsDone};
ghost use Rattle.mp_model.specs.Tables.{table_of};
ghost use Rattle.mp_outline.specs.JobOutline.{outline_of};
ghost use Rattle.mp_output.specs.Holding.{AllAreWritten};
ghost use Rattle.mp_tally.specs.Tallies.{MovedHasKeys, name_of_moved, sent_packets};

use crate::Parts;
use mp_model::{Naming, Query, Time};
use mp_names::Shape;
use mp_stamps::Seen;
use mp_tally::{Tally, moved_so_far};
use std::alloc::{AllocError, Global};

impl<'a, Q: Query, J: Naming> Parts<'a, Q, J> {
    /// The number of the worker that these are the parts of. The parts keep no steps.
    pub fn number(&self) -> u32
        ensures is { result ≡ self.now.worker.number }
        ensures inside { self.now.worker.number < J.job.shape.workers }
        ensures steps { self.now.worker.steps ≡ None }
    {
        self.log.worker()
    }

    /// How many workers, bins and stages the job has.
    pub fn shape(&self) -> Shape
        ensures { result ≡ J.job.shape }
    {
        self.job.shape()
    }

    /// The job's stop time, `None` where it has none: of groups only those before it are applied.
    pub fn stop_time(&self) -> Option<Time>
        ensures { result ≡ J.job.until }
    {
        self.job.stop_time()
    }

    /// What the worker saw at its last exchange.
    pub fn seen(&self) -> &Seen
        ensures { result.now ≡ self.now.worker.seen }
    {
        &self.seen
    }

    /// Whether each answer row that the worker took is written, as where it took none.
    pub fn all_are_written(&self) -> bool
        ensures { IsTrue result ↔ AllAreWritten self.now.worker.log }
    {
        self.rows.is_empty()
    }

    /// What the worker has done so far. `AllocError`: no memory.
    pub fn tally(&self, alloc: Global) -> Result<Tally, AllocError>
        ensures groups { IfOk result (λ t. t.groups ≡ length self.now.worker.log.applied) }
        ensures moved { IfOk result (λ t. map name_of_moved t.moved.items ≡ sent_packets J.job.shape.stages self.now.worker.log) }
        ensures keys { IfOk result (λ t. All (MovedHasKeys (table_of Q.facts J.job) J.job) t.moved.items) }
    {
        let groups = self.log.applied();
        let moved = moved_so_far(alloc, self.movers.as_slice())?;
        Ok(Tally { groups, moved })
    }

    /// Does nothing. What is known of the worker, whatever others have done: its log is legal, and all that the frontiers
    /// that it saw have passed is done in it.
    pub fn log_is_known(&self)
        ensures inside { self.now.worker.number < J.job.shape.workers }
        ensures sound { OutlineIsSound (outline_of (table_of Q.facts J.job) J.job) }
        ensures legal { let o = outline_of (table_of Q.facts J.job) J.job in
            LogIsLegal o self.now.worker.number self.now.worker.log }
        ensures done { let o = outline_of (table_of Q.facts J.job) J.job in
            SeenIsDone o self.now.worker.number self.now.worker.log self.now.worker.seen }
    {
        let _ = &self.log;
    }
}
