//! How a worker knows that all is over.
ghost use Rattle.std.specs.Prelude.{◌↔◌, IsTrue};
ghost use Rattle.mp_outline.specs.JobOutline.{outline_of};
ghost use Rattle.mp_worker_refinement.specs.SystemState.{KnowsTheEnd};
ghost use Rattle.mp_model.specs.Tables.{table_of};

use crate::Worker;
use mp_model::{Naming, Query};
use mp_turns::all_have_ended;

impl<'a, Q: Query, J: Naming> Worker<'a, Q, J> {
    /// Whether the worker knows that all is over: each frontier that it saw has passed the last time before the job's stop
    /// time, or is `Done` where the job has none, and on worker 0 each answer row that it took is written.
    pub fn is_finished(&self) -> bool
        ensures { IsTrue result ↔ KnowsTheEnd (outline_of (table_of Q.facts J.job) J.job) self.now }
    {
        let parts = &self.parts;
        let stages = parts.shape().stages;
        all_have_ended(parts.seen(), parts.stop_time(), stages)
            && (parts.number() != 0 || parts.all_are_written())
    }
}
