//! What a worker tells of what it has done.
ghost use Rattle.std.specs.Prelude.{◌≡◌, All, IfOk, length, map};
ghost use Rattle.mp_model.specs.Tables.{table_of};
ghost use Rattle.mp_worker_sends.specs.Below.{MovedHasKeys, name_of_moved, sent_packets};

use crate::Worker;
use mp_model::{Naming, Query};
use mp_worker_sends::Tally;
use std::alloc::{AllocError, Global};

impl<'a, Q: Query, J: Naming> Worker<'a, Q, J> {
    /// What the worker has done so far. `AllocError`: no memory.
    pub fn tally(&self, alloc: Global) -> Result<Tally, AllocError>
        ensures groups { IfOk result (λ t. t.groups ≡ length self.now.log.applied) }
        ensures moved { IfOk result (λ t. map name_of_moved t.moved.items ≡ sent_packets J.job.shape.stages self.now.log) }
        ensures keys { IfOk result (λ t. All (MovedHasKeys (table_of Q.facts J.job) J.job) t.moved.items) }
    {
        self.parts.tally(alloc)
    }
}
