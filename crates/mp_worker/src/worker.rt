//! A worker.
ghost use Rattle.std.specs.Prelude.{◌≡◌, [], IfOk};
ghost use Rattle.std.specs.Option.{unwrap_or};
ghost use Rattle.mp_model.specs.Tables.{table_of};
ghost use Rattle.mp_outline.specs.JobOutline.{outline_of};
ghost use Rattle.mp_msg.specs.LastStates.{AreStatesOf};
ghost use Rattle.mp_worker_refinement.specs.SystemState.{KnowsTheEnd};

use mp_model::{Naming, Query};
use mp_msg::BinState;
use mp_names::Kept;
use mp_worker_sends::Parts;
use std::alloc::{AllocError, Global};
use std::marker::Model;

/// One worker of the job J of the query Q. Contracts see a `WorkerState`: its number, its log, the log that it posted last,
/// what it saw at its last exchange, and the steps that it made, where it keeps them. The query's last stage gives rows alone.
pub struct Worker<'a, Q: Query, J: Naming> {
    pub(crate) parts: Parts<'a, Q, J>,
    // The steps that it made, where it keeps them.
    pub(crate) kept: Option<Vec<Kept>>,
}

// By hand, so that crates above call it and don't write out the drop of each field.
impl<'a, Q: Query, J: Naming> Drop for Worker<'a, Q, J> {
    fn drop(self) {
        let Worker { parts: _, kept: _ } = self;
    }
}

impl<'a, Q: Query, J: Naming> Model for Worker<'a, Q, J> {
    ghost use Rattle.std.specs.Option.{option_map};
    ghost use Rattle.mp_worker_refinement.specs.State.{WorkerState};
    ghost use Rattle.mp_worker.specs.Keeping.{StepsTellLog, with_steps};

    ghost Value = { WorkerState };

    ghost view = { λ w. with_steps (option_map (λ kept. kept.items) w.kept) w.parts.worker };

    ghost invariant = { λ w. StepsTellLog (with_steps (option_map (λ kept. kept.items) w.kept) w.parts.worker) };
}

impl<'a, Q: Query, J: Naming> Worker<'a, Q, J> {
    /// The steps that it kept, in their order; none where it keeps none. The worker is done with.
    pub fn into_steps(self) -> Vec<Kept>
        ensures { result.items ≡ unwrap_or self.entry.steps [] }
    {
        let Worker { parts, kept } = self;
        match kept {
            Some(kept) => kept,
            None => Vec::new(parts.alloc),
        }
    }

    /// The states of the bins that the worker owns at the end of the job, each with its stage, from 0, and by stage: what
    /// each bin has just before the stop time, or after all where there is none. The worker knows that all is over.
    /// `AllocError`: no memory, and the worker is dropped.
    pub fn into_state(self, alloc: Global) -> Result<Vec<(u32, BinState<Q::Cell>)>, AllocError>
        requires finished { KnowsTheEnd (outline_of (table_of Q.facts J.job) J.job) self }
        ensures { IfOk result (λ states. AreStatesOf (table_of Q.facts J.job) J.job self.entry.number states.items) }
    {
        self.log_is_known();
        let Worker { parts, kept: _ } = self;
        parts.into_states(alloc)
    }
}
