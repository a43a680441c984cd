//! How a worker keeps its steps, and what they tell.
ghost use Rattle.std.specs.Prelude.{◌≡◌, List, Some, [], is_some};
ghost use Rattle.std.specs.Option.{unwrap_or};
ghost use Rattle.mp_names.specs.declared.kinds.Kept.{Kept};
ghost use Rattle.mp_names.specs.Logs.{empty_log};
ghost use Rattle.mp_outline.specs.JobOutline.{outline_of};
ghost use Rattle.mp_journal_laws.specs.Telling.{KeptTellFullLog, KeptTellLog};
ghost use Rattle.mp_worker_refinement.specs.SystemState.{KnowsTheEnd};
ghost use Rattle.mp_model.specs.Tables.{table_of};

use crate::Worker;
use mp_journal_laws::full_logs_are_told;
use mp_model::{Naming, Query};
use mp_names::Kept;

impl<'a, Q: Query, J: Naming> Worker<'a, Q, J> {
    /// From now on the worker keeps each step that it makes. It has made none. It takes no memory; each step then takes some.
    pub fn keep_steps(&mut self)
        requires log { self.old.log ≡ empty_log }
        requires version { self.old.seen.version ≡ 0 }
        ensures { self.new ≡ record self.old { steps = Some [] } }
    {
        self.kept = Some(Vec::new(self.parts.alloc));
    }

    /// Whether it keeps its steps.
    pub fn keeps_steps(&self) -> bool
        ensures { result ≡ is_some self.now.steps }
    {
        self.kept.is_some()
    }

    /// The steps that it kept, in their order; none where it keeps none.
    pub fn steps(&self) -> &[Kept]
        ensures { result.now ≡ unwrap_or self.now.steps [] }
    {
        match &self.kept {
            Some(kept) => kept.as_slice(),
            None => &[],
        }
    }

    /// Does nothing. What is known of the steps of each worker that keeps them: they are those that filled its log, and so, where
    /// it knows that all is over, those that it has to make.
    pub fn steps_are_known(&self)
        ensures told { (kept : List Kept) → self.now.steps ≡ Some kept → KeptTellLog self.now.log kept }
        ensures full { let o = outline_of (table_of Q.facts J.job) J.job in
            (kept : List Kept) → self.now.steps ≡ Some kept → KnowsTheEnd o self.now → KeptTellFullLog o self.now.number kept }
    {
        self.parts.log_is_known();
        full_logs_are_told();
    }
}
