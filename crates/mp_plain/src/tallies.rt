//! What the workers tell of what they have done.
ghost use Rattle.std.specs.Prelude.{IfOk};
ghost use Rattle.mp_model.specs.Tables.{table_of};
ghost use Rattle.mp_outline.specs.JobOutline.{outline_of};
ghost use Rattle.mp_tally.specs.Tallies.{AreTalliesOf};
ghost use Rattle.mp_plain.specs.Driven.{AllKnowTheEnd, AreComplete};
ghost use Rattle.mp_plain.specs.Told.{TellLogs};

use crate::Plain;
use mp_model::{Naming, Query};
use mp_tally::Tally;
use std::alloc::{AllocError, Global};

impl<'a, Q: Query, J: Naming> Plain<'a, Q, J> {
    /// What each worker has done so far, by the workers' numbers. Where all is over, which comes before each
    /// worker knows it, these are the job's tallies. `AllocError`: no memory.
    pub fn tallies(&self, alloc: Global) -> Result<Vec<Tally>, AllocError>
        ensures told { let q = table_of Q.facts J.job in
            IfOk result (λ tallies. TellLogs q J.job self.now.state.workers tallies.items) }
        ensures at_the_end { let q = table_of Q.facts J.job in AllKnowTheEnd (outline_of q J.job) self.now.state
            → IfOk result (λ tallies. AreTalliesOf q J.job tallies.items) }
        ensures complete { let q = table_of Q.facts J.job in AreComplete (outline_of q J.job) self.now.state
            → IfOk result (λ tallies. AreTalliesOf q J.job tallies.items) }
    {
        let mut tallies = Vec::with_capacity(alloc, self.workers.len())?;
        for worker in &self.workers {
            tallies.push_reserved(worker.tally(alloc)?);
        }
        Ok(tallies)
    }
}
