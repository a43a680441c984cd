//! What moves at one time, in a paced run.
ghost use Rattle.mp_outline.specs.JobOutline.{outline_of};
ghost use Rattle.mp_plain.specs.Pacing.{KeepPace};
ghost use Rattle.mp_model.specs.Tables.{table_of};

use crate::Plain;
use mp_model::{Naming, Query};

impl<'a, Q: Query, J: Naming> Plain<'a, Q, J> {
    /// Whatever steps were driven of a paced run: where a control record is sent, every packet of an earlier time is
    /// taken, and all packets on their way have one time. A law: it does nothing.
    pub fn running_moves_are_paced(&self)
        ensures { KeepPace (outline_of (table_of Q.facts J.job) J.job) self.now.state }
    {
        // From here on the invariant is known: a run of the machine leads here.
        let _ = &self.job;
    }
}
