//! Who owns bins and groups.
ghost use Rattle.mp_outline.specs.JobOutline.{outline_of};
ghost use Rattle.mp_plain.specs.Ownership.{KeepOwnership};
ghost use Rattle.mp_model.specs.Tables.{table_of};

use crate::Plain;
use mp_model::{Naming, Query};

impl<'a, Q: Query, J: Naming> Plain<'a, Q, J> {
    /// Whatever steps were driven: each bin of each stage has exactly one holder or one packet on its way,
    /// never both, and each group is applied at most once, by its owner alone (Megaphone's handoff). A law:
    /// it does nothing.
    pub fn running_workers_keep_ownership(&self)
        ensures { KeepOwnership (outline_of (table_of Q.facts J.job) J.job) self.now.state }
    {
        // From here on the invariant is known: a run of the machine leads here.
        let _ = &self.job;
    }
}
