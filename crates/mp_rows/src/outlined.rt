//! Which outline a log or a board is of.
use mp_job::Query;
use mp_model::Naming;
use std::marker::PhantomData;

/// What has an outline of a job, in contracts alone.
pub trait Outlined {
    ghost use Rattle.mp_names.specs.Outlines.{Outline};

    ghost outline: { Outline };
}

/// The outline of the job J of the query Q.
pub struct OutlineOf<Q: Query, J: Naming> {
    of: PhantomData<(Q, J)>,
}

impl<Q: Query, J: Naming> Outlined for OutlineOf<Q, J> {
    ghost use Rattle.mp_outline.specs.JobOutline.{outline_of};
    ghost use Rattle.mp_model.specs.Tables.{table_of};

    ghost outline = { outline_of (table_of Q.facts J.job) J.job };
}
