//! The fold of a job's events, stage by stage.
ghost use Rattle.std.specs.Prelude.{◌≡◌, IfOk};
ghost use Rattle.mp_model.specs.Legal.{EventsAreLegal};
ghost use Rattle.mp_job_lists.specs.Folded.{IsFolded};

use crate::names::record_names;
use crate::posts::Posts;
use mp_fold::{input_records, output_records, stage_outputs};
use mp_model::{Event, Output, Query};
use mp_names::Name;
use std::alloc::{AllocError, Global};

/// What a query makes of events.
#[derive(Drop)]
pub struct Folded {
    /// The names of the records of each stage, in their order.
    pub records: Vec<Vec<Name>>,
    /// What each record of the first stage posts.
    pub posts: Posts,
    /// The answer rows, in the order of the fold.
    pub rows: Vec<Output>,
}

/// Folds events, each stage once. `AllocError`: no memory.
pub fn fold<Q: Query>(alloc: Global, query: &Q, events: &[Event]) -> Result<Folded, AllocError>
    requires { EventsAreLegal events.now }
    ensures { IfOk result (λ folded. IsFolded (Q.facts (Q.values query.now)) events.now folded) }
{
    let last = query.stages() - 1;
    let mut recs = input_records(alloc, query, events)?;
    let posts = Posts::of(alloc, query, recs.as_slice())?;
    let mut records = Vec::new(alloc);
    for stage in 0..last {
        records.push(record_names(alloc, stage, recs.as_slice())?)?;
        let outputs = stage_outputs(alloc, query, stage, recs)?;
        recs = output_records(alloc, query, stage + 1, outputs)?;
    }
    records.push(record_names(alloc, last, recs.as_slice())?)?;
    let rows = stage_outputs(alloc, query, last, recs)?;
    Ok(Folded {
        records,
        posts,
        rows,
    })
}
