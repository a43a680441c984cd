//! The stages, one after the other.
ghost use Rattle.std.specs.Prelude.{◌≡◌, ℕ, ◌<◌, ◌≤◌, All, IfOk};
ghost use Rattle.std.specs.List.Sorted.{IsNonDecreasingBy};
ghost use Rattle.mp_names.specs.Limits.{last_time};
ghost use Rattle.mp_model.specs.Folds.{FitsAlong, of_key, stage_outputs, timeline};
ghost use Rattle.mp_model.specs.Legal.{EventsAreLegal};
ghost use Rattle.mp_model.specs.Stages.{answer_rows, stage_records};

use crate::folds::fold_key;
use crate::records::{input_records, output_records};
use crate::runs::{in_order, run_of_key};
use mp_model::{Event, Output, Query, Rec};
use std::alloc::{AllocError, Global};

/// The outputs of the last stage, key by key. `AllocError`: no memory.
pub fn answer_rows<Q: Query>(
    alloc: Global,
    query: &Q,
    events: &[Event],
) -> Result<Vec<Output>, AllocError>
    requires { EventsAreLegal events.now }
    ensures { IfOk result (λ v. v.items ≡ answer_rows (Q.facts (Q.values query.now)) events.now) }
{
    let last = query.stages() - 1;
    let recs = stage_records(alloc, query, events, last)?;
    stage_outputs(alloc, query, last, recs)
}

/// The records of a stage, of which the first is 0: those of the events, and later those of the outputs of the stage
/// before. `AllocError`: no memory.
pub fn stage_records<Q: Query>(
    alloc: Global,
    query: &Q,
    events: &[Event],
    stage: u32,
) -> Result<Vec<Rec>, AllocError>
    requires events { EventsAreLegal events.now }
    requires stage { stage < (Q.facts (Q.values query.now)).stages }
    ensures { IfOk result (λ v. v.items
        ≡ stage_records (Q.facts (Q.values query.now)) events.now stage) }
{
    let mut recs = input_records(alloc, query, events)?;
    for before in 0..stage {
        let outputs = stage_outputs(alloc, query, before, recs)?;
        recs = output_records(alloc, query, before + 1, outputs)?;
    }
    Ok(recs)
}

/// What a stage gives of these records, key by key. No record is later than 2^47 + 43,200, and the sums and counts of each
/// key fit their types. `AllocError`: no memory.
pub fn stage_outputs<Q: Query>(
    alloc: Global,
    query: &Q,
    stage: u32,
    recs: Vec<Rec>,
) -> Result<Vec<Output>, AllocError>
    requires times { All (λ r. r.time ≤ last_time) recs.items }
    requires fits { let q = Q.facts (Q.values query.now) in
        (k : ℕ) → FitsAlong q stage (q.opening stage k) (timeline q stage k recs.items) }
    ensures { IfOk result (λ v. v.items ≡ stage_outputs (Q.facts (Q.values query.now)) stage recs.items) }
{
    let ordered = in_order(recs)?;
    fold_keys(alloc, query, stage, ordered.as_slice())
}

/// The same of records in order.
fn fold_keys<Q: Query>(
    alloc: Global,
    query: &Q,
    stage: u32,
    recs: &[Rec],
) -> Result<Vec<Output>, AllocError>
    requires by_key { IsNonDecreasingBy (λ r. r.key) recs.now }
    requires by_time { (k : ℕ) → IsNonDecreasingBy (λ r. r.time) (of_key k recs.now) }
    requires times { All (λ r. r.time ≤ last_time) recs.now }
    requires fits { let q = Q.facts (Q.values query.now) in
        (k : ℕ) → FitsAlong q stage (q.opening stage k) (timeline q stage k recs.now) }
    ensures { IfOk result (λ v. v.items ≡ stage_outputs (Q.facts (Q.values query.now)) stage recs.now) }
{
    let mut outputs = Vec::new(alloc);
    let mut recs = recs;
    while let Some(first) = recs.first() {
        let key = first.key;
        let (own, others) = recs.split_at(run_of_key(recs, key));
        fold_key(alloc, query, stage, key, own, &mut outputs)?;
        recs = others;
    }
    Ok(outputs)
}
