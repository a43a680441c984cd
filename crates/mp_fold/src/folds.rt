//! The fold of one key: its cell, group after group, and what the groups give.
ghost use Rattle.std.specs.Prelude.{◌≡◌, ◌≤◌, ◌++◌, All, OnOk};
ghost use Rattle.std.specs.List.Sorted.{IsNonDecreasingBy};
ghost use Rattle.mp_names.specs.Limits.{last_time};
ghost use Rattle.mp_model.specs.Folds.{FitsAlong, entries_of, outputs_along, outputs_at};

use crate::runs::{run_of_posts, run_of_time};
use crate::timeline::{first_time, posted_times};
use mp_model::{Group, Output, Query, Rec, Tag, Time, Value};
use std::alloc::{AllocError, Global};

/// Adds what the groups of a key give in a stage, whose records these are, by time. `AllocError`: no memory.
pub fn fold_key<Q: Query>(
    alloc: Global,
    query: &Q,
    stage: u32,
    key: u64,
    recs: &[Rec],
    outputs: &mut Vec<Output>,
) -> Result<(), AllocError>
    requires ordered { IsNonDecreasingBy (λ r. r.time) recs.now }
    requires times { All (λ r. r.time ≤ last_time) recs.now }
    requires fits { let q = Q.facts (Q.values query.now) in
        FitsAlong q stage (q.opening stage key) (entries_of q stage key recs.now) }
    ensures { let q = Q.facts (Q.values query.now) in
        OnOk result (outputs.new.items
        ≡ outputs.old.items ++ outputs_along q stage (q.opening stage key) (entries_of q stage key recs.now)) }
{
    let posted = posted_times(alloc, query, stage, recs)?;
    let mut cell = query.fresh(alloc, stage);
    let mut recs = recs;
    let mut posts = posted.as_slice();
    while let Some(time) = first_time(recs, posts) {
        let (now, later) = recs.split_at(run_of_time(recs, time));
        let (wakes, later_posts) = posts.split_at(run_of_posts(posts, time));
        let group = Group::new(time, key, !wakes.is_empty(), now);
        let values = query.step(alloc, stage, &mut cell, &group)?;
        push_outputs(time, key, values, outputs)?;
        recs = later;
        posts = later_posts;
    }
    Ok(())
}

/// Adds the outputs of the group of a key at a time, each with its place among them.
fn push_outputs(
    time: Time,
    key: u64,
    values: Vec<Value>,
    outputs: &mut Vec<Output>,
) -> Result<(), AllocError>
    ensures { OnOk result (outputs.new.items ≡ outputs.old.items ++ outputs_at time key values.items) }
{
    let mut place = 0;
    for value in values {
        outputs.push(Output {
            time,
            tag: Tag(key, place),
            value,
        })?;
        place += 1;
    }
    Ok(())
}
