//! The records that events and outputs make.
ghost use Rattle.std.specs.Prelude.{◌≡◌, ◌≤◌, ◌++◌, All, IfOk, OnOk};
ghost use Rattle.std.specs.List.{filter_map};
ghost use Rattle.std.specs.Option.{option_to_list};
ghost use Rattle.mp_names.specs.Limits.{last_time};
ghost use Rattle.mp_model.specs.Stages.{input_records, record_of, record_of_output};

use mp_model::{Event, Output, Query, Rec, Tag};
use std::alloc::{AllocError, Global};

/// The records that the events make in stage 0, by the index of their event. `AllocError`: no memory.
pub fn input_records<Q: Query>(
    alloc: Global,
    query: &Q,
    events: &[Event],
) -> Result<Vec<Rec>, AllocError>
    requires { All (λ e. e.time ≤ last_time) events.now }
    ensures { IfOk result (λ v. v.items ≡ input_records (Q.facts (Q.values query.now)) events.now) }
{
    let mut recs = Vec::new(alloc);
    for (index, event) in events.iter().enumerate() {
        push_record(query, index as u64, event, &mut recs)?;
    }
    Ok(recs)
}

/// Adds the record of the event of this index, if its value has a key in stage 0.
fn push_record<Q: Query>(
    query: &Q,
    index: u64,
    event: &Event,
    recs: &mut Vec<Rec>,
) -> Result<(), AllocError>
    requires { event.now.time ≤ last_time }
    ensures { OnOk result (recs.new.items
        ≡ recs.old.items ++ option_to_list (record_of (Q.facts (Q.values query.now)) index event.now)) }
{
    match query.key(0, event.time, &event.value) {
        Some(key) => {
            recs.push(Rec {
                time: event.time,
                key,
                tag: Tag(0, index),
                value: event.value.clone()?,
            })?;
            Ok(())
        }
        None => Ok(()),
    }
}

/// The records that the outputs of the stage before make in a later stage. `AllocError`: no memory.
pub fn output_records<Q: Query>(
    alloc: Global,
    query: &Q,
    stage: u32,
    outputs: Vec<Output>,
) -> Result<Vec<Rec>, AllocError>
    requires { All (λ o. o.time ≤ last_time) outputs.items }
    ensures { IfOk result (λ v. v.items
        ≡ filter_map (record_of_output (Q.facts (Q.values query.now)) stage) outputs.items) }
{
    let mut recs = Vec::new(alloc);
    for output in outputs {
        push_output_record(query, stage, output, &mut recs)?;
    }
    Ok(recs)
}

/// Adds the record of an output, if its value has a key in this stage.
fn push_output_record<Q: Query>(
    query: &Q,
    stage: u32,
    output: Output,
    recs: &mut Vec<Rec>,
) -> Result<(), AllocError>
    requires { output.time ≤ last_time }
    ensures { OnOk result (recs.new.items
        ≡ recs.old.items ++ option_to_list (record_of_output (Q.facts (Q.values query.now)) stage output)) }
{
    let Output { time, tag, value } = output;
    if let Some(key) = query.key(stage, time, &value) {
        recs.push(Rec {
            time,
            key,
            tag,
            value,
        })?;
    }
    Ok(())
}
