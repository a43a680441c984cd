//! The jobs that a command asks for.
ghost use Rattle.std.specs.Prelude.{◌≡◌, ◌≤◌, ◌⊎◌, IfErr, IfOk, length};
ghost use Rattle.mp_checkpoint_laws.specs.Files.{IsFileOf};
ghost use Rattle.mp_control.specs.Settings.{settings_in};
ghost use Rattle.mp_job.specs.Legal.{ControlsFit, FirstsFit, ShapeIsLegal};
ghost use Rattle.mp_model.specs.Legal.{EventsAreLegal};
ghost use Rattle.mp_model.specs.Rules.{numbers_with};
ghost use Rattle.mp_model.specs.Tables.{table_of};
ghost use Rattle.mp_names.specs.Limits.{greatest_time, most_bytes, most_workers};
ghost use Rattle.mp_opening.specs.Checkpoints.{CheckpointOf};
ghost use Rattle.mp_words.specs.Limits.{IsBinCount, IsPositiveUpTo};
ghost use Rattle.mp_words.specs.Values.{From};
ghost use Rattle.mp_command.specs.Config.{SettingsFit, job_with, shape_with};
ghost use Rattle.mp_command_files.specs.Outcome.{BadCheckpoint, NoMemory};
ghost use Rattle.mp_command_files.specs.Refused.{outcome_of};
ghost use Rattle.mp_command.specs.Spans.{IsRefutedBy, format_by, resumed_from, stopped_at};

use crate::reading::JobParts;
use mp_checkpoint::{CheckpointRefused, read_checkpoint};
use mp_command_files::Refusal;
use mp_control::Settings;
use mp_job::{Job, JobInputs, Shape, Time};
use mp_model::{Event, Query};
use mp_saved::Saved;
use std::alloc::{AllocError, Global};

/// The job of a query, whose rules have their given values, with the values that were read; of the events, first owners and control
/// records that were read, for so many workers and bins. `AllocError`: no memory.
pub fn job_for<Q: Query>(
    alloc: Global,
    given: Q,
    workers: u32,
    bins: u32,
    parts: JobParts,
) -> Result<Job<Q>, AllocError>
    requires workers { IsPositiveUpTo most_workers workers }
    requires bins { IsBinCount bins }
    requires events { EventsAreLegal parts.events.items }
    requires settings { let stages = (Q.facts (Q.values given)).stages in
        SettingsFit (shape_with workers bins stages) (Q.rules given) (settings_in parts.settings) }
    ensures job { let stages = (Q.facts (Q.values given)).stages in
        let numbers = numbers_with (Q.rules given) (Q.values given) parts.settings.values in
        IfOk result (λ job. job ≡ job_with (shape_with workers bins stages) numbers parts.events.items (settings_in parts.settings)) }
    ensures table { let numbers = numbers_with (Q.rules given) (Q.values given) parts.settings.values in
        IfOk result (λ job. table_of Q.facts job ≡ Q.facts numbers) }
{
    let JobPlan {
        query,
        inputs,
        shape,
    } = job_plan(given, workers, bins, parts.events, parts.settings);
    let JobInputs {
        events,
        controls,
        firsts,
    } = inputs;
    Job::with_firsts(alloc, query, events, controls, shape, firsts)
}

/// The same job, where it stops at a time, from 1 to 2^47. `AllocError`: no memory.
pub fn job_until<Q: Query>(
    alloc: Global,
    given: Q,
    workers: u32,
    bins: u32,
    parts: JobParts,
    time: Time,
) -> Result<Job<Q>, AllocError>
    requires workers { IsPositiveUpTo most_workers workers }
    requires bins { IsBinCount bins }
    requires events { EventsAreLegal parts.events.items }
    requires settings { let stages = (Q.facts (Q.values given)).stages in
        SettingsFit (shape_with workers bins stages) (Q.rules given) (settings_in parts.settings) }
    requires time { IsPositiveUpTo greatest_time time }
    ensures { let stages = (Q.facts (Q.values given)).stages in
        let numbers = numbers_with (Q.rules given) (Q.values given) parts.settings.values in
        let job = job_with (shape_with workers bins stages) numbers parts.events.items (settings_in parts.settings) in
        IfOk result (λ stopped. stopped ≡ stopped_at time job) }
{
    let JobPlan {
        query,
        inputs,
        shape,
    } = job_plan(given, workers, bins, parts.events, parts.settings);
    Job::until(alloc, query, inputs, shape, time)
}

/// The same job, where it goes on from the checkpoint whose file, of this name, has the bytes that were read. `BadCheckpoint` comes
/// exactly where they are the file of no checkpoint of the query with the values that were read; `NoMemory`, the only other refusal: no
/// memory.
pub fn job_after<'a, Q: Saved>(
    alloc: Global,
    given: Q,
    workers: u32,
    bins: u32,
    parts: JobParts,
    name: &'a str,
) -> Result<Job<Q>, Refusal<'a>>
    requires workers { IsPositiveUpTo most_workers workers }
    requires bins { IsBinCount bins }
    requires events { EventsAreLegal parts.events.items }
    requires settings { let stages = (Q.facts (Q.values given)).stages in
        SettingsFit (shape_with workers bins stages) (Q.rules given) (settings_in parts.settings) }
    requires few { length parts.checkpoint.items ≤ most_bytes }
    ensures job { let stages = (Q.facts (Q.values given)).stages in
        let numbers = numbers_with (Q.rules given) (Q.values given) parts.settings.values in
        let job = job_with (shape_with workers bins stages) numbers parts.events.items (settings_in parts.settings) in
        IfOk result (λ resumed. (c : CheckpointOf Q.Cell)
        × IsFileOf (format_by Q.NUMBER Q.text_of Q.facts numbers) c parts.checkpoint.items
        × (resumed ≡ resumed_from Q.text_of c job)) }
    ensures refused { let numbers = numbers_with (Q.rules given) (Q.values given) parts.settings.values in
        IfErr result (λ r. (outcome_of r ≡ NoMemory) ⊎ ((outcome_of r ≡ BadCheckpoint name.now)
        × IsRefutedBy Q.NUMBER Q.text_of Q.facts numbers (From name.now) parts.checkpoint.items)) }
{
    let JobPlan {
        query,
        inputs,
        shape,
    } = job_plan(given, workers, bins, parts.events, parts.settings);
    match read_checkpoint(alloc, parts.checkpoint.as_slice(), &query) {
        Ok(checkpoint) => Ok(Job::resume(alloc, query, inputs, shape, checkpoint)?),
        Err(CheckpointRefused::BadCheckpoint) => Err(Refusal::BadCheckpoint(name)),
        Err(CheckpointRefused::NoMemory) => Err(Refusal::NoMemory),
    }
}

/// What a job is made of.
#[derive(Drop)]
struct JobPlan<Q: Query> {
    query: Q,
    inputs: JobInputs,
    shape: Shape,
}

/// The query with the values that were read, what was read, and the shape with the query's stages.
fn job_plan<Q: Query>(
    given: Q,
    workers: u32,
    bins: u32,
    events: Vec<Event>,
    settings: Settings,
) -> JobPlan<Q>
    requires workers { IsPositiveUpTo most_workers workers }
    requires bins { IsBinCount bins }
    requires settings { let stages = (Q.facts (Q.values given)).stages in
        SettingsFit (shape_with workers bins stages) (Q.rules given) (settings_in settings) }
    ensures query { Q.values result.query ≡ numbers_with (Q.rules given) (Q.values given) settings.values }
    ensures events { result.inputs.events.items ≡ events.items }
    ensures controls { result.inputs.controls.items ≡ settings.controls.items }
    ensures firsts { result.inputs.firsts.items ≡ settings.firsts.items }
    ensures shape { result.shape ≡ shape_with workers bins (Q.facts (Q.values given)).stages }

    ensures stages { result.shape.stages ≡ (Q.facts (Q.values result.query)).stages }
    ensures legal { ShapeIsLegal result.shape }
    ensures controls_fit { ControlsFit result.shape result.inputs.controls.items }
    ensures firsts_fit { FirstsFit result.shape result.inputs.firsts.items }
{
    let Settings {
        firsts,
        values,
        controls,
    } = settings;
    let query = given.with(values.as_slice());
    let shape = Shape {
        workers,
        bins,
        stages: query.stages(),
    };
    let inputs = JobInputs {
        events,
        controls,
        firsts,
    };
    JobPlan {
        query,
        inputs,
        shape,
    }
}
