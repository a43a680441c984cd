//! What a run writes: the answer, and then the report, what is saved and the journal. The process ends with its command, so it leaves
//! the memory of the job to the system: to give back one event after the other would take a tenth of a short run.
ghost use Rattle.std.specs.Prelude.{◌≡◌, ◌≤◌, ℕ, List, [], IfOk, length};
ghost use Rattle.mp_control.specs.Settings.{settings_in};
ghost use Rattle.mp_model.specs.Legal.{EventsAreLegal};
ghost use Rattle.mp_model.specs.Plain.{EventsArePlain};
ghost use Rattle.mp_model.specs.Tables.{table_of};
ghost use Rattle.mp_names.specs.Limits.{most_bytes};
ghost use Rattle.mp_output.specs.Rows.{GivesRows};
ghost use Rattle.mp_words.specs.Limits.{AreWithinLimits};
ghost use Rattle.mp_words.specs.Values.{options_in};
ghost use Rattle.mp_words.specs.Words.{Run};
ghost use Rattle.mp_command.specs.declared.flow.FlowQuery.TheVariants.{Named};
ghost use Rattle.mp_command.specs.Audits.{LacksCheckpoint};
ghost use Rattle.mp_command.specs.Config.{SettingsFit, SettingsFitFlow, flow_for, flow_of, flow_with, job_asked, shape_with};
ghost use Rattle.mp_command.specs.InputFiles.{found_in};
ghost use Rattle.mp_command.specs.Queries.{IsSound, query_named};
ghost use Rattle.mp_command.specs.Writing.{IsTextOf, IsTextOfJob, save_target};
ghost use Rattle.mp_run_command.specs.Jobs.{job_by};
ghost use Rattle.mp_run_command.specs.Keeping.{IsKeptBy, IsKeptOf};
ghost use Rattle.mp_run_command.specs.Running.{TellsRun};
ghost use Rattle.mp_run_command.specs.Wrote.{EndsInSpan, EndsRun, Writes};

use crate::resuming::write_rest;
use crate::running::{Ran, answer_to};
use crate::stopping::write_stopped;
use mp_command::{
    FlowQuery, Inputs, JobParts, Refusal, SavePlan, job_after, job_for, job_until, journal_to,
    report_to,
};
use mp_gate::Gate;
use mp_job::Job;
use mp_model::Query;
use mp_outside::Depot;
use mp_q_auction::{Q4, Q6};
use mp_q_join::{Q3, Q8};
use mp_q_simple::{Q1, Q2};
use mp_q_window::{Q5, Q7};
use mp_saved::Saved;
use mp_words::{QueryName, RunOptions, Span};
use std::mem;
use std::sync::Wait;
use std::thread::Threads;

/// Runs the dataflow that a command asks for on what was read, and makes its file hold the answer, and then, where they are asked for,
/// the files of the report, of what is saved and of the journal hold these. `WriteFault`: a file couldn't be begun or appended to;
/// `BadCheckpoint`: what the run goes on from is no checkpoint of its query, and nothing has changed; `NoMemory`: no memory.
pub fn write_answer<'a, D: Depot, G: Gate + Sync, R: Threads + Wait + Sync + AllocGlobal>(
    rt: &R,
    depot: &mut D,
    options: &RunOptions<'a>,
    read: Inputs,
    gate: &G,
) -> Result<(), Refusal<'a>>
    requires options { AreWithinLimits options.now }
    requires flow { read.flow ≡ flow_with (flow_of (options_in options.now)) (found_in read).pipe }
    requires sound { IsSound read.flow.query }
    requires events { EventsAreLegal read.parts.events.items }
    requires plain { EventsArePlain read.parts.events.items }
    requires few { length read.parts.checkpoint.items ≤ most_bytes }
    requires settings { SettingsFitFlow read.flow (settings_in read.parts.settings) }
    ensures { let asked = options_in options.now in
        let IsText = IsTextOf IsKeptBy (Run asked) (found_in read) in
        EndsRun D.files D.write_faults IsText (LacksCheckpoint asked (found_in read)) asked result depot.old depot.new }
{
    let Inputs { flow, parts } = read;
    match flow.query {
        FlowQuery::Named(name) => write_named(rt, depot, name, options, parts, gate),
        FlowQuery::Piped(pipe) => {
            run_asked(rt, depot, pipe, options, parts, gate)?;
            Ok(())
        }
    }
}

/// The same for the query of a name.
fn write_named<'a, D: Depot, G: Gate + Sync, R: Threads + Wait + Sync + AllocGlobal>(
    rt: &R,
    depot: &mut D,
    name: QueryName,
    options: &RunOptions<'a>,
    parts: JobParts,
    gate: &G,
) -> Result<(), Refusal<'a>>
    requires options { AreWithinLimits options.now }
    requires events { EventsAreLegal parts.events.items }
    requires plain { EventsArePlain parts.events.items }
    requires few { length parts.checkpoint.items ≤ most_bytes }
    requires settings { SettingsFitFlow (flow_for (flow_of (options_in options.now)) (Named name)) (settings_in parts.settings) }
    ensures { let asked = options_in options.now in
        let some = query_named name in
        let job = job_asked (flow_for (flow_of asked) (Named name)) parts.events.items (settings_in parts.settings) in
        EndsInSpan D.files D.write_faults some.number some.text some.facts job.values job parts.checkpoint.items asked
        result depot.old depot.new }
{
    match name {
        QueryName::Q1 => write_saved(rt, depot, Q1::given(), options, parts, gate),
        QueryName::Q2 => write_saved(rt, depot, Q2::given(), options, parts, gate),
        QueryName::Q3 => write_saved(rt, depot, Q3::given(), options, parts, gate),
        QueryName::Q4 => write_saved(rt, depot, Q4::given(), options, parts, gate),
        QueryName::Q5 => write_saved(rt, depot, Q5::given(), options, parts, gate),
        QueryName::Q6 => write_saved(rt, depot, Q6::given(), options, parts, gate),
        QueryName::Q7 => write_saved(rt, depot, Q7::given(), options, parts, gate),
        QueryName::Q8 => write_saved(rt, depot, Q8::given(), options, parts, gate),
    }
}

/// The same for a query whose cells can be saved: with all events, with those before a time, where what they leave is saved, or with
/// those from the time of a checkpoint on.
fn write_saved<
    'a,
    D: Depot,
    Q: Saved + Send,
    G: Gate + Sync,
    R: Threads + Wait + Sync + AllocGlobal,
>(
    rt: &R,
    depot: &mut D,
    given: Q,
    options: &RunOptions<'a>,
    parts: JobParts,
    gate: &G,
) -> Result<(), Refusal<'a>>
    requires options { AreWithinLimits options.now }
    requires events { EventsAreLegal parts.events.items }
    requires plain { EventsArePlain parts.events.items }
    requires few { length parts.checkpoint.items ≤ most_bytes }
    requires settings { let stages = (Q.facts (Q.values given)).stages in
        SettingsFit (shape_with options.now.workers options.now.bins stages) (Q.rules given) (settings_in parts.settings) }
    requires rows { (numbers : List ℕ) → GivesRows (Q.facts numbers) }
    ensures { let asked = options_in options.now in
        let job = job_by Q.facts (Q.rules given) (Q.values given) asked parts.events.items (settings_in parts.settings) in
        EndsInSpan D.files D.write_faults Q.NUMBER Q.text_of Q.facts job.values job parts.checkpoint.items asked
        result depot.old depot.new }
{
    match options.span {
        Span::Whole => {
            run_asked(rt, depot, given, options, parts, gate)?;
            Ok(())
        }
        Span::Until { time, save } => {
            let (workers, bins) = (options.workers, options.bins);
            let job = job_until(rt.alloc(), given, workers, bins, parts, time)?;
            let ended = write_stopped(rt, depot, options, &job, SavePlan { time, save }, gate);
            mem::forget(job);
            ended
        }
        Span::From(name) => {
            let (workers, bins) = (options.workers, options.bins);
            let job = job_after(rt.alloc(), given, workers, bins, parts, name)?;
            let ended = write_rest(rt, depot, options, &job, name, gate);
            mem::forget(job);
            ended
        }
    }
}

/// Runs a query with the values that were read on the events that were read, with first owners and control records
/// that were read, and makes the files hold its answer and its report: how many steps the workers made by the schedule of the
/// command's seed, at its depth and paced where that is asked for, `None` on threads; and what each worker of the command's
/// number has done of that job.
fn run_asked<'a, D: Depot, Q: Query + Send, G: Gate + Sync, R: Threads + Wait + Sync + AllocGlobal>(
    rt: &R,
    depot: &mut D,
    given: Q,
    options: &RunOptions<'a>,
    parts: JobParts,
    gate: &G,
) -> Result<Ran, Refusal<'a>>
    requires options { AreWithinLimits options.now }
    requires events { EventsAreLegal parts.events.items }
    requires settings { let stages = (Q.facts (Q.values given)).stages in
        SettingsFit (shape_with options.now.workers options.now.bins stages) (Q.rules given) (settings_in parts.settings) }
    requires rows { (numbers : List ℕ) → GivesRows (Q.facts numbers) }
    requires no_save { save_target (options_in options.now).span ≡ [] }
    ensures tells { let asked = options_in options.now in
        let job = job_by Q.facts (Q.rules given) (Q.values given) asked parts.events.items (settings_in parts.settings) in
        IfOk result (λ run. TellsRun (Q.facts job.values) job asked run) }
    ensures writes { let asked = options_in options.now in
        let job = job_by Q.facts (Q.rules given) (Q.values given) asked parts.events.items (settings_in parts.settings) in
        let IsText = IsTextOfJob (Q.facts job.values) job (IsKeptOf (Q.facts job.values) job asked) in
        Writes D.files D.write_faults IsText asked result depot.old depot.new }
{
    let job = job_for(rt.alloc(), given, options.workers, options.bins, parts)?;
    let ran = write_all(rt, depot, options, &job, gate);
    mem::forget(job);
    ran
}

/// Runs a job, and makes the files hold its answer, its report and its journal: what the run came to.
fn write_all<'a, D: Depot, Q: Query + Send, G: Gate + Sync, R: Threads + Wait + Sync + AllocGlobal>(
    rt: &R,
    depot: &mut D,
    options: &RunOptions<'a>,
    job: &Job<Q>,
    gate: &G,
) -> Result<Ran, Refusal<'a>>
    requires options { AreWithinLimits options.now }
    requires rows { GivesRows (table_of Q.facts job.now) }
    requires size { job.now.shape.workers ≡ options.now.workers }
    requires no_save { save_target (options_in options.now).span ≡ [] }
    ensures tells { IfOk result (λ run. TellsRun (table_of Q.facts job.now) job.now (options_in options.now) run) }
    ensures writes { let q = table_of Q.facts job.now in
        let IsText = IsTextOfJob q job.now (IsKeptOf q job.now (options_in options.now)) in
        Writes D.files D.write_faults IsText (options_in options.now) result depot.old depot.new }
{
    let run = answer_to(rt, depot, options, job, gate)?;
    report_to(
        rt.alloc(),
        depot,
        options.report,
        job,
        run.tallies.as_slice(),
    )?;
    journal_to(rt.alloc(), depot, options.journal, run.kept.as_slice())?;
    Ok(run)
}
