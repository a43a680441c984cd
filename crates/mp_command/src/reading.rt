//! The files that a command reads, one after the other.
ghost use Rattle.std.specs.Prelude.{◌≡◌, ◌<◌, ◌≤◌, [], List, false, IfOk, IfErr};
ghost use Rattle.mp_control.specs.Settings.{settings_in};
ghost use Rattle.mp_model.specs.declared.record.Event.{Event};
ghost use Rattle.mp_model.specs.Legal.{EventsAreLegal};
ghost use Rattle.mp_model.specs.Plain.{EventsArePlain};
ghost use Rattle.mp_outside.specs.Fault.{Rose};
ghost use Rattle.mp_words.specs.Values.{audit_in, check_in, options_in, query_in};
ghost use Rattle.mp_words.specs.Words.{Check};
ghost use Rattle.mp_command.specs.Config.{FlowAsked, SettingsFitFlow, flow_of, flow_to_audit, flow_to_check, flow_with};
ghost use Rattle.mp_command.specs.Ends.{LacksOne};
ghost use Rattle.mp_command.specs.InputFiles.{flow_in, found_in, inputs_in, pipe_in};
ghost use Rattle.mp_command.specs.Inputs.{ConfigFile, Found, files_of, inputs_of, nothing_found, pipe_input};
ghost use Rattle.mp_command.specs.Queries.{IsSound, query_with};
ghost use Rattle.mp_command.specs.Reading.{ReadsAll, ReadsAs, RefusesAs, RefusesOne};
ghost use Rattle.mp_command_files.specs.Refused.{EndsAs, outcome_of};

use crate::flow::{Flow, FlowQuery};
use mp_command_files::{Refusal, config_in, events_in, pipe_in};
use mp_control::Settings;
use mp_events::EventReading;
use mp_model::Event;
use mp_outside::Depot;
use mp_words::{AuditOptions, CheckOptions, QueryOption, RunOptions};
use std::alloc::Global;

/// The files that a command reads, by their names, and the size of the dataflow that they are read for.
#[derive(Clone, Copy)]
pub struct InputFiles<'a> {
    /// The event file.
    pub events: &'a str,
    /// The query that is asked for, with the file of a pipeline.
    pub query: QueryOption<'a>,
    /// The configuration.
    pub config: &'a str,
    /// How many workers run the dataflow.
    pub workers: u32,
    /// Into how many bins the keys of a stage are cut.
    pub bins: u32,
}

impl<'a> InputFiles<'a> {
    /// Those that `run` or `replay` reads before a checkpoint.
    pub fn of_run(options: &RunOptions<'a>) -> InputFiles<'a>
        ensures files { let asked = options_in options.now in
            inputs_in result ≡ files_of asked.events asked.config (flow_of asked) }
        ensures flow { flow_in result ≡ flow_of (options_in options.now) }
    {
        InputFiles {
            events: options.events,
            query: options.query,
            config: options.config,
            workers: options.workers,
            bins: options.bins,
        }
    }

    /// Those that `audit` reads before the answer.
    pub fn of_audit(options: &AuditOptions<'a>) -> InputFiles<'a>
        ensures files { let asked = audit_in options.now in
            inputs_in result ≡ files_of asked.events asked.config (flow_to_audit asked) }
        ensures flow { flow_in result ≡ flow_to_audit (audit_in options.now) }
    {
        InputFiles {
            events: options.events,
            query: options.query,
            config: options.config,
            workers: options.workers,
            bins: options.bins,
        }
    }

    /// Those of `check`.
    pub fn of_check(options: &CheckOptions<'a>) -> InputFiles<'a>
        ensures files { inputs_in result ≡ inputs_of (Check (check_in options.now)) }
        ensures flow { flow_in result ≡ flow_to_check (check_in options.now) }
    {
        InputFiles {
            events: options.events,
            query: options.query,
            config: options.config,
            workers: options.workers,
            bins: options.bins,
        }
    }
}

/// What a job has beside its query and its size.
#[derive(Drop)]
pub struct JobParts {
    /// The events of the event file.
    pub events: Vec<Event>,
    /// What the configuration says.
    pub settings: Settings,
    /// The bytes of the checkpoint that it goes on from; none of other jobs.
    pub checkpoint: Vec<u8>,
}

/// What the files say.
#[derive(Drop)]
pub struct Inputs {
    /// The dataflow that is asked for, with the pipeline of a file.
    pub flow: Flow,
    /// What its job has beside that.
    pub parts: JobParts,
}

/// Reads the events, by this reader, then the pipeline, where one is asked for, and then the configuration, for a dataflow with a worker
/// and a bin.
/// `NoFile`, `ReadFault`, `TooLarge` and `NoMemory`: a file can't be read; `EventsRefused`, `PipeRefused`, `ConfigRefused`: its
/// first bad line.
pub fn read_inputs<'a, D: Depot, E: EventReading>(
    alloc: Global,
    depot: &mut D,
    files: &InputFiles<'a>,
    reader: &E,
) -> Result<Inputs, Refusal<'a>>
    requires workers { 0 < files.now.workers }
    requires bins { 0 < files.now.bins }
    ensures found { IfOk result (λ read.
        ReadsAll (D.files depot.old) (inputs_in files.now) nothing_found (found_in read)) }
    ensures flow { IfOk result (λ read. read.flow ≡ flow_with (flow_in files.now) (found_in read).pipe) }
    ensures sound { IfOk result (λ read. IsSound read.flow.query) }
    ensures legal { IfOk result (λ read. EventsAreLegal read.parts.events.items) }
    ensures plain { IfOk result (λ read. EventsArePlain read.parts.events.items) }
    ensures no_checkpoint { IfOk result (λ read. read.parts.checkpoint.items ≡ []) }
    ensures fits { IfOk result (λ read. SettingsFitFlow read.flow (settings_in read.parts.settings)) }
    ensures refused { IfErr result (λ r.
        RefusesOne (D.files depot.old) (inputs_in files.now) nothing_found (outcome_of r)) }

    ensures failed { IfErr result (λ r. EndsAs r 6
        → Rose (D.read_faults depot.old) (D.read_faults depot.new)) }
    ensures not_found { IfErr result (λ r. EndsAs r 5 → LacksOne D.found (inputs_in files.now) depot.new) }
    ensures files { D.files depot.new ≡ D.files depot.old }
    ensures reads { D.read_faults depot.old ≤ D.read_faults depot.new }
    ensures writes { D.write_faults depot.new ≡ D.write_faults depot.old }
{
    let events = events_in(alloc, depot, files.events, reader)?;
    let query = query_in(alloc, depot, files.query)?;
    let flow = Flow {
        query,
        workers: files.workers,
        bins: files.bins,
    };
    let settings = settings_in(alloc, depot, files.config, &flow)?;
    let parts = JobParts {
        events,
        settings,
        checkpoint: Vec::new(alloc),
    };
    Ok(Inputs { flow, parts })
}

/// The query that is asked for; where that is a pipeline, the one that its file says. It is read behind events.
/// `NoFile`, `ReadFault`, `TooLarge` and `NoMemory`: the file can't be read; `PipeRefused`: its first bad line.
fn query_in<'a, D: Depot>(
    alloc: Global,
    depot: &mut D,
    asked: QueryOption<'a>,
) -> Result<FlowQuery, Refusal<'a>>
    ensures found { IfOk result (λ q. (events : List Event) → let before = record nothing_found { events = events } in
        ReadsAll (D.files depot.old) (pipe_input (query_in asked.entry)) before (record before { pipe = pipe_in q })) }
    ensures query { IfOk result (λ q. q ≡ query_with (query_in asked.entry) (pipe_in q)) }
    ensures sound { IfOk result IsSound }
    ensures refused { IfErr result (λ r. (found : Found)
        → RefusesOne (D.files depot.old) (pipe_input (query_in asked.entry)) found (outcome_of r)) }

    ensures failed { IfErr result (λ r. EndsAs r 6
        → Rose (D.read_faults depot.old) (D.read_faults depot.new)) }
    ensures not_found { IfErr result (λ r. EndsAs r 5 → LacksOne D.found (pipe_input (query_in asked.entry)) depot.new) }
    ensures files { D.files depot.new ≡ D.files depot.old }
    ensures reads { D.read_faults depot.old ≤ D.read_faults depot.new }
    ensures writes { D.write_faults depot.new ≡ D.write_faults depot.old }
{
    match asked {
        QueryOption::Named(name) => Ok(FlowQuery::Named(name)),
        QueryOption::Piped(file) => Ok(FlowQuery::Piped(pipe_in(alloc, depot, file)?)),
    }
}

/// What the configuration of this name says, for a dataflow with a worker and a bin. `NoFile`, `ReadFault`,
/// `TooLarge` and `NoMemory`: the file can't be read; `ConfigRefused`: its first bad line.
fn settings_in<'a, D: Depot>(
    alloc: Global,
    depot: &mut D,
    name: &'a str,
    flow: &Flow,
) -> Result<Settings, Refusal<'a>>
    requires workers { 0 < flow.now.workers }
    requires bins { 0 < flow.now.bins }
    requires sound { IsSound flow.now.query }
    ensures settings { IfOk result (λ s. (asked : FlowAsked) (found : Found) → flow.now ≡ flow_with asked found.pipe
        → ReadsAs (D.files depot.old) (ConfigFile asked, name.now) found (record found { settings = settings_in s })) }
    ensures fits { IfOk result (λ s. SettingsFitFlow flow.now (settings_in s)) }
    ensures refused { IfErr result (λ r. (asked : FlowAsked) (found : Found) → flow.now ≡ flow_with asked found.pipe
        → RefusesAs (D.files depot.old) (ConfigFile asked, name.now) found (outcome_of r)) }

    ensures failed { IfErr result (λ r. EndsAs r 6
        → Rose (D.read_faults depot.old) (D.read_faults depot.new)) }
    ensures not_found { IfErr result (λ r. EndsAs r 5 → D.found depot.old name.now false depot.new) }
    ensures files { D.files depot.new ≡ D.files depot.old }
    ensures reads { D.read_faults depot.old ≤ D.read_faults depot.new }
    ensures writes { D.write_faults depot.new ≡ D.write_faults depot.old }
{
    config_in(alloc, depot, name, &flow.shape(), &flow.rules())
}
