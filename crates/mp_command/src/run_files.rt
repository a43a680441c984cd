//! The files that `run` and `replay` read.
ghost use Rattle.std.specs.Prelude.{◌≡◌, ◌≤◌, [], IfErr, IfOk, length};
ghost use Rattle.mp_control.specs.Settings.{settings_in};
ghost use Rattle.mp_model.specs.Legal.{EventsAreLegal};
ghost use Rattle.mp_model.specs.Plain.{EventsArePlain};
ghost use Rattle.mp_names.specs.Limits.{most_bytes};
ghost use Rattle.mp_outside.specs.Fault.{Rose};
ghost use Rattle.mp_words.specs.Limits.{AreWithinLimits};
ghost use Rattle.mp_words.specs.Values.{options_in, span_in};
ghost use Rattle.mp_words.specs.Words.{Run};
ghost use Rattle.mp_command.specs.Config.{SettingsFitFlow, flow_of, flow_with};
ghost use Rattle.mp_command.specs.Ends.{LacksOne};
ghost use Rattle.mp_command.specs.InputFiles.{found_in};
ghost use Rattle.mp_command.specs.Inputs.{Found, checkpoint_input, inputs_of, nothing_found};
ghost use Rattle.mp_command.specs.Queries.{IsSound};
ghost use Rattle.mp_command.specs.Reading.{ReadsAll, RefusesOne};
ghost use Rattle.mp_command_files.specs.Refused.{EndsAs, outcome_of};

use crate::reading::{InputFiles, Inputs, JobParts, read_inputs};
use mp_command_files::{Refusal, read_named};
use mp_events::EventReading;
use mp_outside::Depot;
use mp_words::{RunOptions, Span};
use std::alloc::Global;

/// Reads the events, by this reader, then the pipeline, where one is asked for, then the configuration, and then the bytes of the
/// checkpoint that the run goes on from, where it does. The refusals are those of each file that is read; whether the bytes are a checkpoint isn't told.
pub fn read_run<'a, D: Depot, E: EventReading>(
    alloc: Global,
    depot: &mut D,
    options: &RunOptions<'a>,
    reader: &E,
) -> Result<Inputs, Refusal<'a>>
    requires { AreWithinLimits options.now }
    ensures found { let asked = Run (options_in options.now) in IfOk result (λ read.
        ReadsAll (D.files depot.old) (inputs_of asked) nothing_found (found_in read)) }
    ensures flow { IfOk result (λ read. read.flow ≡ flow_with (flow_of (options_in options.now)) (found_in read).pipe) }
    ensures sound { IfOk result (λ read. IsSound read.flow.query) }
    ensures legal { IfOk result (λ read. EventsAreLegal read.parts.events.items) }
    ensures plain { IfOk result (λ read. EventsArePlain read.parts.events.items) }
    ensures few { IfOk result (λ read. length read.parts.checkpoint.items ≤ most_bytes) }
    ensures fits { IfOk result (λ read. SettingsFitFlow read.flow (settings_in read.parts.settings)) }
    ensures refused { let asked = Run (options_in options.now) in IfErr result (λ r.
        RefusesOne (D.files depot.old) (inputs_of asked) nothing_found (outcome_of r)) }

    ensures failed { IfErr result (λ r. EndsAs r 6
        → Rose (D.read_faults depot.old) (D.read_faults depot.new)) }
    ensures not_found { let asked = Run (options_in options.now) in IfErr result (λ r. EndsAs r 5
        → LacksOne D.found (inputs_of asked) depot.new) }
    ensures files { D.files depot.new ≡ D.files depot.old }
    ensures writes { D.write_faults depot.new ≡ D.write_faults depot.old }
{
    let Inputs { flow, parts } = read_inputs(alloc, depot, &InputFiles::of_run(options), reader)?;
    let checkpoint = checkpoint_in(alloc, depot, options.span)?;
    let parts = JobParts {
        checkpoint,
        ..parts
    };
    Ok(Inputs { flow, parts })
}

/// The bytes of the checkpoint that a run goes on from; none where it takes its events from the first on. They are read behind other files.
/// `NoFile`, `ReadFault`, `TooLarge` and `NoMemory`: the file can't be read.
fn checkpoint_in<'a, D: Depot>(
    alloc: Global,
    depot: &mut D,
    span: Span<'a>,
) -> Result<Vec<u8>, Refusal<'a>>
    ensures found { IfOk result (λ bytes. (found : Found) → found.checkpoint ≡ []
        → ReadsAll (D.files depot.old) (checkpoint_input (span_in span.entry)) found (record found { checkpoint = bytes.items })) }
    ensures few { IfOk result (λ bytes. length bytes.items ≤ most_bytes) }
    ensures refused { IfErr result (λ r. (found : Found)
        → RefusesOne (D.files depot.old) (checkpoint_input (span_in span.entry)) found (outcome_of r)) }

    ensures failed { IfErr result (λ r. EndsAs r 6
        → Rose (D.read_faults depot.old) (D.read_faults depot.new)) }
    ensures not_found { IfErr result (λ r. EndsAs r 5 → LacksOne D.found (checkpoint_input (span_in span.entry)) depot.new) }
    ensures files { D.files depot.new ≡ D.files depot.old }
    ensures reads { D.read_faults depot.old ≤ D.read_faults depot.new }
    ensures writes { D.write_faults depot.new ≡ D.write_faults depot.old }
{
    match span {
        Span::Whole => Ok(Vec::new(alloc)),
        Span::Until { .. } => Ok(Vec::new(alloc)),
        Span::From(name) => read_named(alloc, depot, name),
    }
}
