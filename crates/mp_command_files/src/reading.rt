//! What is read from a file of the command.
ghost use Rattle.std.specs.Prelude.{◌≡◌, ◌<◌, ◌≤◌, false, length, map, true, IfOk, IfErr};
ghost use Rattle.mp_control.specs.Settings.{settings_in, settings_of};
ghost use Rattle.mp_events.specs.Events.{events_of};
ghost use Rattle.mp_job.specs.Legal.{ControlsFit, FirstsFit};
ghost use Rattle.mp_journal.specs.Journals.{journal_of};
ghost use Rattle.mp_model.specs.Legal.{EventsAreLegal};
ghost use Rattle.mp_model.specs.Plain.{EventsArePlain};
ghost use Rattle.mp_model.specs.Rules.{are_within, given_values};
ghost use Rattle.mp_outside.specs.Fault.{Rose};
ghost use Rattle.mp_pipe_file.specs.Pipes.{pipe_of};
ghost use Rattle.mp_pipeline.specs.Pipes.{are_sound};
ghost use Rattle.mp_command_files.specs.Outcome.{ConfigRefused, EventsRefused, JournalRefused, PipeRefused};
ghost use Rattle.mp_command_files.specs.Refused.{EndsAs, outcome_of};
ghost use Rattle.mp_command_files.specs.Texts.{CannotRead, IsRead, IsRefused, Says};

use crate::refusal::Refusal;
use mp_control::{ControlRefused, MOST_RULES, RuleList, Settings, Shape, read_settings};
use mp_events::{EventReading, EventsRefused};
use mp_journal::{JournalRefused, Kept, read_journal};
use mp_model::Event;
use mp_names::limits::MAX_BYTES;
use mp_outside::{Depot, ReadRefused, read_all};
use mp_pipe_file::{Pipe, PipeRefused, read_pipe};
use std::alloc::Global;

/// The events of the event file of this name, by this reader.
/// `NoFile`, `ReadFault`, `TooLarge` and `NoMemory`: the file can't be read; `EventsRefused`: its first bad line.
pub fn events_in<'a, D: Depot, E: EventReading>(
    alloc: Global,
    depot: &mut D,
    name: &'a str,
    reader: &E,
) -> Result<Vec<Event>, Refusal<'a>>
    ensures events { IfOk result (λ v. Says events_of (D.files depot.old) name.now v.items) }
    ensures legal { IfOk result (λ v. EventsAreLegal v.items) }
    ensures plain { IfOk result (λ v. EventsArePlain v.items) }
    ensures refused { IfErr result (λ r. IsRefused events_of EventsRefused (D.files depot.old) name.now (outcome_of r)) }

    ensures failed { IfErr result (λ r. EndsAs r 6
        → Rose (D.read_faults depot.old) (D.read_faults depot.new)) }
    ensures not_found { IfErr result (λ r. EndsAs r 5 → D.found depot.old name.now false depot.new) }
    ensures files { D.files depot.new ≡ D.files depot.old }
    ensures reads { D.read_faults depot.old ≤ D.read_faults depot.new }
    ensures writes { D.write_faults depot.new ≡ D.write_faults depot.old }
{
    let text = read_named(alloc, depot, name)?;
    match reader.read_events(alloc, text.as_slice()) {
        Ok(events) => Ok(events),
        Err(EventsRefused::BadLine { line, why }) => Err(Refusal::EventsRefused { line, why }),
        Err(EventsRefused::NoMemory) => Err(Refusal::NoMemory),
    }
}

/// The pipeline that the file of this name says.
/// `NoFile`, `ReadFault`, `TooLarge` and `NoMemory`: the file can't be read; `PipeRefused`: its first bad line.
pub fn pipe_in<'a, D: Depot>(
    alloc: Global,
    depot: &mut D,
    name: &'a str,
) -> Result<Pipe, Refusal<'a>>
    ensures pipe { IfOk result (λ p. Says pipe_of (D.files depot.old) name.now p) }
    ensures sound { IfOk result (λ p. are_sound p.lines ≡ true) }
    ensures refused { IfErr result (λ r. IsRefused pipe_of PipeRefused (D.files depot.old) name.now (outcome_of r)) }

    ensures failed { IfErr result (λ r. EndsAs r 6
        → Rose (D.read_faults depot.old) (D.read_faults depot.new)) }
    ensures not_found { IfErr result (λ r. EndsAs r 5 → D.found depot.old name.now false depot.new) }
    ensures files { D.files depot.new ≡ D.files depot.old }
    ensures reads { D.read_faults depot.old ≤ D.read_faults depot.new }
    ensures writes { D.write_faults depot.new ≡ D.write_faults depot.old }
{
    let text = read_named(alloc, depot, name)?;
    match read_pipe(alloc, text.as_slice()) {
        Ok(pipe) => Ok(pipe),
        Err(PipeRefused::BadLine { line, why }) => Err(Refusal::PipeRefused { line, why }),
        Err(PipeRefused::NoMemory) => Err(Refusal::NoMemory),
    }
}

/// What the configuration of this name says, for jobs of a shape with a worker and a bin, whose query has these rules. `NoFile`,
/// `ReadFault`, `TooLarge` and `NoMemory`: the file can't be read; `ConfigRefused`: its first bad line.
pub fn config_in<'a, D: Depot>(
    alloc: Global,
    depot: &mut D,
    name: &'a str,
    shape: &Shape,
    rules: &RuleList,
) -> Result<Settings, Refusal<'a>>
    requires workers { 0 < shape.now.workers }
    requires bins { 0 < shape.now.bins }
    requires few { length rules.now ≤ MOST_RULES }
    requires given { are_within rules.now (given_values rules.now) ≡ true }
    ensures settings { IfOk result (λ s.
        Says (λ text. settings_of text shape.now rules.now) (D.files depot.old) name.now (settings_in s)) }
    ensures firsts { IfOk result (λ s. FirstsFit shape.now s.firsts.items) }
    ensures values { IfOk result (λ s. are_within rules.now s.values ≡ true) }
    ensures controls { IfOk result (λ s. ControlsFit shape.now s.controls.items) }
    ensures refused { IfErr result (λ r.
        IsRefused (λ text. settings_of text shape.now rules.now) ConfigRefused (D.files depot.old) name.now (outcome_of r)) }

    ensures failed { IfErr result (λ r. EndsAs r 6
        → Rose (D.read_faults depot.old) (D.read_faults depot.new)) }
    ensures not_found { IfErr result (λ r. EndsAs r 5 → D.found depot.old name.now false depot.new) }
    ensures files { D.files depot.new ≡ D.files depot.old }
    ensures reads { D.read_faults depot.old ≤ D.read_faults depot.new }
    ensures writes { D.write_faults depot.new ≡ D.write_faults depot.old }
{
    let text = read_named(alloc, depot, name)?;
    match read_settings(alloc, text.as_slice(), shape, rules) {
        Ok(settings) => Ok(settings),
        Err(ControlRefused::BadLine { line, why }) => Err(Refusal::ConfigRefused { line, why }),
        Err(ControlRefused::NoMemory) => Err(Refusal::NoMemory),
    }
}

/// The steps of the journal of this name, of jobs of a shape, by worker. `NoFile`, `ReadFault`, `TooLarge` and `NoMemory`: the file
/// can't be read; `JournalRefused`: its first bad line.
pub fn steps_in<'a, D: Depot>(
    alloc: Global,
    depot: &mut D,
    name: &'a str,
    shape: &Shape,
) -> Result<Vec<Vec<Kept>>, Refusal<'a>>
    ensures journal { IfOk result (λ lists.
        Says (λ text. journal_of text shape.now) (D.files depot.old) name.now (map (λ v. v.items) lists.items)) }
    ensures workers { IfOk result (λ lists. length lists.items ≡ shape.now.workers) }
    ensures refused { IfErr result (λ r.
        IsRefused (λ text. journal_of text shape.now) JournalRefused (D.files depot.old) name.now (outcome_of r)) }

    ensures failed { IfErr result (λ r. EndsAs r 6
        → Rose (D.read_faults depot.old) (D.read_faults depot.new)) }
    ensures not_found { IfErr result (λ r. EndsAs r 5 → D.found depot.old name.now false depot.new) }
    ensures files { D.files depot.new ≡ D.files depot.old }
    ensures reads { D.read_faults depot.old ≤ D.read_faults depot.new }
    ensures writes { D.write_faults depot.new ≡ D.write_faults depot.old }
{
    let text = read_named(alloc, depot, name)?;
    match read_journal(alloc, text.as_slice(), shape) {
        Ok(lists) => Ok(lists),
        Err(JournalRefused::BadLine { line, why }) => Err(Refusal::JournalRefused { line, why }),
        Err(JournalRefused::NoMemory) => Err(Refusal::NoMemory),
    }
}

/// The bytes of the file of this name. `NoFile`: it isn't there; `ReadFault`: a find or a read failed; `TooLarge`: it has more
/// bytes than are allowed; `NoMemory`: no memory.
pub fn read_named<'a, D: Depot>(
    alloc: Global,
    depot: &mut D,
    name: &'a str,
) -> Result<Vec<u8>, Refusal<'a>>
    ensures text { IfOk result (λ v. IsRead (D.files depot.old) name.now v.items) }
    ensures refused { IfErr result (λ r. CannotRead (D.files depot.old) name.now (outcome_of r)) }

    ensures failed { IfErr result (λ r. EndsAs r 6
        → Rose (D.read_faults depot.old) (D.read_faults depot.new)) }
    ensures not_found { IfErr result (λ r. EndsAs r 5 → D.found depot.old name.now false depot.new) }
    ensures files { D.files depot.new ≡ D.files depot.old }
    ensures reads { D.read_faults depot.old ≤ D.read_faults depot.new }
    ensures writes { D.write_faults depot.new ≡ D.write_faults depot.old }
{
    match read_all(alloc, depot, name, MAX_BYTES) {
        Ok(text) => Ok(text),
        Err(ReadRefused::NotThere) => Err(Refusal::NoFile(name)),
        Err(ReadRefused::Failed) => Err(Refusal::ReadFault),
        Err(ReadRefused::TooLarge) => Err(Refusal::TooLarge(name)),
        Err(ReadRefused::NoMemory) => Err(Refusal::NoMemory),
    }
}
