//! The files that `audit` reads.
ghost use Rattle.std.specs.Prelude.{◌≡◌, ◌≤◌, false, length, map, IfOk, IfErr};
ghost use Rattle.mp_control.specs.Settings.{settings_in};
ghost use Rattle.mp_model.specs.Legal.{EventsAreLegal};
ghost use Rattle.mp_outside.specs.Fault.{Rose};
ghost use Rattle.mp_words.specs.Limits.{AuditIsWithinLimits};
ghost use Rattle.mp_words.specs.Values.{audit_in};
ghost use Rattle.mp_words.specs.Words.{Audit};
ghost use Rattle.mp_command.specs.Config.{FlowAsked, SettingsFitFlow, flow_to_audit, flow_with, shape_of};
ghost use Rattle.mp_command.specs.Ends.{LacksOne};
ghost use Rattle.mp_command.specs.Inputs.{Found, JournalFile, inputs_of, nothing_found};
ghost use Rattle.mp_command.specs.Queries.{IsSound};
ghost use Rattle.mp_command.specs.Reading.{ReadsAll, ReadsAs, RefusesAs, RefusesOne};
ghost use Rattle.mp_command_files.specs.Refused.{EndsAs, outcome_of};
ghost use Rattle.mp_audit_command.specs.Audited.{found_in};

use mp_command::{Flow, InputFiles, Inputs, OnOneThread, Refusal, read_inputs};
use mp_command_files::{read_named, steps_in};
use mp_journal::Kept;
use mp_outside::Depot;
use mp_words::AuditOptions;
use std::alloc::Global;

/// What the files of an audit say.
#[derive(Drop)]
pub struct Audited {
    /// The dataflow, with what its job has.
    pub inputs: Inputs,
    /// The answer.
    pub answer: Vec<u8>,
    /// The journal: by worker its steps.
    pub journal: Vec<Vec<Kept>>,
}

/// Reads what `run` reads, then the answer, and then the journal. `NoFile`, `ReadFault`, `TooLarge` and `NoMemory`: a file can't
/// be read; `EventsRefused`, `PipeRefused`, `ConfigRefused`, `JournalRefused`: its first bad line.
pub fn read_audited<'a, D: Depot>(
    alloc: Global,
    depot: &mut D,
    options: &AuditOptions<'a>,
) -> Result<Audited, Refusal<'a>>
    requires { AuditIsWithinLimits options.now }
    ensures found { IfOk result (λ read.
        ReadsAll (D.files depot.old) (inputs_of (Audit (audit_in options.now))) nothing_found (found_in read)) }
    ensures flow { IfOk result (λ read.
        read.inputs.flow ≡ flow_with (flow_to_audit (audit_in options.now)) (found_in read).pipe) }
    ensures sound { IfOk result (λ read. IsSound read.inputs.flow.query) }
    ensures legal { IfOk result (λ read. EventsAreLegal read.inputs.parts.events.items) }
    ensures fits { IfOk result (λ read. SettingsFitFlow read.inputs.flow (settings_in read.inputs.parts.settings)) }
    ensures workers { IfOk result (λ read. length read.journal.items ≡ options.now.workers) }
    ensures refused { IfErr result (λ r.
        RefusesOne (D.files depot.old) (inputs_of (Audit (audit_in options.now))) nothing_found (outcome_of r)) }

    ensures failed { IfErr result (λ r. EndsAs r 6
        → Rose (D.read_faults depot.old) (D.read_faults depot.new)) }
    ensures not_found { IfErr result (λ r. EndsAs r 5
        → LacksOne D.found (inputs_of (Audit (audit_in options.now))) depot.new) }
    ensures files { D.files depot.new ≡ D.files depot.old }
{
    let inputs = read_inputs(alloc, depot, &InputFiles::of_audit(options), &OnOneThread)?;
    let answer = read_named(alloc, depot, options.out)?;
    let journal = journal_in(alloc, depot, options.journal, &inputs.flow)?;
    Ok(Audited {
        inputs,
        answer,
        journal,
    })
}

/// The steps of the journal of this name, of a dataflow's job. `NoFile`, `ReadFault`, `TooLarge` and `NoMemory`: the file can't be
/// read; `JournalRefused`: its first bad line.
fn journal_in<'a, D: Depot>(
    alloc: Global,
    depot: &mut D,
    name: &'a str,
    flow: &Flow,
) -> Result<Vec<Vec<Kept>>, Refusal<'a>>
    requires { IsSound flow.now.query }
    ensures journal { IfOk result (λ lists. (asked : FlowAsked) (found : Found) → flow.now ≡ flow_with asked found.pipe
        → ReadsAs (D.files depot.old) (JournalFile asked, name.now) found (record found { journal = map (λ v. v.items) lists.items })) }
    ensures workers { IfOk result (λ lists. length lists.items ≡ (shape_of flow.now).workers) }
    ensures refused { IfErr result (λ r. (asked : FlowAsked) (found : Found) → flow.now ≡ flow_with asked found.pipe
        → RefusesAs (D.files depot.old) (JournalFile asked, name.now) found (outcome_of r)) }

    ensures failed { IfErr result (λ r. EndsAs r 6
        → Rose (D.read_faults depot.old) (D.read_faults depot.new)) }
    ensures not_found { IfErr result (λ r. EndsAs r 5 → D.found depot.old name.now false depot.new) }
    ensures files { D.files depot.new ≡ D.files depot.old }
    ensures reads { D.read_faults depot.old ≤ D.read_faults depot.new }
{
    steps_in(alloc, depot, name, &flow.shape())
}
