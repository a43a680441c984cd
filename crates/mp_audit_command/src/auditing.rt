//! The command `audit`.
ghost use Rattle.std.specs.Prelude.{◌≡◌, IfOk, Some};
ghost use Rattle.mp_words.specs.Limits.{AuditIsWithinLimits};
ghost use Rattle.mp_words.specs.Values.{audit_in};
ghost use Rattle.mp_words.specs.Words.{Audit};
ghost use Rattle.mp_command.specs.Ends.{CameTo, Leaves};
ghost use Rattle.mp_command.specs.Lines.{legal_line};
ghost use Rattle.mp_command_files.specs.Refused.{outcome_in};
ghost use Rattle.mp_command.specs.Writing.{NoneKept};

use crate::judging::judge_flow;
use crate::reading::{Audited, read_audited};
use mp_audit::AuditStop;
use mp_command::Refusal;
use mp_outside::Depot;
use mp_text::put_number;
use mp_words::AuditOptions;
use std::alloc::{AllocError, Global};

/// Reads an event file, a pipeline where one is asked for, a configuration, an answer and a journal: the line that says how many steps
/// the journal has, where some order of all of them is a run of the machine that writes the answer. `NoRun`: no order is one, or
/// the answer is another; `NoMemory`: no memory. The other refusals are those of the files; no write can fail.
pub fn audit<'a, D: Depot>(
    alloc: Global,
    depot: &mut D,
    options: &AuditOptions<'a>,
) -> Result<Vec<u8>, Refusal<'a>>
    requires { AuditIsWithinLimits options.now }
    ensures came { CameTo D.files D.found D.read_faults D.write_faults
        (Some (Audit (audit_in options.now))) (outcome_in result) depot.old depot.new }
    ensures left { Leaves NoneKept (Audit (audit_in options.now)) (outcome_in result)
        (D.files depot.old) (D.files depot.new) }
{
    let read = read_audited(alloc, depot, options)?;
    let Audited {
        inputs,
        answer,
        journal,
    } = read;
    match judge_flow(
        alloc,
        options,
        inputs,
        journal.as_slice(),
        answer.as_slice(),
    ) {
        Ok(steps) => Ok(legal_line(alloc, steps)?),
        Err(AuditStop::NoRun) => Err(Refusal::NoRun),
        Err(AuditStop::NoMemory) => Err(Refusal::NoMemory),
    }
}

/// The line of the journal of a legal run of so many steps.
fn legal_line(alloc: Global, steps: u64) -> Result<Vec<u8>, AllocError>
    ensures { IfOk result (λ line. line.items ≡ legal_line steps) }
{
    let mut line = Vec::new(alloc);
    line.extend_from_slice(b"legal ")?;
    put_number(&mut line, steps)?;
    line.extend_from_slice(b" steps\n")?;
    Ok(line)
}
