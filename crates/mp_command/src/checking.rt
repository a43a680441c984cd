//! The command `check`: whether an event file and a configuration are well-formed.
ghost use Rattle.std.specs.Prelude.{◌≡◌, Some, IfOk};
ghost use Rattle.mp_words.specs.Limits.{CheckIsWithinLimits};
ghost use Rattle.mp_words.specs.Values.{check_in};
ghost use Rattle.mp_words.specs.Words.{Check};
ghost use Rattle.mp_command.specs.Ends.{CameTo, Leaves};
ghost use Rattle.mp_command.specs.Lines.{ok_line};
ghost use Rattle.mp_command_files.specs.Refused.{outcome_in};
ghost use Rattle.mp_command.specs.Writing.{NoneKept};

use crate::reading::{InputFiles, read_inputs};
use mp_command_files::Refusal;
use mp_events::OnOneThread;
use mp_outside::Depot;
use mp_text::put_number;
use mp_words::CheckOptions;
use std::alloc::{AllocError, Global};

/// Reads an event file, a pipeline where one is asked for, and a configuration: the line that says how many events and control records they have.
/// The refusals are those of a run; no write can fail.
pub fn check<'a, D: Depot>(
    alloc: Global,
    depot: &mut D,
    options: &CheckOptions<'a>,
) -> Result<Vec<u8>, Refusal<'a>>
    requires { CheckIsWithinLimits options.now }
    ensures came { CameTo D.files D.found D.read_faults D.write_faults
        (Some (Check (check_in options.now))) (outcome_in result) depot.old depot.new }
    ensures left { Leaves NoneKept (Check (check_in options.now)) (outcome_in result)
        (D.files depot.old) (D.files depot.new) }
{
    let read = read_inputs(alloc, depot, &InputFiles::of_check(options), &OnOneThread)?;
    let parts = read.parts;
    Ok(ok_line(alloc, parts.events.len(), parts.settings.controls.len())?)
}

/// The line of files that have so many events and control records.
fn ok_line(alloc: Global, events: usize, controls: usize) -> Result<Vec<u8>, AllocError>
    ensures { IfOk result (λ line. line.items ≡ ok_line events controls) }
{
    let mut line = Vec::new(alloc);
    line.extend_from_slice(b"ok ")?;
    put_number(&mut line, events as u64)?;
    line.extend_from_slice(b" events ")?;
    put_number(&mut line, controls as u64)?;
    line.extend_from_slice(b" controls\n")?;
    Ok(line)
}
