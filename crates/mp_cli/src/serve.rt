//! A command carried out on the files of a depot.
ghost use Rattle.std.specs.Prelude.{◌≡◌, Some};
ghost use Rattle.mp_words.specs.Limits.{IsWithinLimits};
ghost use Rattle.mp_words.specs.Words.{asked_in, command_in};
ghost use Rattle.mp_run_command.specs.Keeping.{IsKeptBy};
ghost use Rattle.mp_command.specs.Ends.{CameTo, EndsWith, Leaves};
ghost use Rattle.mp_command_files.specs.Refused.{outcome_in};

use mp_audit_command::audit;
use mp_command::{Refusal, check, make};
use mp_gate::Gate;
use mp_outside::Depot;
use mp_run_command::{answer, demo};
use mp_words::{Command, WordsRefused, parse};
use std::sync::Wait;
use std::thread::Threads;

/// Carries out the command that the words ask for: the line that it says when all is done. `Refusal`: why it
/// isn't; which one comes first, the statuses of the command say.
pub fn serve<'a, D: Depot, G: Gate + Sync, R: Threads + Wait + Sync + AllocGlobal>(
    rt: &R,
    words: &'a [String],
    depot: &mut D,
    gate: &G,
) -> Result<Vec<u8>, Refusal<'a>>
    ensures came { CameTo D.files D.found D.read_faults D.write_faults
        (command_in words.now) (outcome_in result) depot.old depot.new }
    ensures ends { EndsWith IsKeptBy (command_in words.now) (outcome_in result)
        (D.files depot.old) (D.files depot.new) }
{
    match parse(rt.alloc(), words) {
        Ok(command) => carry_out(rt, command, depot, gate),
        Err(WordsRefused::Usage) => Err(Refusal::Usage),
        Err(WordsRefused::NoMemory) => Err(Refusal::NoMemory),
    }
}

/// Carries out a command: the line that it says when all is done.
fn carry_out<'a, D: Depot, G: Gate + Sync, R: Threads + Wait + Sync + AllocGlobal>(
    rt: &R,
    command: Command<'a>,
    depot: &mut D,
    gate: &G,
) -> Result<Vec<u8>, Refusal<'a>>
    requires { IsWithinLimits command }
    ensures came { CameTo D.files D.found D.read_faults D.write_faults
        (Some (asked_in command.entry)) (outcome_in result) depot.old depot.new }
    ensures left { Leaves IsKeptBy (asked_in command.entry) (outcome_in result)
        (D.files depot.old) (D.files depot.new) }
{
    match command {
        Command::Run(options) => answer(rt, depot, &options, gate),
        Command::Check(options) => check(rt.alloc(), depot, &options),
        Command::Make(options) => make(rt.alloc(), depot, &options),
        Command::Demo(options) => demo(rt, &options, gate),
        Command::Audit(options) => audit(rt.alloc(), depot, &options),
    }
}
