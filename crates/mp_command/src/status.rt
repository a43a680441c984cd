//! The status that a call ends with.
ghost use Rattle.std.specs.Prelude.{◌≡◌, ℕ, take, codes};
ghost use Rattle.mp_outside.specs.Sink.{grown};
ghost use Rattle.mp_command.specs.Ends.{SaysLine};
ghost use Rattle.mp_command_files.specs.Outcome.{line_said, status_of};
ghost use Rattle.mp_command_files.specs.Refused.{line_of, outcome_in, outcome_of};

use mp_command_files::Refusal;
use mp_outside::{Fault, Sink, write_piece};

/// How a call ended: the status of the process.
#[derive(Clone, Copy)]
pub struct Status {
    /// 0 where all is done, else the number of the refusal.
    pub code: u8,
}

/// Says how a call ended: the line of a command that is done, or why there is no answer. The status is that of the end, but where
/// `said` doesn't take the whole line: that of a write fault where the line is an answer, and that of an allocation failure where
/// `said` finds no memory.
pub fn tell<S: Sink>(end: &Result<Vec<u8>, Refusal>, said: &mut S) -> Status
    ensures { let outcome = outcome_in end.now in
        SaysLine S.written S.faults (line_said outcome) (status_of outcome) result.code said.old said.new }
{
    match end {
        Ok(line) => conclude(line.as_slice(), said),
        Err(refusal) => refuse(refusal, said),
    }
}

/// Says why there is no answer. Its status is that of the refusal, but where `said` finds no memory for the
/// line: then it is that of an allocation failure.
fn refuse<S: Sink>(refusal: &Refusal, said: &mut S) -> Status
    ensures { let own = status_of (outcome_of refusal.now) in
        SaysLine S.written S.faults (line_of refusal.now) own result.code said.old said.new }
{
    match refusal.say(said) {
        Ok(()) => Status {
            code: refusal.status(),
        },
        Err(Fault::Failed) => Status {
            code: refusal.status(),
        },
        Err(Fault::NoMemory) => Status {
            code: Refusal::NoMemory.status(),
        },
    }
}

/// Says the line of a command that is done. Its status is 0, but where `said` doesn't take the whole line:
/// then it is that of a write fault or of an allocation failure.
fn conclude<S: Sink>(line: &[u8], said: &mut S) -> Status
    ensures { SaysLine S.written S.faults line.now 0 result.code said.old said.new }
{
    match write_piece(said, line) {
        Ok(()) => Status { code: 0 },
        Err(Fault::Failed) => Status {
            code: Refusal::WriteFault.status(),
        },
        Err(Fault::NoMemory) => Status {
            code: Refusal::NoMemory.status(),
        },
    }
}

/// Ends a call for which there was no memory before its words were read.
pub fn lack_memory<S: Sink>(said: &mut S) -> Status
    ensures code { result.code ≡ 8 }
    ensures said { (k : ℕ)
        × (S.written said.new ≡ grown (S.written said.old) (take k (codes "no memory\n"))) }
{
    refuse(&Refusal::NoMemory, said)
}
