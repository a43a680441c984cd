//! Why a command gives no answer, and the line that says so.
ghost use Rattle.std.specs.Prelude.{◌≡◌, ◌++◌, ◌<◌, ℕ, codes, length, take, OnOk, OnErr};
ghost use Rattle.std.specs.Fmt.{decimal};
ghost use Rattle.std.specs.List.{flat_map};
ghost use Rattle.mp_outside.specs.Fault.{HasCause};
ghost use Rattle.mp_outside.specs.Sink.{grown};
ghost use Rattle.mp_command_files.specs.Outcome.{number_in, status_of};
ghost use Rattle.mp_command_files.specs.Refused.{line_of, outcome_of};

use mp_control::ControlReason;
use mp_events::EventsReason;
use mp_journal::JournalReason;
use mp_outside::{Fault, Sink, write_piece};
use mp_pipe_file::PipeReason;

/// Why a command gives no answer.
#[derive(Clone, Copy)]
pub enum Refusal<'a> {
    /// The words are no command.
    Usage,
    /// The event file has a first bad line.
    EventsRefused { line: u64, why: EventsReason },
    /// The configuration has a first bad line.
    ConfigRefused { line: u64, why: ControlReason },
    /// The file of this name isn't there.
    NoFile(&'a str),
    /// A find or a read failed.
    ReadFault,
    /// A begin or an append failed.
    WriteFault,
    /// There was no memory.
    NoMemory,
    /// The file of this name has more bytes than are allowed.
    TooLarge(&'a str),
    /// The file of this name, which a run goes on from, is that of no checkpoint of its query.
    BadCheckpoint(&'a str),
    /// The pipeline's file has a first bad line, or ends without a stage.
    PipeRefused { line: u64, why: PipeReason },
    /// The journal isn't that of a run that writes the answer.
    NoRun,
    /// The journal has a first bad line.
    JournalRefused { line: u64, why: JournalReason },
}

impl<'a> Refusal<'a> {
    /// The status of the process.
    pub fn status(&self) -> u8
        ensures { result ≡ status_of (outcome_of self.now) }
    {
        match self {
            Refusal::Usage => 2,
            Refusal::EventsRefused { .. } => 3,
            Refusal::ConfigRefused { .. } => 4,
            Refusal::NoFile(_) => 5,
            Refusal::ReadFault => 6,
            Refusal::WriteFault => 7,
            Refusal::NoMemory => 8,
            Refusal::TooLarge(_) => 9,
            Refusal::BadCheckpoint(_) => 11,
            Refusal::PipeRefused { .. } => 12,
            Refusal::NoRun => 13,
            Refusal::JournalRefused { .. } => 14,
        }
    }

    /// The number of the line that it speaks of, and 0 where it speaks of none.
    fn line_number(&self) -> u64
        ensures { result ≡ number_in (outcome_of self.now) }
    {
        match self {
            Refusal::EventsRefused { line, .. } => *line,
            Refusal::ConfigRefused { line, .. } => *line,
            Refusal::PipeRefused { line, .. } => *line,
            Refusal::JournalRefused { line, .. } => *line,
            _ => 0,
        }
    }

    /// The words of its line, in four parts. `digits` says the number of the line that it speaks of.
    fn words<'b>(&'b self, digits: &'b str) -> (&'b str, &'b str, &'b str, &'b str)
        requires { digits.now ≡ decimal (number_in (outcome_of self.now)) }
        ensures { line_of self.now
            ≡ result.0.now ++ (result.1.now ++ (result.2.now ++ (result.3.now ++ codes "\n"))) }
    {
        match self {
            Refusal::Usage => (
                "usage: megaphone run|replay|check|make|demo|audit",
                "",
                "",
                "",
            ),
            Refusal::EventsRefused { why, .. } => ("events line ", digits, ": ", why.text()),
            Refusal::ConfigRefused { why, .. } => ("config line ", digits, ": ", why.text()),
            Refusal::NoFile(name) => ("no file ", *name, "", ""),
            Refusal::ReadFault => ("read fault", "", "", ""),
            Refusal::WriteFault => ("write fault", "", "", ""),
            Refusal::NoMemory => ("no memory", "", "", ""),
            Refusal::TooLarge(name) => ("too large: ", *name, "", ""),
            Refusal::BadCheckpoint(name) => ("bad checkpoint ", *name, "", ""),
            Refusal::PipeRefused { why, .. } => ("pipe line ", digits, ": ", why.text()),
            Refusal::NoRun => ("no legal run", "", "", ""),
            Refusal::JournalRefused { why, .. } => ("journal line ", digits, ": ", why.text()),
        }
    }

    /// Writes its line, without taking memory. `Failed` and `NoMemory`: those of the sink; a part of the line
    /// may be written, and not all of it.
    pub fn say<S: Sink>(&self, said: &mut S) -> Result<(), Fault>
        ensures whole { OnOk result (S.written said.new ≡ grown (S.written said.old) (line_of self.now)) }
        ensures part { OnErr result ((k : ℕ) × (k < length (line_of self.now))
            × (S.written said.new ≡ grown (S.written said.old) (take k (line_of self.now)))) }
        ensures cause { HasCause (S.faults said.old) (S.faults said.new) result }
    {
        let mut digits = itoa::Buffer::new();
        let (before, subject, between, reason) = self.words(digits.format(self.line_number()));
        let parts = [before, subject, between, reason, "\n"];
        say_parts(said, parts.as_slice())
    }
}

/// Writes the parts of a line, one after the other.
fn say_parts<S: Sink>(said: &mut S, parts: &[&str]) -> Result<(), Fault>
    ensures whole { OnOk result
        (S.written said.new ≡ grown (S.written said.old) (flat_map (λ part. part.now) parts.now)) }
    ensures part { let line = flat_map (λ part. part.now) parts.now in OnErr result ((k : ℕ)
        × (k < length line) × (S.written said.new ≡ grown (S.written said.old) (take k line))) }
    ensures cause { HasCause (S.faults said.old) (S.faults said.new) result }
{
    for part in parts {
        write_piece(said, part.as_bytes())?;
    }
    Ok(())
}
