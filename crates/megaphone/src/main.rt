//! Layer: the command.
//!
//! The program: the words of the command line, the files of the system and standard output. Its workers run on threads,
//! but for `replay`.
#![tactic(auto)]

ghost use Rattle.std.specs.Prelude.{◌≡◌, None};
ghost use Rattle.std.specs.Process.{exit_status};
ghost use Rattle.mp_outside.specs.Files.{SameFiles};
ghost use Rattle.mp_words.specs.Words.{command_in};
ghost use Rattle.mp_cli.specs.Keeping.{IsKeptBy};
ghost use Rattle.mp_command.specs.Ends.{CameTo, ComesWhere, IsCommandAnswered, IsRefusal, SaysLine};
ghost use Rattle.mp_command_files.specs.Outcome.{Outcome, line_said, status_of};

use mp_cli::run;
use mp_command::lack_memory;
use mp_gate::OpenGate;
use mp_outside::{Depot, HostDepot, HostOut, Sink};
use std::env;
use std::io::{self, ErrorKind};
use std::process::ExitCode;
use std::rt::Env;
use std::sync::Wait;
use std::thread::Threads;

fn main(rt: HostRuntime) -> ExitCode {
    let mut depot = HostDepot::new(&rt);
    let mut said = HostOut::new(&rt);
    match words(&rt) {
        Ok(words) => answer(&rt, words.as_slice(), &mut depot, &mut said),
        Err(error) if error.kind() == ErrorKind::OutOfMemory => want_memory(&mut said),
        // A word that isn't UTF-8 is no word of a command.
        Err(_) => answer(&rt, Vec::new(rt.alloc()).as_slice(), &mut depot, &mut said),
    }
}

/// The words of the command line, the program's name first.
fn words(rt: &(impl Env + AllocGlobal)) -> io::Result<Vec<String>> {
    Ok(env::args(rt)?.collect(rt.alloc())?)
}

/// Does what the words ask for, and ends with its status.
fn answer<D: Depot, S: Sink, R: Threads + Wait + Sync + AllocGlobal>(
    rt: &R,
    words: &[String],
    depot: &mut D,
    said: &mut S,
) -> ExitCode
    ensures usage { ComesWhere 2 (exit_status result) (command_in words.now ≡ None) }
    ensures answer { exit_status result ≡ 0
        → IsCommandAnswered IsKeptBy (command_in words.now) (D.files depot.old) (D.files depot.new) }
    ensures untouched { IsRefusal (exit_status result) → SameFiles (D.files depot.old) (D.files depot.new) }
    ensures said { (outcome : Outcome)
        × CameTo D.files D.found D.read_faults D.write_faults
        (command_in words.now) outcome depot.old depot.new
        × SaysLine S.written S.faults
        (line_said outcome) (status_of outcome) (exit_status result) said.old said.new }
{
    let status = run(rt, words, depot, said, &OpenGate);
    ExitCode::from(status.code)
}

/// Ends where there was no memory for the words.
fn want_memory<S: Sink>(said: &mut S) -> ExitCode
    ensures { exit_status result ≡ 8 }
{
    ExitCode::from(lack_memory(said).code)
}
