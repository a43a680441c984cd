//! The top call.
ghost use Rattle.std.specs.Prelude.{◌≡◌, ◌⊎◌, Some, None, IsSome, IsSomeAnd, OnSome, IfSome};
ghost use Rattle.mp_outside.specs.Fault.{Rose};
ghost use Rattle.mp_outside.specs.Files.{SameFiles};
ghost use Rattle.mp_outside.specs.Sink.{grown};
ghost use Rattle.mp_words.specs.Words.{Asked, command_in};
ghost use Rattle.mp_run_command.specs.Keeping.{IsKeptBy};
ghost use Rattle.mp_command.specs.Audits.{refuted_end};
ghost use Rattle.mp_command.specs.Ends.{CameTo, ComesWhere, IsCommandAnswered, IsCommandAnsweredInPart, IsCommandRefuted};
ghost use Rattle.mp_command.specs.Ends.{IsRefusal, LacksInput, OthersStay, SaysAnswer, SaysLine, WritesFile};
ghost use Rattle.mp_command.specs.Calls.{MayCome, called_for};
ghost use Rattle.mp_command_files.specs.Outcome.{Outcome, line_said, status_of};

use crate::serve::serve;
use mp_command::{Status, tell};
use mp_gate::Gate;
use mp_outside::{Depot, Sink};
use std::sync::Wait;
use std::thread::Threads;

/// Does what the words of the command line ask for, on the files of a depot. `words` begins with the
/// program's name. A refusal says one line on `said`; `check`, `demo` and `audit` say theirs there.
///
/// The command is `run` or `replay` with `--query` (`q1` to `q8`, or `pipe` with `--pipe`), `--events`, `--config` and
/// `--out`, and perhaps `--report`, `--journal`, `--workers` (1, up to 64), `--bins` (16, a power of two up to 4096),
/// `--depth` (64, up to 1024) and the flag `--paced`; `replay` also takes `--seed` (0, up to 2^48). In a paced run
/// control records of a time wait until the moves of earlier times have arrived; the answer is the same. The report
/// is begun where the whole answer is written, and the journal behind it: by worker a line for each step. In that of
/// `run` a worker has as many steps of a kind as it has names of that kind, but of those that route, receive and
/// exchange, and the versions of its exchanges ascend.
///
/// With `--until` (a time from 1 to 2^47) and `--save` a run of a query of a name, without `--journal`, stops: its answer
/// has the lines of times before that one, and behind the report it writes to the name of `--save` a checkpoint of the
/// cells and wakes that are left. With `--from` such a run goes on from the checkpoint of that name, which it reads behind
/// the configuration: its answer has the lines that are left. The two answers, one behind the other, are the whole one.
/// Workers, bins, first owners and control records may differ between the two.
///
/// `check` reads what a whole run reads; `make` writes events that are made from `--seed`, so many as `--count` says (up
/// to 1,000,000), to `--out`; `demo` makes events, runs them in memory and says a summary of the answer. `audit` has the
/// options of a whole `run` but `--report`; it reads what that reads, and then `--out` and `--journal`, and says how many
/// steps the journal has, where some order of all of them is a run that writes this answer.
///
/// The statuses are this project's profile: 0 all is done; 2 the words are no command; 3 the event file has a bad line; 4
/// the configuration has a bad line; 5 a file isn't there; 6 a find or a read failed; 7 a begin or an append failed, or a
/// write to `said` of what is its answer; 8 an allocation failed; 9 a file has more than 2^28 bytes; 11 the file that a run
/// goes on from is no checkpoint of its query with the values of the configuration; 12 the pipeline's file has a bad line,
/// or ends without a stage; 13 no order of a journal's steps is a run that writes the answer; 14 the journal has a bad
/// line. The refusals 3, 4, 12 and 14 say the number of the first bad line and the first check that it fails.
///
/// `run` and `demo` work on threads, one for each worker: this one drives worker 0, and each worker for which no thread
/// could be made. They wait for these threads, and for each other. `replay` works on this thread alone, where the
/// workers take turns by the schedule of the seed. Workers pass the gate before each step.
pub fn run<D: Depot, S: Sink, G: Gate + Sync, R: Threads + Wait + Sync + AllocGlobal>(
    rt: &R,
    words: &[String],
    depot: &mut D,
    said: &mut S,
    gate: &G,
) -> Status
    // Words that are no command are refused, and no others.
    ensures usage { ComesWhere 2 result.code (command_in words.now ≡ None) }
    // What a command ends as follows from the files, where the depot tells them, in the order of the checks.
    ensures outcome { (outcome : Outcome) × MayCome (command_in words.now) (D.files depot.old) outcome
        × (status_of outcome ≡ result.code) }
    ensures not_found { result.code ≡ 5 → LacksInput D.found (command_in words.now) depot.new }
    ensures read_fault { result.code ≡ 6 → Rose (D.read_faults depot.old) (D.read_faults depot.new) }
    ensures write_fault { WritesFile (command_in words.now) → result.code ≡ 7
        → Rose (D.write_faults depot.old) (D.write_faults depot.new) }
    ensures said_fault { SaysAnswer (command_in words.now) → result.code ≡ 7
        → Rose (S.faults said.old) (S.faults said.new) }
    // Well-formed input is answered, but for a fault of the depot, or of `said` where it takes the answer, or an
    // allocation failure; `audit` answers by status 0 or 13, and a run that goes on from a checkpoint by 0 or 11.
    ensures complete { (asked : Asked) → command_in words.now ≡ Some asked
        → IsSome (D.files depot.old) → status_of (called_for (D.files depot.old) asked) ≡ 0
        → ¬ (Rose (D.read_faults depot.old) (D.read_faults depot.new))
        → ¬ (Rose (D.write_faults depot.old) (D.write_faults depot.new))
        → ¬ (SaysAnswer (Some asked) × Rose (S.faults said.old) (S.faults said.new))
        → (result.code ≡ 0) ⊎ ((result.code ≡ 8) ⊎ IsSomeAnd (refuted_end asked) (λ outcome. result.code ≡ status_of outcome)) }

    // The answer theorem: what a run that answers 0 wrote is exactly the query's one-thread answer to the events, with the
    // values that the configuration gives to the query's rules, or that of the pipeline that its file says; and the report,
    // where one is asked for, of the job with its first owners and control records; and the journal, where one is asked for,
    // tells the steps of its workers: of `replay` those of the seed's schedule; of `run` for each worker as many of a kind as it
    // has names of that kind, but of those that route, receive and exchange, where of writes only worker 0 has some; and its
    // exchanges have ascending versions. Of a run that stops at a time it is the lines of that answer below the time; and what is
    // saved is the file of a checkpoint that holds the cells just before that time and the wakes that are left. A run that goes
    // on has read the file of a checkpoint, and wrote the one-thread answer of the job that goes on from it. `check` has then
    // found its files well-formed, and `make` has written the lines of the events that are made. Of `audit` some order of all
    // steps of the journal is a run of the job of the files, and the answer is the one-thread answer.
    ensures answer { result.code ≡ 0
        → IsCommandAnswered IsKeptBy (command_in words.now) (D.files depot.old) (D.files depot.new) }
    // An audit refutes a journal only where no order of its steps is such a run, or the answer is another.
    ensures no_run { result.code ≡ 13 → IsCommandRefuted (command_in words.now) (D.files depot.old) }
    // A run refuses what it goes on from only where these bytes are the file of no checkpoint of its query with these values.
    ensures bad_checkpoint { result.code ≡ 11 → IsCommandRefuted (command_in words.now) (D.files depot.old) }
    ensures untouched { IsRefusal result.code → SameFiles (D.files depot.old) (D.files depot.new) }
    ensures part { (result.code ≡ 7) ⊎ (result.code ≡ 8)
        → IsCommandAnsweredInPart IsKeptBy (command_in words.now) (D.files depot.old) (D.files depot.new) }
    ensures others { OthersStay (command_in words.now) (D.files depot.old) (D.files depot.new) }

    // With status 0 what is said is what the command calls for: of `check` how much the files hold, of `demo` the
    // summary of the one-thread answer, of `audit` how many steps the journal has, of the others nothing.
    ensures printed { result.code ≡ 0 → OnSome (D.files depot.old) (IfSome (command_in words.now) (λ asked.
        S.written said.new
        ≡ grown (S.written said.old) (line_said (called_for (D.files depot.old) asked)))) }
    // What is said is the line of what the command came to, with its status, but where `said` doesn't take the whole
    // line of an answer, or finds no memory for a line.
    ensures said { (outcome : Outcome)
        × CameTo D.files D.found D.read_faults D.write_faults
        (command_in words.now) outcome depot.old depot.new
        × SaysLine S.written S.faults
        (line_said outcome) (status_of outcome) result.code said.old said.new }
{
    let end = serve(rt, words, depot, gate);
    tell(&end, said)
}
