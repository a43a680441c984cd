//! The commands `run` and `replay`: the files that they read, and those that they write.
ghost use Rattle.std.specs.Prelude.{◌≡◌, Some};
ghost use Rattle.mp_words.specs.Limits.{AreWithinLimits};
ghost use Rattle.mp_words.specs.Values.{options_in};
ghost use Rattle.mp_words.specs.Words.{Run};
ghost use Rattle.mp_run_command.specs.Keeping.{IsKeptBy};
ghost use Rattle.mp_command.specs.Ends.{CameTo, Leaves};
ghost use Rattle.mp_command_files.specs.Refused.{outcome_in};

use crate::writing::write_answer;
use mp_command::{Refusal, read_run};
use mp_events_threads::OnThreads;
use mp_gate::Gate;
use mp_outside::Depot;
use mp_words::{RunOptions, Schedule};
use std::sync::Wait;
use std::thread::Threads;

/// Carries out a run: reads its files, the events on as many threads as the run has, and writes the answer and what else is asked
/// for. It says nothing.
pub fn answer<'a, D: Depot, G: Gate + Sync, R: Threads + Wait + Sync + AllocGlobal>(
    rt: &R,
    depot: &mut D,
    options: &RunOptions<'a>,
    gate: &G,
) -> Result<Vec<u8>, Refusal<'a>>
    requires { AreWithinLimits options.now }
    ensures came { CameTo D.files D.found D.read_faults D.write_faults
        (Some (Run (options_in options.now))) (outcome_in result) depot.old depot.new }
    ensures left { Leaves IsKeptBy (Run (options_in options.now)) (outcome_in result)
        (D.files depot.old) (D.files depot.new) }
{
    let reader = OnThreads::new(rt, reading_threads(options));
    let read = read_run(rt.alloc(), depot, options, &reader)?;
    write_answer(rt, depot, options, read, gate)?;
    Ok(Vec::new(rt.alloc()))
}

// On how many threads a run reads its events: one for each worker, where the workers are on threads.
fn reading_threads(options: &RunOptions) -> u32 {
    match options.schedule {
        Schedule::Threads => options.workers,
        Schedule::Seeded(_) => 1,
    }
}
