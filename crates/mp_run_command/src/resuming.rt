//! A run that goes on from a checkpoint.
ghost use Rattle.std.specs.Prelude.{◌≡◌};
ghost use Rattle.mp_model.specs.Tables.{table_of};
ghost use Rattle.mp_output.specs.Rows.{GivesRows};
ghost use Rattle.mp_words.specs.Limits.{AreWithinLimits};
ghost use Rattle.mp_words.specs.Values.{From, options_in};
ghost use Rattle.mp_command.specs.Writing.{IsTextOfRest};
ghost use Rattle.mp_run_command.specs.Wrote.{Writes};

use crate::running::answer_to;
use mp_command::{Refusal, report_to};
use mp_gate::Gate;
use mp_job::Job;
use mp_model::Query;
use mp_outside::Depot;
use mp_words::RunOptions;
use std::sync::Wait;
use std::thread::Threads;

/// Runs a job that goes on from the checkpoint of this name, and makes the files hold its answer and its report, where one is asked for.
/// `WriteFault`: a file couldn't be begun or appended to; `NoMemory`: no memory.
pub fn write_rest<
    'a,
    D: Depot,
    Q: Query + Send,
    G: Gate + Sync,
    R: Threads + Wait + Sync + AllocGlobal,
>(
    rt: &R,
    depot: &mut D,
    options: &RunOptions<'a>,
    job: &Job<Q>,
    name: &'a str,
    gate: &G,
) -> Result<(), Refusal<'a>>
    requires options { AreWithinLimits options.now }
    requires span { (options_in options.now).span ≡ From name.now }
    requires rows { GivesRows (table_of Q.facts job.now) }
    ensures { let IsText = IsTextOfRest Q.facts job.now in
        Writes D.files D.write_faults IsText (options_in options.now) result depot.old depot.new }
{
    let run = answer_to(rt, depot, options, job, gate)?;
    report_to(
        rt.alloc(),
        depot,
        options.report,
        job,
        run.tallies.as_slice(),
    )
}
