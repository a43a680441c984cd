//! The run of a job, and the answer's way into its file.
ghost use Rattle.std.specs.Prelude.{◌≡◌, ◌<◌, [], IfOk};
ghost use Rattle.std.specs.Option.{ForSome};
ghost use Rattle.mp_model.specs.Answers.{one_thread_answer};
ghost use Rattle.mp_model.specs.Tables.{table_of};
ghost use Rattle.mp_output.specs.Rows.{GivesRows};
ghost use Rattle.mp_words.specs.Limits.{AreWithinLimits};
ghost use Rattle.mp_words.specs.Values.{options_in};
ghost use Rattle.mp_run_command.specs.Answered.{Answers, AnswersFile};
ghost use Rattle.mp_run_command.specs.Running.{TellsRun};

use crate::causes::refused_after;
use crate::flushed::once_flushed;
use mp_buffered::{Buffered, room};
use mp_command::Refusal;
use mp_drive::{Replayed, RunPlan, replay_with_tallies};
use mp_gate::Gate;
use mp_job::Job;
use mp_model::Query;
use mp_names::Kept;
use mp_outside::{Depot, DepotSink, Fault, Sink};
use mp_tally::Tally;
use mp_threads::run_with_tallies;
use mp_words::{RunOptions, Schedule};
use std::marker::Brand;
use std::sync::Wait;
use std::thread::Threads;

/// What a run came to.
#[derive(Drop)]
pub struct Ran {
    /// How many steps the workers made by the schedule of a seed. `None` on threads, whose steps aren't counted.
    pub steps: Option<u64>,
    /// What each worker has done, by the workers' numbers.
    pub tallies: Vec<Tally>,
    /// The steps that each worker made, by the workers' numbers, where a journal is asked for; else nothing.
    pub kept: Vec<Vec<Kept>>,
}

/// Runs a job as the command asks, at its depth, paced or not, and makes the file hold the answer: what the run came to. Its workers
/// keep their steps where a journal is asked for.
/// `WriteFault`: the file couldn't be begun or appended to; `NoMemory`: no memory.
pub fn answer_to<
    'a,
    D: Depot,
    Q: Query + Send,
    G: Gate + Sync,
    R: Threads + Wait + Sync + AllocGlobal,
>(
    rt: &R,
    depot: &mut D,
    options: &RunOptions<'a>,
    job: &Job<Q>,
    gate: &G,
) -> Result<Ran, Refusal<'a>>
    requires options { AreWithinLimits options.now }
    requires rows { GivesRows (table_of Q.facts job.now) }
    ensures tells { IfOk result (λ run. TellsRun (table_of Q.facts job.now) job.now (options_in options.now) run) }
    ensures leaves { let answer = one_thread_answer (table_of Q.facts job.now) job.now.events in
        AnswersFile D.files D.write_faults options.now.out.now answer result depot.old depot.new }
{
    depot.begin(options.out)?;
    let mut sink = DepotSink::new(depot, options.out);
    run_gathered(rt, options, job, gate, &mut sink)
}

/// The same as [`run_into`], of a sink to which nothing was written, but that the answer is gathered before it is written: what
/// waits at the run's end is written then.
fn run_gathered<
    'a,
    Q: Query + Send,
    G: Gate + Sync,
    S: Sink,
    R: Threads + Wait + Sync + AllocGlobal,
>(
    rt: &R,
    options: &RunOptions<'a>,
    job: &Job<Q>,
    gate: &G,
    sink: &mut S,
) -> Result<Ran, Refusal<'a>>
    requires depth { 0 < options.now.depth }
    requires rows { GivesRows (table_of Q.facts job.now) }
    requires begun { ForSome (S.written sink.old) (λ bytes. bytes ≡ []) }
    ensures tells { IfOk result (λ run. TellsRun (table_of Q.facts job.now) job.now (options_in options.now) run) }
    ensures leaves { Answers (table_of Q.facts job.now) job.now.events S.written S.faults S.frame
        result sink.old sink.new }
{
    let mut waits = room(rt.alloc())?;
    let mut front = Buffered::new(sink, &mut waits);
    let ran = run_into(rt, options, job, gate, &mut front);
    let flushed = front.flush();
    once_flushed(ran, flushed)
}

/// Runs a job as the command asks, at its depth, paced or not, and writes the answer: what the run came to. `WriteFault`: a write
/// failed; `NoMemory`: no memory. With either a beginning of the answer is written.
fn run_into<'a, Q: Query + Send, G: Gate + Sync, S: Sink, R: Threads + Wait + Sync + AllocGlobal>(
    rt: &R,
    options: &RunOptions<'a>,
    job: &Job<Q>,
    gate: &G,
    sink: &mut S,
) -> Result<Ran, Refusal<'a>>
    requires depth { 0 < options.now.depth }
    requires rows { GivesRows (table_of Q.facts job.now) }
    ensures tells { IfOk result (λ run. TellsRun (table_of Q.facts job.now) job.now (options_in options.now) run) }
    ensures leaves { Answers (table_of Q.facts job.now) job.now.events S.written S.faults S.frame
        result sink.old sink.new }
{
    let plan = RunPlan {
        depth: options.depth,
        paced: options.paced,
        keeps: options.journal.is_some(),
    };
    match options.schedule {
        Schedule::Threads => {
            match run_with_tallies::<Q, Brand, _, _, _>(rt, rt.alloc(), job, plan, gate, sink) {
                Ok(run) => Ok(Ran {
                    steps: None,
                    tallies: run.tallies,
                    kept: run.kept,
                }),
                Err(cause) => Err(refused_after(cause)),
            }
        }
        Schedule::Seeded(seed) => {
            match replay_with_tallies::<Q, Brand, _, _>(rt.alloc(), job, plan, seed, gate, sink) {
                Ok(run) => Ok(Ran {
                    steps: Some(run.steps),
                    tallies: run.tallies,
                    kept: run.kept,
                }),
                Err(cause) => Err(refused_after(cause)),
            }
        }
    }
}
