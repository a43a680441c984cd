//! A run that stops at a time, and what it leaves.
ghost use Rattle.std.specs.Prelude.{◌≡◌, ◌<◌, [], IfOk, None, Some, map};
ghost use Rattle.std.specs.Option.{ForSome};
ghost use Rattle.mp_model.specs.Answers.{one_thread_answer};
ghost use Rattle.mp_model.specs.Legal.{EventsAreLegal};
ghost use Rattle.mp_model.specs.Plain.{EventsArePlain};
ghost use Rattle.mp_model.specs.Tables.{table_of};
ghost use Rattle.mp_output.specs.Rows.{GivesRows};
ghost use Rattle.mp_words.specs.Limits.{AreWithinLimits};
ghost use Rattle.mp_words.specs.Values.{Until, options_in};
ghost use Rattle.mp_command.specs.Writing.{IsTextOfStop};
ghost use Rattle.mp_run_command.specs.Answered.{Answers, AnswersFile};
ghost use Rattle.mp_run_command.specs.Running.{TellsStop};
ghost use Rattle.mp_run_command.specs.Wrote.{Writes};

use crate::causes::refused_after;
use crate::flushed::once_flushed;
use mp_buffered::{Buffered, room};
use mp_command::{Refusal, SavePlan, report_to, save_to};
use mp_drive::{RunPlan, replay_with_states};
use mp_gate::Gate;
use mp_job::Job;
use mp_model::Query;
use mp_msg::BinState;
use mp_outside::{Depot, DepotSink, Sink};
use mp_saved::Saved;
use mp_tally::Tally;
use mp_threads::run_with_states;
use mp_words::{RunOptions, Schedule};
use std::marker::Brand;
use std::sync::Wait;
use std::thread::Threads;

/// What a run that stops came to.
#[derive(Drop)]
struct Stopped<C: Drop> {
    // By the workers' numbers.
    tallies: Vec<Tally>,
    // The states of the bins that each worker owns at the end, each with its stage, by the workers' numbers.
    states: Vec<Vec<(u32, BinState<C>)>>,
}

/// Runs a job that stops, and makes the files hold its answer, its report, where one is asked for, and the checkpoint of what it
/// leaves. `WriteFault`: a file couldn't be begun or appended to; `NoMemory`: no memory.
pub fn write_stopped<
    'a,
    D: Depot,
    Q: Saved + Send,
    G: Gate + Sync,
    R: Threads + Wait + Sync + AllocGlobal,
>(
    rt: &R,
    depot: &mut D,
    options: &RunOptions<'a>,
    job: &Job<Q>,
    plan: SavePlan<'a>,
    gate: &G,
) -> Result<(), Refusal<'a>>
    requires options { AreWithinLimits options.now }
    requires span { (options_in options.now).span ≡ Until plan.time plan.save.now }
    requires rows { GivesRows (table_of Q.facts job.now) }
    requires stops { job.now.until ≡ Some plan.time }
    requires fresh { job.now.from ≡ None }
    requires events { EventsAreLegal job.now.events }
    requires plain { EventsArePlain job.now.events }
    ensures { let IsText = IsTextOfStop Q.NUMBER Q.text_of Q.facts job.now.values job.now plan.entry.time in
        Writes D.files D.write_faults IsText (options_in options.now) result depot.old depot.new }
{
    let run = answer_stopped(rt, depot, options, job, gate)?;
    report_to(
        rt.alloc(),
        depot,
        options.report,
        job,
        run.tallies.as_slice(),
    )?;
    save_to(rt.alloc(), depot, plan, job, run.states)
}

/// Runs a job as the command asks, at its depth, paced or not, and makes the file hold the answer: what the run came to, with what the
/// bins have at the job's end. `WriteFault`: the file couldn't be begun or appended to; `NoMemory`: no memory.
fn answer_stopped<
    'a,
    D: Depot,
    Q: Query + Send,
    G: Gate + Sync,
    R: Threads + Wait + Sync + AllocGlobal,
>(
    rt: &R,
    depot: &mut D,
    options: &RunOptions<'a>,
    job: &Job<Q>,
    gate: &G,
) -> Result<Stopped<Q::Cell>, Refusal<'a>>
    requires options { AreWithinLimits options.now }
    requires rows { GivesRows (table_of Q.facts job.now) }
    ensures tells { IfOk result (λ run.
        TellsStop (table_of Q.facts job.now) job.now run.tallies.items (map (λ own. own.items) run.states.items)) }
    ensures leaves { let answer = one_thread_answer (table_of Q.facts job.now) job.now.events in
        AnswersFile D.files D.write_faults options.now.out.now answer result depot.old depot.new }
{
    depot.begin(options.out)?;
    let mut sink = DepotSink::new(depot, options.out);
    stop_gathered(rt, options, job, gate, &mut sink)
}

/// The same as [`stop_into`], of a sink to which nothing was written, but that the answer is gathered before it is written: what
/// waits at the run's end is written then.
fn stop_gathered<
    'a,
    Q: Query + Send,
    G: Gate + Sync,
    S: Sink,
    R: Threads + Wait + Sync + AllocGlobal,
>(
    rt: &R,
    options: &RunOptions<'a>,
    job: &Job<Q>,
    gate: &G,
    sink: &mut S,
) -> Result<Stopped<Q::Cell>, Refusal<'a>>
    requires depth { 0 < options.now.depth }
    requires rows { GivesRows (table_of Q.facts job.now) }
    requires begun { ForSome (S.written sink.old) (λ bytes. bytes ≡ []) }
    ensures tells { IfOk result (λ run.
        TellsStop (table_of Q.facts job.now) job.now run.tallies.items (map (λ own. own.items) run.states.items)) }
    ensures leaves { Answers (table_of Q.facts job.now) job.now.events S.written S.faults S.frame
        result sink.old sink.new }
{
    let mut waits = room(rt.alloc())?;
    let mut front = Buffered::new(sink, &mut waits);
    let ran = stop_into(rt, options, job, gate, &mut front);
    let flushed = front.flush();
    once_flushed(ran, flushed)
}

/// Runs a job as the command asks, at its depth, paced or not, and writes the answer: what the run came to, with what the bins have at
/// the job's end. `WriteFault`: a write failed; `NoMemory`: no memory. With either a beginning of the answer is written.
fn stop_into<'a, Q: Query + Send, G: Gate + Sync, S: Sink, R: Threads + Wait + Sync + AllocGlobal>(
    rt: &R,
    options: &RunOptions<'a>,
    job: &Job<Q>,
    gate: &G,
    sink: &mut S,
) -> Result<Stopped<Q::Cell>, Refusal<'a>>
    requires depth { 0 < options.now.depth }
    requires rows { GivesRows (table_of Q.facts job.now) }
    ensures tells { IfOk result (λ run.
        TellsStop (table_of Q.facts job.now) job.now run.tallies.items (map (λ own. own.items) run.states.items)) }
    ensures leaves { Answers (table_of Q.facts job.now) job.now.events S.written S.faults S.frame
        result sink.old sink.new }
{
    let plan = RunPlan {
        depth: options.depth,
        paced: options.paced,
        keeps: false,
    };
    match options.schedule {
        Schedule::Threads => {
            match run_with_states::<Q, Brand, _, _, _>(rt, rt.alloc(), job, plan, gate, sink) {
                Ok(run) => Ok(Stopped {
                    tallies: run.tallies,
                    states: run.states,
                }),
                Err(cause) => Err(refused_after(cause)),
            }
        }
        Schedule::Seeded(seed) => {
            match replay_with_states::<Q, Brand, _, _>(rt.alloc(), job, plan, seed, gate, sink) {
                Ok(run) => Ok(Stopped {
                    tallies: run.tallies,
                    states: run.states,
                }),
                Err(cause) => Err(refused_after(cause)),
            }
        }
    }
}
