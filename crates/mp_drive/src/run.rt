//! A whole run on one thread.
ghost use Rattle.std.specs.Prelude.{◌≡◌, ◌<◌, [], IfOk, IsTrue, false, map};
ghost use Rattle.mp_model.specs.Tables.{table_of};
ghost use Rattle.mp_outline.specs.JobOutline.{outline_of};
ghost use Rattle.mp_answer_laws.specs.Runs.{RunLeaves};
ghost use Rattle.mp_schedule.specs.Schedule.{EndsAfter, IsKeptBySchedule};
ghost use Rattle.mp_tally.specs.Tallies.{AreTalliesOf};
ghost use Rattle.mp_schedule.specs.Below.{MayRun};

use mp_board::Cause;
use mp_gate::Gate;
use mp_job::Job;
use mp_model::{Naming, Query};
use mp_names::Kept;
use mp_outside::Sink;
use mp_schedule::{Plain, RunPlan, Tally, drive_seed};
use std::alloc::Global;

/// Runs a whole job on one thread by a plan and by the schedule of a seed, and writes the answer: how many steps
/// were made, of which none is kept. The query's last stage gives rows alone. `Memory`: no
/// memory, or more steps were made than a u64 counts, which no job that fits into memory has. `Write`: a
/// write failed; only where the sink's count of faults rose in this call or stands at its last value, 2^64 -
/// 1, and any other answer leaves that count as it was. With either a beginning of the answer is written.
pub fn replay<Q: Query, J: Naming, S: Sink, G: Gate>(
    alloc: Global,
    job: &Job<Q>,
    plan: RunPlan,
    seed: u64,
    gate: &G,
    sink: &mut S,
) -> Result<u64, Cause>
    requires run { MayRun (table_of Q.facts J.job) job.now J.job plan.paced }
    requires depth { 0 < plan.depth }
    ensures made { IfOk result (λ n. EndsAfter (outline_of (table_of Q.facts J.job) J.job) plan.depth seed n) }
    ensures leaves { let q = table_of Q.facts J.job in
        RunLeaves q J.job S.written S.faults S.frame result sink.old sink.new }
{
    let RunPlan { depth, paced, .. } = plan;
    let keeps = false;
    let mut plain = Plain::<Q, J>::open_by(
        alloc,
        job,
        RunPlan {
            depth,
            paced,
            keeps,
        },
    )?;
    drive_seed(&mut plain, seed, gate, sink)
}

/// What a whole run came to.
#[derive(Drop)]
pub struct Replayed {
    /// How many steps were made.
    pub steps: u64,
    /// What each worker has done, by the workers' numbers.
    pub tallies: Vec<Tally>,
    /// The steps that each worker made, by the workers' numbers, where the plan says to keep them; else nothing.
    pub kept: Vec<Vec<Kept>>,
}

/// Runs a whole job as [`replay`] does, and tells what each worker has done: the job's tallies, paced or not, and where
/// the plan says so the steps that each made. The refusals are those of `replay`; where there is no memory for what is
/// told, the whole answer is written.
pub fn replay_with_tallies<Q: Query, J: Naming, S: Sink, G: Gate>(
    alloc: Global,
    job: &Job<Q>,
    plan: RunPlan,
    seed: u64,
    gate: &G,
    sink: &mut S,
) -> Result<Replayed, Cause>
    requires run { MayRun (table_of Q.facts J.job) job.now J.job plan.paced }
    requires depth { 0 < plan.depth }
    ensures made { let o = outline_of (table_of Q.facts J.job) J.job in
        IfOk result (λ run. EndsAfter o plan.depth seed run.steps) }
    ensures tallies { IfOk result (λ run. AreTalliesOf (table_of Q.facts job.now) job.now run.tallies.items) }
    ensures kept { let o = outline_of (table_of Q.facts J.job) J.job in
        IsTrue plan.keeps
        → IfOk result (λ run. IsKeptBySchedule o plan.depth seed (map (λ kept. kept.items) run.kept.items)) }
    ensures none_kept { plan.keeps ≡ false → IfOk result (λ run. run.kept.items ≡ []) }
    ensures leaves { let q = table_of Q.facts J.job in
        RunLeaves q J.job S.written S.faults S.frame result sink.old sink.new }
{
    let mut plain = Plain::<Q, J>::open_by(alloc, job, plan)?;
    let steps = drive_seed(&mut plain, seed, gate, sink)?;
    let tallies = plain.tallies(alloc)?;
    let kept = if plan.keeps {
        plain.into_kept(alloc)?
    } else {
        Vec::new(alloc)
    };
    Ok(Replayed {
        steps,
        tallies,
        kept,
    })
}
