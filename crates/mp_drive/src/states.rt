//! A whole run on one thread, with what the bins have at its end.
ghost use Rattle.std.specs.Prelude.{◌<◌, IfOk, map};
ghost use Rattle.mp_model.specs.Tables.{table_of};
ghost use Rattle.mp_msg.specs.LastStates.{AreAllStates};
ghost use Rattle.mp_outline.specs.JobOutline.{outline_of};
ghost use Rattle.mp_answer_laws.specs.Runs.{RunLeaves};
ghost use Rattle.mp_schedule.specs.Schedule.{EndsAfter};
ghost use Rattle.mp_tally.specs.Tallies.{AreTalliesOf};
ghost use Rattle.mp_schedule.specs.Below.{MayRun};

use mp_board::Cause;
use mp_gate::Gate;
use mp_job::Job;
use mp_model::{Naming, Query};
use mp_msg::BinState;
use mp_outside::Sink;
use mp_schedule::{Plain, RunPlan, Tally, drive_seed};
use std::alloc::Global;

/// What a whole run came to, with what the bins have at its end.
#[derive(Drop)]
pub struct ReplayedStates<C: Drop> {
    /// How many steps were made.
    pub steps: u64,
    /// What each worker has done, by the workers' numbers.
    pub tallies: Vec<Tally>,
    /// The states of the bins that each worker owns at the end, each with its stage, by the workers' numbers.
    pub states: Vec<Vec<(u32, BinState<C>)>>,
}

/// Runs a whole job as [`replay`](crate::replay) does, and gives what each worker has done and what the bins have at the
/// job's end, just before its stop time or after all where it has none; of a paced run too. No steps are given. The
/// refusals are those of `replay`; where there is no memory for what is given, the whole answer is written.
pub fn replay_with_states<Q: Query, J: Naming, S: Sink, G: Gate>(
    alloc: Global,
    job: &Job<Q>,
    plan: RunPlan,
    seed: u64,
    gate: &G,
    sink: &mut S,
) -> Result<ReplayedStates<Q::Cell>, Cause>
    requires run { MayRun (table_of Q.facts J.job) job.now J.job plan.paced }
    requires depth { 0 < plan.depth }
    ensures made { let o = outline_of (table_of Q.facts J.job) J.job in
        IfOk result (λ run. EndsAfter o plan.depth seed run.steps) }
    ensures tallies { IfOk result (λ run. AreTalliesOf (table_of Q.facts job.now) job.now run.tallies.items) }
    ensures states { IfOk result (λ run. AreAllStates (table_of Q.facts job.now) job.now (map (λ own. own.items) run.states.items)) }
    ensures leaves { let q = table_of Q.facts J.job in
        RunLeaves q J.job S.written S.faults S.frame result sink.old sink.new }
{
    let mut plain = Plain::<Q, J>::open_by(alloc, job, plan)?;
    let steps = drive_seed(&mut plain, seed, gate, sink)?;
    let tallies = plain.tallies(alloc)?;
    let states = plain.into_states(alloc)?;
    Ok(ReplayedStates {
        steps,
        tallies,
        states,
    })
}
