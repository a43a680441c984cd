//! The way of what a job leaves into its file.
ghost use Rattle.std.specs.Prelude.{◌≡◌, ◌∷◌, [], IfErr, IfOk, None, OnErr, OnOk, Some, map};
ghost use Rattle.mp_checkpoint_laws.specs.Files.{CheckpointFits};
ghost use Rattle.mp_model.specs.Plain.{EventsArePlain};
ghost use Rattle.mp_model.specs.Tables.{table_of};
ghost use Rattle.mp_msg.specs.LastStates.{AreAllStates};
ghost use Rattle.mp_outside.specs.Fault.{Rose};
ghost use Rattle.mp_command_files.specs.Outcome.{StopsAnswer};
ghost use Rattle.mp_command_files.specs.Refused.{EndsAs, outcome_of};
ghost use Rattle.mp_command.specs.Spans.{IsLeftAt, IsSaveOf, format_by};
ghost use Rattle.mp_command.specs.Writing.{WritesAll, WritesSome, save_at};

use mp_checkpoint::write_checkpoint;
use mp_collect::collect;
use mp_command_files::Refusal;
use mp_job::{Job, Time};
use mp_model::Naming;
use mp_msg::BinState;
use mp_opening::Checkpoint;
use mp_outside::{Depot, DepotSink};
use mp_saved::Saved;
use std::alloc::{AllocError, Global};
use std::marker::Brand;

/// When a run stops, and where what it leaves is saved to.
#[derive(Clone, Copy)]
pub struct SavePlan<'a> {
    /// In units of the event file.
    pub time: Time,
    /// The name of the file.
    pub save: &'a str,
}

/// Makes the file of a plan hold the checkpoint of what the events of a job leave at its stop time. The states are those that its
/// workers have at their end, by their numbers, each with its stage. `WriteFault`: the file couldn't be begun or appended to; `NoMemory`:
/// no memory.
pub fn save_to<'a, D: Depot, Q: Saved>(
    alloc: Global,
    depot: &mut D,
    plan: SavePlan<'a>,
    job: &Job<Q>,
    states: Vec<Vec<(u32, BinState<Q::Cell>)>>,
) -> Result<(), Refusal<'a>>
    requires stops { job.now.until ≡ Some plan.time }
    requires fresh { job.now.from ≡ None }
    requires plain { EventsArePlain job.now.events }
    requires states { AreAllStates (table_of Q.facts job.now) job.now (map (λ own. own.items) states.items) }
    ensures whole { OnOk result
        (WritesAll (λ _. IsSaveOf Q.NUMBER Q.text_of Q.facts job.now.values job.now.events plan.entry.time) (save_at plan.entry.save.now ∷ []) (D.files depot.old) (D.files depot.new)) }
    ensures part { OnErr result
        (WritesSome (λ _. IsSaveOf Q.NUMBER Q.text_of Q.facts job.now.values job.now.events plan.entry.time) (save_at plan.entry.save.now ∷ []) (D.files depot.old) (D.files depot.new)) }
    ensures refused { IfErr result (λ r. StopsAnswer (outcome_of r)) }

    ensures failed { IfErr result (λ r. EndsAs r 7
        → Rose (D.write_faults depot.old) (D.write_faults depot.new)) }
{
    let checkpoint = left_at::<Q, Brand>(alloc, job, plan.time, states)?;
    depot.begin(plan.save)?;
    let mut sink = DepotSink::new(depot, plan.save);
    write_checkpoint(alloc, job.query(), &checkpoint, &mut sink)?;
    Ok(())
}

/// The checkpoint of what the events of a job leave at its stop time, which a file can say. `AllocError`: no memory.
fn left_at<Q: Saved, J: Naming>(
    alloc: Global,
    job: &Job<Q>,
    time: Time,
    states: Vec<Vec<(u32, BinState<Q::Cell>)>>,
) -> Result<Checkpoint<Q>, AllocError>
    requires job { job.now ≡ J.job }
    requires stops { J.job.until ≡ Some time }
    requires fresh { J.job.from ≡ None }
    requires plain { EventsArePlain J.job.events }
    requires states { AreAllStates (table_of Q.facts J.job) J.job (map (λ own. own.items) states.items) }
    ensures left { IfOk result (λ c. IsLeftAt (Q.facts J.job.values) J.job.events time c) }
    ensures fits { IfOk result (λ c. CheckpointFits (format_by Q.NUMBER Q.text_of Q.facts J.job.values) c) }
{
    let _ = job.shape();
    collect::<Q, J>(alloc, time, states)
}
