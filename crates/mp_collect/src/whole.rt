//! The checkpoint of a job.
ghost use Rattle.std.specs.Prelude.{◌≡◌, None, Some, IfOk, map};
ghost use Rattle.mp_checkpoint_laws.specs.Files.{CheckpointFits, format_of};
ghost use Rattle.mp_model.specs.Plain.{EventsArePlain};
ghost use Rattle.mp_model.specs.Tables.{table_of};
ghost use Rattle.mp_job.specs.Legal.{JobIsLegal};
ghost use Rattle.mp_msg.specs.LastStates.{AreAllStates};
ghost use Rattle.mp_restart_laws.specs.Saves.{HoldsWhatIsLeft, StandsInOrder};

use crate::gathered::gather;
use crate::in_order::{put_cells_in_order, put_wakes_in_order};
use mp_model::{Naming, Time};
use mp_msg::BinState;
use mp_opening::Checkpoint;
use mp_saved::Saved;
use std::alloc::{AllocError, Global};

/// The checkpoint of what all workers have at the end of a job that stops at this time: the cells that aren't fresh and the
/// wakes that are left, each once and in order. The states are those of each worker by its number, each with its stage.
/// Where names in the events hold no bar and no line feed, as those of a file, a file can say it. Takes n log n comparisons
/// of n cells and wakes. `AllocError`: no memory.
pub fn collect<Q: Saved, J: Naming>(
    alloc: Global,
    time: Time,
    states: Vec<Vec<(u32, BinState<Q::Cell>)>>,
) -> Result<Checkpoint<Q>, AllocError>
    requires stops { J.job.until ≡ Some time }
    requires fresh { J.job.from ≡ None }
    requires legal { JobIsLegal (table_of Q.facts J.job) J.job }
    requires states { AreAllStates (table_of Q.facts J.job) J.job (map (λ own. own.items) states.items) }
    ensures time { IfOk result (λ c. c.time ≡ time) }
    ensures left { IfOk result (λ c. HoldsWhatIsLeft (table_of Q.facts J.job) J.job.events c) }
    ensures order { IfOk result (λ c. StandsInOrder (table_of Q.facts J.job) c) }
    ensures fits { EventsArePlain J.job.events → IfOk result (λ c. CheckpointFits (format_of Q.NUMBER J.job.values (Q.facts J.job.values) Q.text_of) c) }
{
    let (mut cells, mut wakes) = gather(alloc, states)?;
    put_cells_in_order(&mut cells);
    put_wakes_in_order(&mut wakes);
    Ok(Checkpoint { time, cells, wakes })
}
