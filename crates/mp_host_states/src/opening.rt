//! What a bin begins with.
ghost use Rattle.std.specs.Prelude.{IfOk};
ghost use Rattle.mp_model.specs.Tables.{table_of};
ghost use Rattle.mp_msg.specs.States.{IsStateAtFirst};
ghost use Rattle.mp_host_states.specs.Openings.{AreKept};

use mp_host_steps::wakes_of;
use mp_job::Job;
use mp_model::Query;
use mp_msg::BinState;
use std::alloc::{AllocError, Global};
use std::collections::HashMap;

/// The state that a bin of a stage begins with: its cells but for those that are fresh, and its wakes. Of a job that doesn't
/// go on from a checkpoint it has neither. `AllocError`: no memory.
pub fn opening_state<Q: Query>(
    alloc: Global,
    job: &Job<Q>,
    stage: u32,
    bin: u32,
) -> Result<BinState<Q::Cell>, AllocError>
    ensures { IfOk result (λ s. IsStateAtFirst (table_of Q.facts job.now) job.now stage bin s) }
{
    let opening = job.opening_cells(alloc, stage, bin)?;
    let cells = kept_of(alloc, job.query(), stage, opening)?;
    let wakes = wakes_of(alloc, job.opening_wakes(stage, bin))?;
    Ok(BinState { cells, wakes })
}

// The cells of keys, but for those that are fresh. `AllocError`: no memory.
fn kept_of<Q: Query>(
    alloc: Global,
    query: &Q,
    stage: u32,
    cells: Vec<(u64, Q::Cell)>,
) -> Result<HashMap<u64, Q::Cell>, AllocError>
    ensures { IfOk result (λ kept. AreKept ((Q.facts (Q.values query.now)).fresh stage) cells.items kept) }
{
    let mut kept = HashMap::new(alloc);
    for (key, cell) in cells {
        if !query.is_fresh(stage, &cell) {
            kept.insert(key, cell)?;
        }
    }
    Ok(kept)
}
