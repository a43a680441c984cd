//! The times at which something happens, with those of the wakes that a job begins with.
ghost use Rattle.std.specs.Prelude.{◌≡◌, ◌++◌, IfOk, OnOk, length};
ghost use Rattle.mp_model.specs.Ascending.{ascending};
ghost use Rattle.mp_shares.specs.Times.{HoldSame, control_times};
ghost use Rattle.mp_job.specs.Times.{opening_times};

use mp_model::{Control, Query, Time};
use mp_opening::Opening;
use mp_shares::{add_control_times, add_first_of, put_in_order};
use std::alloc::AllocError;

/// Adds the times of control records and of the wakes that a job begins with to others, and puts all in order, each once.
/// `AllocError`: no memory.
pub fn add_other_times<Q: Query>(
    opening: &Option<Opening<Q>>,
    controls: &[Control],
    times: &mut Vec<Time>,
) -> Result<(), AllocError>
    ensures { OnOk result (times.new.items ≡ ascending ((times.old.items ++ control_times controls.now) ++ opening_times opening.now)) }
{
    add_control_times(controls, times)?;
    add_wake_times(opening, times)?;
    put_in_order(times);
    times.shrink_to_fit();
    Ok(())
}

/// How many times these and the wakes have that a job begins with, each counted once. `AllocError`: no memory.
pub fn count_with_wakes<Q: Query>(
    opening: &Option<Opening<Q>>,
    mut times: Vec<Time>,
) -> Result<usize, AllocError>
    ensures { IfOk result (λ count. count ≡ length (ascending (times.items ++ opening_times opening.now))) }
{
    add_wake_times(opening, &mut times)?;
    put_in_order(&mut times);
    Ok(times.len())
}

// Adds the times of the wakes that a job begins with, in any order. `AllocError`: no memory.
fn add_wake_times<Q: Query>(
    opening: &Option<Opening<Q>>,
    times: &mut Vec<Time>,
) -> Result<(), AllocError>
    ensures { OnOk result (HoldSame times.new.items (times.old.items ++ opening_times opening.now)) }
{
    match opening {
        Some(opening) => add_first_of(opening.wakes(), times),
        None => Ok(()),
    }
}
