//! The order in which control records go out.
ghost use Rattle.std.specs.Prelude.{◌≡◌, ◌≤◌, true, false, IfOk, length, map};
ghost use Rattle.std.specs.List.{range_with_len};
ghost use Rattle.mp_names.specs.Limits.{most_controls};
ghost use Rattle.mp_controller.specs.Controlling.{IsSendingOrder};
ghost use Rattle.mp_controller.specs.Turns.{turn_at};

use mp_names::{Control, Time};
use std::alloc::{AllocError, Global};

/// When a control record goes out in a paced run: by its time, and then by its index.
#[derive(Clone, Copy, PartialEq, Eq, PartialOrd, Ord)]
pub(crate) struct Turn {
    time: Time,
    index: u32,
}

/// The indices of control records, ascending. `AllocError`: no memory.
pub(crate) fn list_order(alloc: Global, controls: &[Control]) -> Result<Vec<u32>, AllocError>
    requires { length controls.now ≤ most_controls }
    ensures { IfOk result (λ order. IsSendingOrder false controls.now order.items) }
{
    let mut order = Vec::new(alloc);
    for index in 0..controls.len() as u32 {
        order.push(index)?;
    }
    Ok(order)
}

/// The indices of control records by time, and of one time ascending. `AllocError`: no memory.
pub(crate) fn paced_order(alloc: Global, controls: &[Control]) -> Result<Vec<u32>, AllocError>
    requires { length controls.now ≤ most_controls }
    ensures { IfOk result (λ order. IsSendingOrder true controls.now order.items) }
{
    let mut turns = turns_of(alloc, controls)?;
    turns.sort_unstable();
    let mut order = Vec::new(alloc);
    for turn in &turns {
        order.push(turn.index)?;
    }
    Ok(order)
}

// When each control record goes out, by the indices. `AllocError`: no memory.
fn turns_of(alloc: Global, controls: &[Control]) -> Result<Vec<Turn>, AllocError>
    requires { length controls.now ≤ most_controls }
    ensures { IfOk result (λ turns. turns.items ≡ map (turn_at controls.now) (range_with_len 0 (length controls.now))) }
{
    let mut turns = Vec::new(alloc);
    for (index, control) in controls.iter().enumerate() {
        turns.push(Turn {
            time: control.time,
            index: index as u32,
        })?;
    }
    Ok(turns)
}
