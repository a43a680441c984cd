//! The times at which something happens.
ghost use Rattle.std.specs.Prelude.{◌≡◌, ◌++◌, ◌∷◌, [], OnOk, filter, map, nat_le, nat_lt};
ghost use Rattle.mp_model.specs.Ascending.{ascending};
ghost use Rattle.mp_shares.specs.Times.{HoldSame, control_times};

use mp_model::{Control, Time};
use std::alloc::AllocError;

/// Adds a time, unless it is the last that was added. `AllocError`: no memory.
pub fn add_time(time: Time, times: &mut Vec<Time>) -> Result<(), AllocError>
    ensures { OnOk result (HoldSame times.new.items (times.old.items ++ time ∷ [])) }
{
    if let Some(last) = times.last() {
        if *last == time {
            return Ok(());
        }
    }
    times.push(time)?;
    Ok(())
}

/// Adds the times of control records. `AllocError`: no memory.
pub fn add_control_times(controls: &[Control], times: &mut Vec<Time>) -> Result<(), AllocError>
    ensures { OnOk result (times.new.items ≡ times.old.items ++ control_times controls.now) }
{
    for control in controls {
        times.push(control.time)?;
    }
    Ok(())
}

/// Adds the times of wakes, each a time and a key. `AllocError`: no memory.
pub fn add_first_of(wakes: &[(Time, u64)], times: &mut Vec<Time>) -> Result<(), AllocError>
    ensures { OnOk result (times.new.items ≡ times.old.items ++ map (λ w. w.0) wakes.now) }
{
    for wake in wakes {
        times.push(wake.0)?;
    }
    Ok(())
}

/// Puts times in order, and keeps each once.
pub fn put_in_order(times: &mut Vec<Time>)
    ensures { times.new.items ≡ ascending times.old.items }
{
    times.sort_unstable();
    times.dedup();
}

/// The control records of earlier times than this, in their order.
pub fn before(mut controls: Vec<Control>, time: Time) -> Vec<Control>
    ensures { result.items ≡ filter (λ c. nat_lt c.time time) controls.items }
{
    controls.retain(|control| control.time < time);
    controls
}

/// The control records of this time and later ones, in their order.
pub fn since(mut controls: Vec<Control>, time: Time) -> Vec<Control>
    ensures { result.items ≡ filter (λ c. nat_le time c.time) controls.items }
{
    controls.retain(|control| time <= control.time);
    controls
}
