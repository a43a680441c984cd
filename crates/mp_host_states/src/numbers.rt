//! Numbers of groups by time.
ghost use Rattle.std.specs.Prelude.{◌≡◌, ◌≤◌, ◌<◌, ◌^◌, ◌-◌, All, AllPairs, IsOk, OnOk, length, nat_lt};
ghost use Rattle.std.specs.Vec.{vec_capacity};
ghost use Rattle.mp_host_states.specs.Numbers.{with_one};

use mp_model::Time;
use std::alloc::AllocError;

/// Adds one to the number of a time among numbers by time; where there is none puts a new number at its place.
/// `AllocError`: no memory, never where there is room.
pub fn add_one(numbers: &mut Vec<(Time, u64)>, time: Time) -> Result<(), AllocError>
    requires few { All (λ n. n.1 < 2 ^ 64 - 1) numbers.old.items }
    requires by_time { AllPairs (λ m n. m.0 < n.0) numbers.old.items }
    ensures added { OnOk result (numbers.new.items ≡ with_one numbers.old.items time) }
    ensures capacity { vec_capacity numbers.old ≤ vec_capacity numbers.new }
    ensures never_refused_with_room { length (with_one numbers.old.items time) ≤ vec_capacity numbers.old → IsOk result }
{
    let at = numbers.partition_point(
        |number: &(Time, u64)| -> bool
            ensures { result ≡ nat_lt number.now.0 time }
        { number.0 < time },
    );
    if at < numbers.len() && numbers[at].0 == time {
        numbers[at].1 += 1;
        return Ok(());
    }
    numbers.insert(at, (time, 1))?;
    Ok(())
}
