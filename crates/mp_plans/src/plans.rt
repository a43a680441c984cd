//! The control records that a plan appends to a list.
ghost use Rattle.std.specs.Prelude.{◌≡◌, ◌+◌, ◌-◌, ◌*◌, ◌/◌, ◌%◌, ◌<◌, ◌≤◌, ◌++◌, IfErr, OnErr, OnOk, length};
ghost use Rattle.mp_names.specs.Limits.{greatest_time, most_controls};
ghost use Rattle.mp_plans.specs.Plans.{FitsPace, HasLastTime, all_at_once_records, batched_records, fluid_records, records_by};
ghost use Rattle.mp_plans.specs.Refusals.{IsTooMany};

use crate::pace::Pace;
use crate::refused::PlanRefused;
use mp_names::limits::MAX_CONTROLS;
use mp_names::{Control, Shape, Time};

/// Appends a record for each bin of the stage, upward, all at one time; a bin's worker is the bin plus the shift, modulo the
/// number of workers. The time is at most 2^47. `TooMany`: exactly where the list would have more than 65,536 records, with
/// how many it would have; `NoMemory`: an allocation failure. On both the list is as it was.
pub fn all_at_once(
    list: &mut Vec<Control>,
    shape: Shape,
    time: Time,
    stage: u32,
    shift: u32,
) -> Result<(), PlanRefused>
    requires workers { 0 < shape.workers }
    requires last { time ≤ greatest_time }
    ensures appended { OnOk result (list.new.items ≡ list.old.items ++ all_at_once_records shape time stage shift) }
    ensures few { OnOk result (length list.new.items ≤ most_controls) }
    ensures too_many { IfErr result (IsTooMany (length (list.old.items ++ all_at_once_records shape time stage shift))) }
    ensures unchanged { OnErr result (list.new.items ≡ list.old.items) }
{
    append(list, shape, Pace::AtOnce, time, stage, shift)
}

/// Appends a record for each bin of the stage, upward, each `gap` later than the one before it; the workers are those of
/// `all_at_once`. The time of the last bin is at most 2^47. `TooMany` and `NoMemory` as there.
pub fn fluid(
    list: &mut Vec<Control>,
    shape: Shape,
    time: Time,
    gap: Time,
    stage: u32,
    shift: u32,
) -> Result<(), PlanRefused>
    requires workers { 0 < shape.workers }
    requires last { time + (shape.bins - 1) * gap ≤ greatest_time }
    ensures appended { OnOk result (list.new.items ≡ list.old.items ++ fluid_records shape time gap stage shift) }
    ensures few { OnOk result (length list.new.items ≤ most_controls) }
    ensures too_many { IfErr result (IsTooMany (length (list.old.items ++ fluid_records shape time gap stage shift))) }
    ensures unchanged { OnErr result (list.new.items ≡ list.old.items) }
{
    append(list, shape, Pace::Fluid(gap), time, stage, shift)
}

/// Appends a record for each bin of the stage, upward, `size` bins at one time and each batch `gap` later than the one
/// before it; the workers are those of `all_at_once`. The time of the last bin is at most 2^47. `TooMany` and `NoMemory` as
/// there.
pub fn batched(
    list: &mut Vec<Control>,
    shape: Shape,
    time: Time,
    gap: Time,
    size: u32,
    stage: u32,
    shift: u32,
) -> Result<(), PlanRefused>
    requires workers { 0 < shape.workers }
    requires size { 0 < size }
    requires last { time + (shape.bins - 1) / size * gap ≤ greatest_time }
    ensures appended { OnOk result (list.new.items ≡ list.old.items ++ batched_records shape time gap size stage shift) }
    ensures few { OnOk result (length list.new.items ≤ most_controls) }
    ensures too_many { IfErr result (IsTooMany (length (list.old.items ++ batched_records shape time gap size stage shift))) }
    ensures unchanged { OnErr result (list.new.items ≡ list.old.items) }
{
    append(list, shape, Pace::Batched(gap, size), time, stage, shift)
}

// Appends a record for each bin of the stage, upward, at this pace.
fn append(
    list: &mut Vec<Control>,
    shape: Shape,
    pace: Pace,
    time: Time,
    stage: u32,
    shift: u32,
) -> Result<(), PlanRefused>
    requires workers { 0 < shape.workers }
    requires pace { FitsPace pace }
    requires last { HasLastTime shape pace time }
    ensures appended { OnOk result (list.new.items ≡ list.old.items ++ records_by shape pace time stage shift) }
    ensures few { OnOk result (length list.new.items ≤ most_controls) }
    ensures too_many { IfErr result (IsTooMany (length (list.old.items ++ records_by shape pace time stage shift))) }
    ensures unchanged { OnErr result (list.new.items ≡ list.old.items) }
{
    let count = list.len() as u64 + u64::from(shape.bins);
    if count > MAX_CONTROLS as u64 {
        return Err(PlanRefused::TooMany { count });
    }
    list.reserve(shape.bins as usize)?;
    for bin in 0..shape.bins {
        list.push_reserved(Control {
            time: pace.time_of(time, bin),
            stage,
            bin,
            worker: worker_of(shape, bin, shift),
        });
    }
    Ok(())
}

// The worker that a plan gives a bin to.
fn worker_of(shape: Shape, bin: u32, shift: u32) -> u32
    requires { 0 < shape.workers }
    ensures { result ≡ (bin + shift) % shape.workers }
{
    ((u64::from(bin) + u64::from(shift)) % u64::from(shape.workers)) as u32
}
