//! The times of names and of control records.
ghost use Rattle.std.specs.Prelude.{◌≡◌, ◌==◌, ℕ, IfOk, filter, map};
ghost use Rattle.mp_names.specs.Names.{is_packet};
ghost use Rattle.mp_names.specs.Outlines.{control_times};
ghost use Rattle.mp_outline_lists.specs.Moments.{group_at};
ghost use Rattle.mp_work_lists.specs.Parts.{controls_at, names_at, time_in, times_at};

use mp_names::{Control, Name, Time};
use mp_outline_lists::{Moment, OutlineLists};
use std::alloc::{AllocError, Global};

/// The times of control records, ascending. `AllocError`: no memory.
pub(crate) fn times_of_controls(
    alloc: Global,
    controls: &[Control],
) -> Result<Vec<Time>, AllocError>
    ensures { IfOk result (λ times. (t : ℕ) → times_at t times.items ≡ controls_at t controls.now) }
{
    let mut times = own_times(alloc, controls)?;
    sort(&mut times);
    Ok(times)
}

// The times of control records, in their order. `AllocError`: no memory.
fn own_times(alloc: Global, controls: &[Control]) -> Result<Vec<Time>, AllocError>
    ensures { IfOk result (λ times. times.items ≡ map (λ c. c.time) controls.now) }
{
    controls.iter().map(|control| control.time).collect(alloc)
}

/// The times of names, ascending. `AllocError`: no memory.
pub(crate) fn times_of_names(alloc: Global, names: &[Name]) -> Result<Vec<Time>, AllocError>
    ensures { IfOk result (λ times. (t : ℕ) → times_at t times.items ≡ names_at t names.now) }
{
    let mut times = times_in(alloc, names)?;
    sort(&mut times);
    Ok(times)
}

// The times of names, in their order. `AllocError`: no memory.
fn times_in(alloc: Global, names: &[Name]) -> Result<Vec<Time>, AllocError>
    ensures { IfOk result (λ times. times.items ≡ map time_in names.now) }
{
    names.iter().map(|name| time_in(*name)).collect(alloc)
}

/// The times of the packets of a stage, in their order. `AllocError`: no memory.
pub(crate) fn times_of_packets(
    alloc: Global,
    packets: &[Name],
    stage: u32,
) -> Result<Vec<Time>, AllocError>
    ensures { IfOk result (λ times. times.items ≡ map time_in (filter (is_packet stage) packets.now)) }
{
    packets
        .iter()
        .filter(|name| is_packet(**name, stage))
        .map(|name| time_in(*name))
        .collect(alloc)
}

/// The times of the control records of a stage, ascending, each once. `AllocError`: no memory.
pub(crate) fn times_to_settle<L: OutlineLists>(
    alloc: Global,
    lists: &L,
    stage: u32,
) -> Result<Vec<Time>, AllocError>
    ensures { let o = L.outline lists.now in
        IfOk result (λ times. (t : ℕ) → times_at t times.items ≡ names_at t (control_times o stage)) }
{
    let mut times = times_of_stage(alloc, lists.controls(), stage)?;
    times.sort_unstable();
    times.dedup();
    Ok(times)
}

// The times of the control records of a stage, in their order. `AllocError`: no memory.
fn times_of_stage(alloc: Global, controls: &[Control], stage: u32) -> Result<Vec<Time>, AllocError>
    ensures { IfOk result (λ times. times.items ≡ map (λ c. c.time) (filter (λ c. c.stage == stage) controls.now)) }
{
    controls
        .iter()
        .filter(|control| control.stage == stage)
        .map(|control| control.time)
        .collect(alloc)
}

// Sorts times.
fn sort(times: &mut Vec<Time>)
    ensures { (t : ℕ) → times_at t times.new.items ≡ times_at t times.old.items }
{
    times.sort_unstable();
}

// The time that a name holds; 0 for a control record's, which holds none.
fn time_in(name: Name) -> Time
    ensures { result ≡ time_in name }
{
    match name {
        Name::Ctrl { .. } => 0,
        Name::Rec { time, .. } => time,
        Name::Packet { time, .. } => time,
        Name::Row { time, .. } => time,
        Name::Group { time, .. } => time,
        Name::Settled { time, .. } => time,
        Name::Written { time } => time,
    }
}

// Whether a name is of a packet of this stage.
fn is_packet(name: Name, stage: u32) -> bool
    ensures { result ≡ is_packet stage name }
{
    match name {
        Name::Packet { stage: of, .. } => of == stage,
        _ => false,
    }
}

/// The times of the groups of a stage at these moments, in their order, each as often as there are groups then. `AllocError`: no memory.
pub(crate) fn times_of_groups(alloc: Global, moments: &[Moment]) -> Result<Vec<Time>, AllocError>
    ensures { IfOk result (λ times. (j t : ℕ) → times_at t times.items ≡ names_at t (map (group_at j) moments.now)) }
{
    let times = times_of_moments(alloc, moments)?;
    Ok(times)
}

// The times of moments, in their order. `AllocError`: no memory.
fn times_of_moments(alloc: Global, moments: &[Moment]) -> Result<Vec<Time>, AllocError>
    ensures { IfOk result (λ times. times.items ≡ map (λ m. m.time) moments.now) }
{
    moments.iter().map(|moment| moment.time).collect(alloc)
}
