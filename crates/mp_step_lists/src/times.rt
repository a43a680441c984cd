//! The times that workers settle, and those that worker 0 writes.
ghost use Rattle.std.specs.Prelude.{◌≡◌, ◌==◌, ◌<◌, All, IfOk, IsTrue, filter, map};
ghost use Rattle.mp_names.specs.Names.{ascending, is_settled};
ghost use Rattle.mp_names.specs.Outlines.{answer_times, time_of};
ghost use Rattle.mp_names.specs.declared.names.Name.TheVariants.{Settled, Written};
ghost use Rattle.mp_chart.specs.Entries.{entries_of};
ghost use Rattle.mp_parted.specs.Fitting.{FitsShape};
ghost use Rattle.mp_step_lists.specs.Tables.{times_by_stage};

use mp_chart::Entry;
use mp_names::{Control, Name, Time};
use mp_outline_lists::{OutlineLists, put_in_order};
use mp_parted::{entry_of, time_of};
use std::alloc::{AllocError, Global};

/// By stage the times of its control records. `AllocError`: no memory.
pub(crate) fn control_times<L: OutlineLists>(
    alloc: Global,
    lists: &L,
) -> Result<Vec<Vec<Entry>>, AllocError>
    ensures { IfOk result (λ times. map (λ list. list.items) times.items ≡ times_by_stage (L.outline lists.now)) }
{
    let names = settled(alloc, lists.controls())?;
    let mut times = Vec::new(alloc);
    for stage in 0..lists.stages() {
        times.push(times_at(alloc, lists, &names, stage)?)?;
    }
    Ok(times)
}

// The times of control records, in their order, each once.
fn settled(alloc: Global, controls: &[Control]) -> Result<Vec<Name>, AllocError>
    ensures { IfOk result (λ names. names.items ≡ ascending (map (λ c. Settled c.stage c.time) controls.now)) }
{
    let mut names = Vec::new(alloc);
    for control in controls {
        names.push(Name::Settled {
            stage: control.stage,
            time: control.time,
        })?;
    }
    put_in_order(&mut names);
    Ok(names)
}

// The entries of those times that are of a stage.
fn times_at<L: OutlineLists>(
    alloc: Global,
    lists: &L,
    names: &[Name],
    stage: u32,
) -> Result<Vec<Entry>, AllocError>
    ensures { IfOk result (λ times. times.items ≡ entries_of (L.outline lists.now) (filter (is_settled stage) names.now)) }
{
    let own = at_stage(alloc, names, stage)?;
    entries(alloc, lists, &own)
}

// Those times that are of a stage.
fn at_stage(alloc: Global, names: &[Name], stage: u32) -> Result<Vec<Name>, AllocError>
    ensures { IfOk result (λ own. own.items ≡ filter (is_settled stage) names.now) }
{
    names
        .iter()
        .copied()
        .filter(
            |name: &Name| -> bool
                ensures { result ≡ is_settled stage name.now }
            { is_settled(*name, stage) },
        )
        .collect(alloc)
}

// Whether a name is a time of the stage.
fn is_settled(name: Name, stage: u32) -> bool
    ensures { result ≡ is_settled stage name }
{
    match name {
        Name::Settled { stage: own, .. } => own == stage,
        _ => false,
    }
}

/// The times of answer rows. `AllocError`: no memory.
pub(crate) fn answer_times<L: OutlineLists>(
    alloc: Global,
    lists: &L,
) -> Result<Vec<Entry>, AllocError>
    ensures { let o = L.outline lists.now in IfOk result (λ times. times.items ≡ entries_of o (answer_times o)) }
{
    lists.are_sound();
    let names = written(alloc, lists)?;
    entries(alloc, lists, &names)
}

// The times of answer rows, in their order, each once. Numbers are sorted, which is quicker than names are.
fn written<L: OutlineLists>(alloc: Global, lists: &L) -> Result<Vec<Name>, AllocError>
    ensures { let o = L.outline lists.now in IfOk result (λ names. names.items ≡ answer_times o) }
{
    let mut times = row_times(alloc, lists)?;
    times.sort_unstable();
    times.dedup();
    written_at(alloc, &times)
}

// The time of each answer row.
fn row_times<L: OutlineLists>(alloc: Global, lists: &L) -> Result<Vec<Time>, AllocError>
    ensures { let o = L.outline lists.now in IfOk result (λ times. times.items ≡ map (time_of o) o.rows) }
{
    let mut times = Vec::new(alloc);
    for row in lists.rows() {
        times.push(time_of(lists, *row))?;
    }
    Ok(times)
}

// Times as names of those at which answer rows are written.
fn written_at(alloc: Global, times: &[Time]) -> Result<Vec<Name>, AllocError>
    ensures { IfOk result (λ names. names.items ≡ map (λ t. Written t) times.now) }
{
    let name = |time: &Time| Name::Written { time: *time };
    times.iter().map(name).collect(alloc)
}

// The entries of names, in their order.
fn entries<L: OutlineLists>(
    alloc: Global,
    lists: &L,
    names: &[Name],
) -> Result<Vec<Entry>, AllocError>
    requires { All (FitsShape (L.outline lists.now)) names.now }
    ensures { IfOk result (λ entries. entries.items ≡ entries_of (L.outline lists.now) names.now) }
{
    let mut entries = Vec::new(alloc);
    for name in names {
        entries.push(entry_of(lists, *name))?;
    }
    Ok(entries)
}
