//! How the lists are made.
ghost use Rattle.std.specs.Prelude.{◌≡◌, ◌<◌, ◌-◌, All, IfOk, map};
ghost use Rattle.std.specs.List.{range_with_len};
ghost use Rattle.mp_names.specs.Names.{ascending};
ghost use Rattle.mp_chart.specs.Entries.{entries_of};
ghost use Rattle.mp_parted.specs.Fitting.{FitsShape};
ghost use Rattle.mp_outline_lists.specs.Moments.{AreMomentsOf};
ghost use Rattle.mp_group_lists.specs.Parts.{groups_in, next_records, rows_in};

use mp_chart::Entry;
use mp_names::Name;
use mp_outline_lists::{Moment, OutlineLists, due_groups, in_order, moments_at};
use mp_parted::{By, entry_of, parted};
use std::alloc::{AllocError, Global};

/// Of each stage by worker the groups that it is to apply. `AllocError`: no memory.
pub(crate) fn groups_by_stage<L: OutlineLists>(
    alloc: Global,
    lists: &L,
    moments: &[Vec<Moment>],
) -> Result<Vec<Vec<Vec<Entry>>>, AllocError>
    requires { AreMomentsOf (L.outline lists.now) (map (λ own. own.items) moments.now) }
    ensures { let o = L.outline lists.now in
        IfOk result (λ groups. map (λ parts. map (λ part. part.items) parts.items) groups.items ≡ map (groups_in o) (range_with_len 0 o.stages)) }
{
    let mut groups = Vec::new(alloc);
    for stage in 0..lists.stages() {
        groups.push(groups_of(alloc, lists, stage, moments)?)?;
    }
    Ok(groups)
}

// By worker the groups of a stage that it is to apply. `AllocError`: no memory.
fn groups_of<L: OutlineLists>(
    alloc: Global,
    lists: &L,
    stage: u32,
    moments: &[Vec<Moment>],
) -> Result<Vec<Vec<Entry>>, AllocError>
    requires stage { stage < (L.outline lists.now).stages }
    requires moments { AreMomentsOf (L.outline lists.now) (map (λ own. own.items) moments.now) }
    ensures { IfOk result (λ parts. map (λ part. part.items) parts.items ≡ groups_in (L.outline lists.now) stage) }
{
    lists.are_sound();
    let names = due_groups(alloc, lists, stage, moments_at(moments, stage))?;
    parted(alloc, lists, By::Owner, &names)
}

/// By worker the answer rows that it sends. `AllocError`: no memory.
pub(crate) fn rows_by_worker<L: OutlineLists>(
    alloc: Global,
    lists: &L,
) -> Result<Vec<Vec<Entry>>, AllocError>
    ensures { IfOk result (λ parts. map (λ part. part.items) parts.items ≡ rows_in (L.outline lists.now)) }
{
    lists.are_sound();
    let names = in_order(alloc, lists.rows())?;
    parted(alloc, lists, By::Sender, &names)
}

/// Of each stage but the first the records, in rank order. `AllocError`: no memory.
pub(crate) fn records_by_stage<L: OutlineLists>(
    alloc: Global,
    lists: &L,
) -> Result<Vec<Vec<Entry>>, AllocError>
    ensures { let o = L.outline lists.now in
        IfOk result (λ records. map (λ part. part.items) records.items ≡ map (next_records o) (range_with_len 0 (o.stages - 1))) }
{
    lists.are_sound();
    let mut records = Vec::new(alloc);
    for stage in 0..lists.stages() - 1 {
        records.push(records_of(alloc, lists, stage + 1)?)?;
    }
    Ok(records)
}

// The records of a stage, in rank order. `AllocError`: no memory.
fn records_of<L: OutlineLists>(
    alloc: Global,
    lists: &L,
    stage: u32,
) -> Result<Vec<Entry>, AllocError>
    requires { stage < (L.outline lists.now).stages }
    ensures { let o = L.outline lists.now in
        IfOk result (λ records. records.items ≡ entries_of o (ascending (o.records stage))) }
{
    lists.are_sound();
    let names = in_order(alloc, lists.records(stage))?;
    entries_of(alloc, lists, &names)
}

// Names with their times and receivers. `AllocError`: no memory.
fn entries_of<L: OutlineLists>(
    alloc: Global,
    lists: &L,
    names: &[Name],
) -> Result<Vec<Entry>, AllocError>
    requires { All (FitsShape (L.outline lists.now)) names.now }
    ensures { IfOk result (λ entries. entries.items ≡ entries_of (L.outline lists.now) names.now) }
{
    let mut entries = Vec::with_capacity(alloc, names.len())?;
    for name in names {
        entries.push(entry_of(lists, *name))?;
    }
    Ok(entries)
}
