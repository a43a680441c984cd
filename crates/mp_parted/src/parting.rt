//! Names by workers.
ghost use Rattle.std.specs.Prelude.{◌≡◌, ◌<◌, ◌==◌, ℕ, [], All, IfOk, OnOk, length, map, replicate};
ghost use Rattle.mp_parted.specs.Fitting.{FitsBy};
ghost use Rattle.mp_parted.specs.Parted.{is_by, parted_by, with_entry};

use crate::edges::{entry_of, owner_of, sender_of};
use mp_chart::Entry;
use mp_names::Name;
use mp_outline_lists::OutlineLists;
use std::alloc::{AllocError, Global};

/// By whom names are parted.
#[derive(Clone, Copy)]
pub enum By {
    /// By the worker that sends them.
    Sender,
    /// By the worker that owns the group.
    Owner,
}

/// By worker the entries of its names, in their order. `AllocError`: no memory.
pub fn parted<L: OutlineLists>(
    alloc: Global,
    lists: &L,
    by: By,
    names: &[Name],
) -> Result<Vec<Vec<Entry>>, AllocError>
    requires { All (FitsBy (L.outline lists.now) by) names.now }
    ensures { IfOk result (λ parts. map (λ part. part.items) parts.items ≡ parted_by (L.outline lists.now) by names.now) }
{
    let mut parts = no_entries(alloc, lists.workers(), names.len())?;
    for name in names {
        let worker = worker_by(lists, by, *name);
        put(&mut parts, worker, entry_of(lists, *name))?;
    }
    Ok(parts)
}

// Behind the entries of a worker comes one more.
fn put(parts: &mut Vec<Vec<Entry>>, worker: u32, entry: Entry) -> Result<(), AllocError>
    requires { worker < length parts.old.items }
    ensures { OnOk result (map (λ part. part.items) parts.new.items ≡ with_entry (map (λ part. part.items) parts.old.items) worker entry) }
{
    parts[worker as usize].push(entry)?;
    Ok(())
}

// The worker of a name.
fn worker_by<L: OutlineLists>(lists: &L, by: By, name: Name) -> u32
    requires { FitsBy (L.outline lists.now) by name }
    ensures worker { result < (L.outline lists.now).workers }
    ensures by { (w : ℕ) → is_by (L.outline lists.now) by w name ≡ (result == w) }
{
    match (by, name) {
        (By::Sender, _) => sender_of(lists, name),
        (By::Owner, Name::Group { stage, time, key }) => owner_of(lists, stage, time, key),
        (By::Owner, _) => unreachable!(),
    }
}

// For each of so many workers a list of no entries, with room for its share of so many and some more. `AllocError`: no memory.
fn no_entries(alloc: Global, workers: u32, count: usize) -> Result<Vec<Vec<Entry>>, AllocError>
    ensures lists { IfOk result (λ parts. map (λ part. part.items) parts.items ≡ replicate workers []) }
{
    let share = count / workers.max(1) as usize;
    let room = share.saturating_add(share / 8);
    let mut parts = Vec::new(alloc);
    for _ in 0..workers {
        parts.push(Vec::with_capacity(alloc, room)?)?;
    }
    Ok(parts)
}
