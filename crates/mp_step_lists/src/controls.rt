//! The control records, in the order in which worker 0 sends them.
ghost use Rattle.std.specs.Prelude.{◌≡◌, ◌==◌, ◌++◌, ℕ, Some, true, nat_lt, IfOk, OnOk, filter, slice_get};
ghost use Rattle.std.specs.List.Sorted.{IsNonDecreasingBy};
ghost use Rattle.mp_names.specs.Outlines.{ctrl_names};
ghost use Rattle.mp_player_laws.specs.Decisions.{controls_to_send};
ghost use Rattle.mp_chart.specs.declared.entry.Entry.{Entry};
ghost use Rattle.mp_chart.specs.Entries.{entries_of};
ghost use Rattle.mp_step_lists.specs.Controls.{IsLatestBelow, sent_to_each};

use mp_chart::Entry;
use mp_names::{Name, Time};
use mp_outline_lists::OutlineLists;
use std::alloc::{AllocError, Global};

/// The control records for each worker: by index and receiver, and in a paced job by time before that. `AllocError`: no memory.
pub(crate) fn controls_to_send<L: OutlineLists>(
    alloc: Global,
    lists: &L,
) -> Result<Vec<Entry>, AllocError>
    ensures all { let o = L.outline lists.now in IfOk result (λ entries. entries.items ≡ entries_of o (controls_to_send o 0)) }
    ensures rising { IfOk result (λ entries. (L.outline lists.now).paced ≡ true → IsNonDecreasingBy (λ e. e.time) entries.items) }
{
    if !lists.is_paced() {
        return by_index(alloc, lists);
    }
    let mut entries = by_index(alloc, lists)?;
    sort_by_time(&mut entries)?;
    Ok(entries)
}

// The control records for each worker, by index and receiver.
fn by_index<L: OutlineLists>(alloc: Global, lists: &L) -> Result<Vec<Entry>, AllocError>
    ensures { let o = L.outline lists.now in IfOk result (λ entries. entries.items ≡ entries_of o (ctrl_names o)) }
{
    let workers = lists.workers();
    let controls = lists.controls();
    let mut entries = Vec::new(alloc);
    for (index, control) in controls.iter().enumerate() {
        send_to_each(&mut entries, index as u32, control.time, workers)?;
    }
    Ok(entries)
}

// Adds the control record at an index, with its time, for each of so many workers.
fn send_to_each(
    entries: &mut Vec<Entry>,
    index: u32,
    time: Time,
    workers: u32,
) -> Result<(), AllocError>
    ensures { OnOk result (entries.new.items ≡ entries.old.items ++ sent_to_each index time workers) }
{
    for to in 0..workers {
        entries.push(Entry {
            name: Name::Ctrl { index, to },
            time,
            receiver: to,
        })?;
    }
    Ok(())
}

// Sorts entries by time, and leaves those of one time in their order.
fn sort_by_time(entries: &mut Vec<Entry>) -> Result<(), AllocError>
    ensures rising { OnOk result (IsNonDecreasingBy (λ e. e.time) entries.new.items) }
    ensures stable { OnOk result ((t : ℕ) → filter (λ e. e.time == t) entries.new.items ≡ filter (λ e. e.time == t) entries.old.items) }
{
    entries.sort_by_key(
        |entry: &Entry| -> Time
            ensures { result ≡ entry.now.time }
        { entry.time },
    )?;
    Ok(())
}

/// The greatest time below that of the entry at a place, of entries by time; `None`, where there is none. Found by halving.
pub(crate) fn latest_below(entries: &[Entry], place: usize) -> Option<Time>
    requires { IsNonDecreasingBy (λ e. e.time) entries.now }
    ensures { (e : Entry) → slice_get entries.now place ≡ Some e → IsLatestBelow entries.now e.time result }
{
    match entries.get(place) {
        Some(entry) => latest_before(entries, entry.time),
        None => None,
    }
}

// The greatest time below this one, of entries by time; `None`, where there is none.
fn latest_before(entries: &[Entry], time: Time) -> Option<Time>
    requires { IsNonDecreasingBy (λ e. e.time) entries.now }
    ensures { IsLatestBelow entries.now time result }
{
    let below = entries.partition_point(
        |entry: &Entry| -> bool
            ensures { result ≡ nat_lt entry.now.time time }
        { entry.time < time },
    );
    match below.checked_sub(1) {
        Some(last) => Some(entries[last].time),
        None => None,
    }
}
