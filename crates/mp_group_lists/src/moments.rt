//! Entries by the groups that they come from.
ghost use Rattle.std.specs.Prelude.{◌≡◌, ◌≤◌, ◌<◌, ◌-◌, true, false, filter, get_or, length};
ghost use Rattle.std.specs.List.Sorted.{IsPartitionPoint};
ghost use Rattle.mp_chart.specs.declared.entry.Entry.{Entry};
ghost use Rattle.mp_group_lists.specs.Moments.{AreByMoment, comes_before, is_at, moment_of};

use mp_chart::Entry;
use mp_names::{Name, Time};
use std::cell::Cell;

// How many places a look tries before it halves.
const LOOKS: usize = 16;

/// The group of a list that a name comes from, by its time and its key.
#[derive(Clone, Copy)]
pub(crate) struct Moment {
    pub(crate) time: Time,
    pub(crate) key: u64,
}

/// The moment of a group, and that of the group that gave a record or an answer row.
pub(crate) fn moment_of(name: Name) -> Moment
    ensures { result ≡ moment_of name }
{
    match name {
        Name::Group { time, key, .. } => Moment { time, key },
        Name::Rec { time, tag, .. } | Name::Row { time, tag } => Moment { time, key: tag.0 },
        _ => Moment { time: 0, key: 0 },
    }
}

// How many entries come before a moment, of entries by moments: where it is `near` or a little more, that takes as many looks, else
// it is found by halving.
fn count_before(entries: &[Entry], moment: Moment, near: usize) -> usize
    ensures bound { result ≤ length entries.now }
    ensures point { AreByMoment entries.now →
        IsPartitionPoint (λ e. comes_before (moment_of e.name) moment ≡ true) (λ e. comes_before (moment_of e.name) moment ≡ false) entries.now result }
{
    for count in near..near.saturating_add(LOOKS) {
        if is_count_before(entries, moment, count) {
            return count;
        }
    }
    entries.partition_point(
        |entry: &Entry| -> bool
            ensures { result ≡ comes_before (moment_of entry.now.name) moment }
        { comes_before(moment_of(entry.name), moment) },
    )
}

// Whether so many entries come before a moment, of entries by moments: the last of them does, and the next doesn't.
fn is_count_before(entries: &[Entry], moment: Moment, count: usize) -> bool
    ensures bound { result ≡ true → count ≤ length entries.now }
    ensures point { result ≡ true → AreByMoment entries.now →
        IsPartitionPoint (λ e. comes_before (moment_of e.name) moment ≡ true) (λ e. comes_before (moment_of e.name) moment ≡ false) entries.now count }
{
    if count > entries.len() {
        return false;
    }
    let (front, back) = entries.split_at(count);
    ends_before(front, moment) && begins_no_earlier(back, moment)
}

// Whether the last of entries, if there is one, comes before a moment.
fn ends_before(entries: &[Entry], moment: Moment) -> bool
    ensures { result ≡ true → (d : Entry) → 0 < length entries.now → comes_before (moment_of (get_or entries.now (length entries.now - 1) d).name) moment ≡ true }
{
    match entries.last() {
        Some(entry) => comes_before(moment_of(entry.name), moment),
        None => true,
    }
}

// Whether the first of entries, if there is one, doesn't come before a moment.
fn begins_no_earlier(entries: &[Entry], moment: Moment) -> bool
    ensures { result ≡ true → (d : Entry) → 0 < length entries.now → comes_before (moment_of (get_or entries.now 0 d).name) moment ≡ false }
{
    match entries.first() {
        Some(entry) => !comes_before(moment_of(entry.name), moment),
        None => true,
    }
}

/// How many entries come before a moment or are of it, of entries by moments. Where it is `near` or a little more that come before it,
/// that takes few looks.
pub(crate) fn count_upto(entries: &[Entry], moment: Moment, near: usize) -> usize
    ensures bound { result ≤ length entries.now }
    ensures point { AreByMoment entries.now →
        IsPartitionPoint (λ e. comes_before moment (moment_of e.name) ≡ false) (λ e. comes_before moment (moment_of e.name) ≡ true) entries.now result }
{
    let start = count_before(entries, moment, near);
    let count = run_upto(&entries[start..], moment);
    start + count
}

// How many entries stand in front of the first that comes after a moment.
fn run_upto(entries: &[Entry], moment: Moment) -> usize
    ensures bound { result ≤ length entries.now }
    ensures point { AreByMoment entries.now →
        IsPartitionPoint (λ e. comes_before moment (moment_of e.name) ≡ false) (λ e. comes_before moment (moment_of e.name) ≡ true) entries.now result }
{
    for (count, entry) in entries.iter().enumerate() {
        if comes_before(moment, moment_of(entry.name)) {
            return count;
        }
    }
    entries.len()
}

// Whether a moment comes before another: by time, and then by key.
fn comes_before(left: Moment, right: Moment) -> bool
    ensures { result ≡ comes_before left right }
{
    left.time < right.time || left.time == right.time && left.key < right.key
}

/// The entries of a moment, of entries by moments. `near` is where an earlier look ended, or any number, and becomes where this
/// one ends: a look for a moment a little later takes few comparisons.
pub(crate) fn entries_at<'e>(
    entries: &'e [Entry],
    moment: Moment,
    near: &Cell<usize>,
) -> &'e [Entry]
    ensures { AreByMoment entries.now → result.now ≡ filter (is_at moment) entries.now }
{
    if entries.is_empty() {
        return entries;
    }
    let start = count_before(entries, moment, near.get());
    let later = &entries[start..];
    let count = run_upto(later, moment);
    near.set(start + count);
    &later[..count]
}
