//! The times of the bids on an auction that windows may still hold.
ghost use Rattle.std.specs.Prelude.{◌≡◌, ◌↔◌, ◌≤◌, ◌++◌, [], IfOk, IsTrue, OnErr, OnOk, length, vec_len};
ghost use Rattle.std.specs.Vec.{vec_capacity};
ghost use Rattle.mp_saved.specs.Numbers.{numbers_in, numbers_text};
ghost use Rattle.mp_q_window.specs.Recent.{after_group, are_times, count_in, count_row, is_legal, kept_by, since, times_said};

use mp_model::{Group, Time, Value};
use mp_names::limits::{MAX_EVENTS, MAX_TIME};
use mp_saved::{put_numbers, read_numbers};
use std::alloc::{AllocError, Global};
use std::marker::Model;

/// The times of the bids on an auction, in the order in which they came. Contracts see the list of them. It is public
/// only as the `Cell` of q5.
#[derive(Drop)]
pub struct Recent {
    times: Vec<Time>,
}

impl Model for Recent {
    ghost use Rattle.std.specs.Prelude.{ℕ, List};

    ghost Value = { List ℕ };

    ghost view = { λ r. r.times.items };
}

impl Recent {
    /// No times.
    pub fn new(alloc: Global) -> Recent
        ensures { result ≡ [] }
    {
        Recent {
            times: Vec::new(alloc),
        }
    }

    /// Whether there are no times.
    pub fn is_new(&self) -> bool
        ensures { IsTrue result ↔ (self.now ≡ []) }
    {
        self.times.is_empty()
    }

    /// The same times. `AllocError`: no memory.
    pub fn copy(&self, alloc: Global) -> Result<Recent, AllocError>
        ensures { IfOk result (λ copy. copy ≡ self.now) }
    {
        let mut times = Vec::new(alloc);
        times.extend_from_slice(self.times.as_slice())?;
        Ok(Recent { times })
    }

    /// Whether there are times, and they may be saved at this one: each is before it, and none less than the one before.
    pub(crate) fn is_legal(&self, until: Time) -> bool
        ensures { result ≡ is_legal until self.now }
    {
        let times = self.times.as_slice();
        times.len() > 0 && times.len() <= MAX_EVENTS && are_times(times, until)
    }

    /// Appends the text of the times. `AllocError`: no memory, and a part of it may be appended.
    pub(crate) fn write(&self, out: &mut Vec<u8>) -> Result<(), AllocError>
        ensures { OnOk result (out.new.items ≡ out.old.items ++ numbers_text self.now) }
    {
        put_numbers(out, self.times.as_slice())
    }

    /// The times that a text says, or none. `AllocError`: no memory.
    pub(crate) fn read(alloc: Global, text: &[u8]) -> Result<Recent, AllocError>
        ensures { IfOk result (λ times. times ≡ times_said (numbers_in text.now)) }
    {
        match read_numbers(alloc, text)? {
            Some(times) => Ok(Recent { times }),
            None => Ok(Recent::new(alloc)),
        }
    }

    /// How many bids the auction had in the window that this group ends, where it ends one and there are some. A window
    /// is this long.
    pub fn count(&self, length: u64, group: &Group) -> Option<Value>
        ensures { result ≡ count_in length self.now group.now }
    {
        if group.is_woken() {
            let count = self.count_since(group.time().saturating_sub(length));
            count_row(group.key(), count)
        } else {
            None
        }
    }

    /// Takes the times of a group's bids. The end of a window drops the times that are more than `kept` before it.
    /// `AllocError`: no memory, and nothing changes.
    pub fn apply(&mut self, kept: u64, group: &Group) -> Result<(), AllocError>
        ensures taken { OnOk result (self.new ≡ after_group kept self.old group.now) }
        ensures unchanged { OnErr result (self.new ≡ self.old) }
    {
        let recs = group.recs();
        self.times.reserve(recs.len())?;
        drop_gone(&mut self.times, kept, group);
        for rec in recs {
            if let Value::Bid { .. } = &rec.value {
                self.times.push_reserved(rec.time);
            }
        }
        Ok(())
    }

    /// How many times are not before this one.
    fn count_since(&self, first: Time) -> u64
        ensures { result ≡ length (since first self.now) }
    {
        let mut count: u64 = 0;
        for time in self.times.as_slice() {
            if *time >= first {
                count += 1;
            }
        }
        count
    }
}

/// Whether each time is before this one and within the limits of an event, and none is less than the one before.
fn are_times(times: &[Time], until: Time) -> bool
    ensures { result ≡ are_times 0 until times.now }
{
    let mut low = 0;
    for time in times {
        if !(low <= *time && *time < until && *time <= MAX_TIME) {
            return false;
        }
        low = *time;
    }
    true
}

/// Drops the times that are more than `kept` before the end of a window, where a group ends one.
fn drop_gone(times: &mut Vec<Time>, kept: u64, group: &Group)
    ensures times { times.new.items ≡ kept_by kept times.old.items group.now }
    ensures few { vec_len times.new ≤ vec_len times.old }
    ensures capacity { vec_capacity times.new ≡ vec_capacity times.old }
{
    if group.is_woken() {
        keep_since(times, group.time().saturating_sub(kept));
    }
}

/// Keeps the times that are not before this one.
fn keep_since(times: &mut Vec<Time>, first: Time)
    ensures times { times.new.items ≡ since first times.old.items }
    ensures few { vec_len times.new ≤ vec_len times.old }
    ensures capacity { vec_capacity times.new ≡ vec_capacity times.old }
{
    times.retain(|time| *time >= first);
}

/// The count of an auction's bids, where it had some.
fn count_row(auction: u64, count: u64) -> Option<Value>
    ensures { result ≡ count_row auction count }
{
    if count > 0 {
        Some(Value::Count { auction, count })
    } else {
        None
    }
}
