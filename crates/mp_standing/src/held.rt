//! Records that are held.
ghost use Rattle.std.specs.Prelude.{◌≡◌, ◌<◌, ℕ, [], false, length, IfNone, IfOk, IfSome, OnOk, Some, drop, get_or, min, replicate, slice_get, slice_set, ◌==◌};
ghost use Rattle.std.specs.List.{prefix_len};
ghost use Rattle.mp_names.specs.Names.{is_before};
ghost use Rattle.mp_ordered.specs.InOrder.{put_in_order};
ghost use Rattle.mp_chart.specs.declared.entry.Entry.{Entry};
ghost use Rattle.mp_standing.specs.Held.{IsLeastFirst, lesser_of, rank_of_entry, with_all, with_entry};

use crate::order::ByRank;
use mp_chart::Entry;
use mp_ordered::{Order, OrderedBlocks};
use std::alloc::{AllocError, Global};
use std::marker::Model;

/// The records of a stage that a worker holds to route. Contracts see them as lists, by receiver, each in rank order.
#[derive(Drop)]
pub struct Held {
    lists: Vec<OrderedBlocks<Entry, ByRank>>,
}

impl Model for Held {
    ghost use Rattle.std.specs.Prelude.{List, map};
    ghost use Rattle.mp_chart.specs.declared.entry.Entry.{Entry};

    ghost Value = { List (List Entry) };

    ghost view = { λ h. map (λ l. l.items) h.lists.items };
}

impl Held {
    /// None, for so many receivers. `AllocError`: no memory.
    pub fn none(alloc: Global, receivers: u32) -> Result<Held, AllocError>
        ensures { IfOk result (λ held. held ≡ replicate receivers []) }
    {
        let mut lists = Vec::new(alloc);
        for _ in 0..receivers {
            lists.push(OrderedBlocks::new(alloc))?;
        }
        Ok(Held { lists })
    }

    /// A record comes to its place among those of its receiver; nothing, where there is no such receiver. `AllocError`: no
    /// memory.
    pub fn put(&mut self, entry: Entry) -> Result<(), AllocError>
        ensures { OnOk result (self.new ≡ with_entry self.old entry) }
    {
        let receiver = entry.receiver as usize;
        if receiver >= self.lists.len() {
            return Ok(());
        }
        self.lists[receiver].insert(entry)?;
        Ok(())
    }

    /// So do all of these, one after the other. `AllocError`: no memory.
    pub fn put_all(&mut self, entries: &[Entry]) -> Result<(), AllocError>
        ensures { OnOk result (self.new ≡ with_all self.old entries.now) }
    {
        for entry in entries {
            self.put(*entry)?;
        }
        Ok(())
    }

    /// The least of all; `None` exactly where there is none.
    pub fn first(&self) -> Option<Entry>
        ensures some { IfSome result (λ x. IsLeastFirst self.now x) }
        ensures none { IfNone result ((v : ℕ) → get_or self.now v [] ≡ []) }
    {
        let mut least: Option<Entry> = None;
        for list in &self.lists {
            least = lesser(least, first_of(list));
        }
        least
    }

    /// How many records stand first among those of a receiver with this time, at most `most`.
    pub fn run(&self, receiver: u32, time: u64, most: u32) -> u32
        ensures { result ≡ min most (prefix_len (λ e. e.time == time) (get_or self.now receiver [])) }
    {
        match self.lists.get(receiver as usize) {
            Some(list) => run_in(list, time, most),
            None => 0,
        }
    }

    /// The first of a receiver's go, so many as there are of this number.
    pub fn drop_first(&mut self, receiver: u32, count: u32)
        ensures { self.new ≡ slice_set self.old receiver (drop count (get_or self.old receiver [])) }
    {
        let receiver = receiver as usize;
        if receiver < self.lists.len() {
            let list = &mut self.lists[receiver];
            let count = list.len().min(count as usize);
            list.drop_first(count);
        }
    }
}

// What stands first in a list.
fn first_of(list: &OrderedBlocks<Entry, ByRank>) -> Option<Entry>
    ensures { result ≡ slice_get list.now.items 0 }
{
    list.first().copied()
}

// The lesser of two records, of which either may be missing.
fn lesser(a: Option<Entry>, b: Option<Entry>) -> Option<Entry>
    ensures { result ≡ lesser_of a b }
{
    match (a, b) {
        (Some(x), Some(y)) => Some(if ByRank::is_before(&y, &x) { y } else { x }),
        (None, _) => b,
        (_, None) => a,
    }
}

// How many records stand first in a list with this time, at most `most`.
fn run_in(list: &OrderedBlocks<Entry, ByRank>, time: u64, most: u32) -> u32
    ensures { result ≡ min most (prefix_len (λ e. e.time == time) list.now.items) }
{
    for index in 0..most {
        let Some(entry) = list.get(index as usize) else {
            return index;
        };
        if entry.time != time {
            return index;
        }
    }
    most
}
