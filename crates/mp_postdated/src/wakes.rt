//! A set of wakes, and which of them comes first.
ghost use Rattle.std.specs.Prelude.{◌≡◌, ◌↔◌, ◌⊎◌, ◌<◌, ◌≤◌, ◌+◌, ◌^◌, ℕ, [], IsPermutation, length, slice_get, IfSome, IfNone, IsTrue, OnErr, OnOk};
ghost use Rattle.std.specs.Bool.{OnFalse};
ghost use Rattle.mp_postdated.specs.Wakes.{ComesNoLater, Has, IsAmongWakes, IsAscending, IsWake, with_wake, without_wake};

use crate::live::fill;
use crate::queue::{Queue, drop_wake};
use mp_model::Time;
use std::alloc::{AllocError, Global};
use std::cmp::Reverse;
use std::collections::{BinaryHeap, HashSet, hash_set};
use std::marker::Model;

/// The keys that are to be woken, each with a time, as Megaphone's post-dated records. Contracts see the pairs of a
/// time and a key, each once, ascending by time and then by key.
pub struct Wakes {
    // For `sort`.
    alloc: Global,
    // Those that are to come.
    live: HashSet<(Time, u64)>,
    // Each of them, the earliest first, and some that were taken out behind it.
    queue: Queue,
}

// By hand, so that crates above call it and don't write out the drop of each field.
impl Drop for Wakes {
    fn drop(self) {
        let Wakes {
            alloc: _,
            live: _,
            queue: _,
        } = self;
    }
}

impl Model for Wakes {
    ghost use Rattle.std.specs.Prelude.{◌-◌, min};
    ghost use Rattle.std.specs.BinaryHeap.{heap_capacity, heap_items, heap_len};
    ghost use Rattle.std.specs.HashSet.{spare};
    ghost use Rattle.mp_postdated.specs.Wakes.{IsQueueOf, Postdated, ordered};

    ghost Value = { Postdated };

    ghost view = { λ w. record { wakes = ordered w.live.keys; room = min (spare w.live) (heap_capacity w.queue - heap_len w.queue) } };

    ghost invariant = { λ w. IsQueueOf w.live.keys (heap_items w.queue) };
}

impl Wakes {
    /// No wake.
    pub fn new(alloc: Global) -> Wakes
        ensures { result.wakes ≡ [] }
    {
        Wakes {
            alloc,
            live: HashSet::new(alloc),
            queue: BinaryHeap::new(alloc),
        }
    }

    /// Makes room, so that the next `count` wakes are added without memory. `AllocError`: no memory, and nothing else
    /// changes.
    pub fn make_room(&mut self, count: usize) -> Result<(), AllocError>
        ensures room { OnOk result (count ≤ self.new.room) }
        ensures no_less { self.old.room ≤ self.new.room }
        ensures same { self.new.wakes ≡ self.old.wakes }
        ensures ascending { IsAscending self.new.wakes }
    {
        self.live.reserve(count)?;
        self.queue.reserve(count)
    }

    /// Adds the wake of a key at a time. One that is there already changes nothing. `AllocError`: no memory, and
    /// nothing changes.
    pub fn add(&mut self, time: Time, key: u64) -> Result<(), AllocError>
        ensures added { OnOk result (self.new.wakes ≡ with_wake self.old.wakes time key) }
        ensures exact { OnOk result ((t k : ℕ) → Has self.new.wakes t k ↔ (Has self.old.wakes t k ⊎ IsWake time key (t, k))) }
        ensures ascending { IsAscending self.new.wakes }
        ensures unchanged { OnErr result (self.new.wakes ≡ self.old.wakes) }
    {
        self.make_room(1)?;
        self.put(time, key);
        Ok(())
    }

    // Adds the wake of a key at a time. There is room for it.
    fn put(&mut self, time: Time, key: u64)
        requires { 1 ≤ self.old.room }
        ensures added { self.new.wakes ≡ with_wake self.old.wakes time key }
        ensures exact { (t k : ℕ) → Has self.new.wakes t k ↔ (Has self.old.wakes t k ⊎ IsWake time key (t, k)) }
        ensures ascending { IsAscending self.new.wakes }
        ensures room { self.old.room ≤ self.new.room + 1 }
    {
        let Ok(is_new) = self.live.insert((time, key)) else {
            unreachable!()
        };
        if !is_new {
            return;
        }
        let Ok(()) = self.queue.push(Reverse((time, key))) else {
            unreachable!()
        };
    }

    /// Adds the wakes of a key at times. There is room for them. Takes no memory.
    pub fn add_all(&mut self, key: u64, times: &[Time])
        requires { length times.now ≤ self.old.room }
        ensures exact { (t k : ℕ) → Has self.new.wakes t k ↔ (Has self.old.wakes t k ⊎ IsAmongWakes times.now key (t, k)) }
        ensures ascending { IsAscending self.new.wakes }
    {
        let _ = &self.live;
        for time in times {
            self.put(*time, key);
        }
    }

    /// Sorts what `iter` gives, by time and then by key, for the sake of speed alone: no contract tells its order.
    /// `AllocError`: no memory, and nothing changes.
    pub fn sort(&mut self) -> Result<(), AllocError>
        ensures same { self.new.wakes ≡ self.old.wakes }
        ensures room { self.old.room ≤ self.new.room }
    {
        if self.live.iter().is_sorted() {
            return Ok(());
        }
        let mut wakes: Vec<(Time, u64)> = self.live.iter().copied().collect(self.alloc)?;
        wakes.sort_unstable();
        self.live.clear();
        fill(&mut self.live, &wakes);
        Ok(())
    }

    /// The wakes, in no particular order.
    pub fn iter(&self) -> hash_set::Iter<'_, (Time, u64)>
        ensures wakes { IsPermutation self.now.wakes result }
        ensures ascending { IsAscending self.now.wakes }
        ensures fits { length result < 2 ^ 63 }
    {
        self.live.iter()
    }

    /// The first wake by time and then by key; `None` exactly where there is none.
    pub fn least(&self) -> Option<(Time, u64)>
        ensures first { result ≡ slice_get self.now.wakes 0 }
        ensures there { IfSome result (λ w. Has self.now.wakes w.0 w.1) }
        ensures least { IfSome result (λ w. (t k : ℕ) → Has self.now.wakes t k → ComesNoLater w (t, k)) }
        ensures none { IfNone result (self.now.wakes ≡ []) }
    {
        match self.queue.peek() {
            Some(first) => Some(first.0),
            None => None,
        }
    }

    /// Takes out the wake of a key at a time: whether it was there. Takes no memory.
    pub fn take_due(&mut self, time: Time, key: u64) -> bool
        ensures there { IsTrue result ↔ Has self.old.wakes time key }
        ensures taken { self.new.wakes ≡ without_wake self.old.wakes time key }
        ensures exact { (t k : ℕ) → Has self.new.wakes t k ↔ (Has self.old.wakes t k × (¬ IsWake time key (t, k))) }
        ensures unchanged { OnFalse result (self.new.wakes ≡ self.old.wakes) }
        ensures room { self.old.room ≤ self.new.room }
        ensures ascending { IsAscending self.new.wakes }
    {
        let was_there = self.live.remove(&(time, key));
        drop_wake(&mut self.queue, &self.live, time, key);
        was_there
    }

    /// Whether a key is to be woken at a time.
    pub fn has(&self, time: Time, key: u64) -> bool
        ensures { IsTrue result ↔ Has self.now.wakes time key }
    {
        self.live.contains(&(time, key))
    }

    /// The number of wakes.
    pub fn len(&self) -> usize
        ensures wakes { result ≡ length self.now.wakes }
        ensures ascending { IsAscending self.now.wakes }
    {
        self.live.len()
    }

    /// Whether there is no wake.
    pub fn is_empty(&self) -> bool
        ensures { IsTrue result ↔ (self.now.wakes ≡ []) }
    {
        self.live.is_empty()
    }
}
