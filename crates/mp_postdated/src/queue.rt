//! The queue of a set of wakes.
ghost use Rattle.std.specs.Prelude.{◌≡◌, ◌↔◌, ◌≤◌, ◌<◌, ◌∷◌, ℕ, Contains, IfSome, IsTrue, Some, slice_get};
ghost use Rattle.std.specs.Bool.{OnFalse, OnTrue};
ghost use Rattle.std.specs.BinaryHeap.{IsHeap, heap_capacity, heap_items, heap_len};
ghost use Rattle.mp_postdated.specs.Wakes.{AreQueued, BeginsLive, IsQueueOf, queue_cmp, reversed};

use mp_model::Time;
use std::cmp::Reverse;
use std::collections::{BinaryHeap, HashSet};

/// Wakes, the earliest first.
pub type Queue = BinaryHeap<Reverse<(Time, u64)>>;

/// Takes the wake of a key at a time, which isn't live any more, off the front of a queue, if it stands there, and what
/// isn't live behind it. Takes no memory.
pub fn drop_wake(queue: &mut Queue, live: &HashSet<(Time, u64)>, time: Time, key: u64)
    requires gone { ¬ Contains live.now.keys (time, key) }
    requires heap { IsHeap queue_cmp (heap_items queue.old) }
    requires all { AreQueued live.now.keys (heap_items queue.old) }
    requires first { BeginsLive ((time, key) ∷ live.now.keys) (heap_items queue.old) }
    ensures queue { IsQueueOf live.now.keys (heap_items queue.new) }
    ensures capacity { heap_capacity queue.new ≡ heap_capacity queue.old }
    ensures len { heap_len queue.new ≤ heap_len queue.old }
{
    if begins_with(queue, time, key) {
        queue.pop();
        drop_taken(queue, live);
    }
}

// Whether the wake of a key at a time is the first in a queue.
fn begins_with(queue: &Queue, time: Time, key: u64) -> bool
    ensures first { IsTrue result ↔ (slice_get (heap_items queue.now) 0 ≡ Some (reversed (time, key))) }
    ensures some { OnTrue result (0 < heap_len queue.now) }
{
    match queue.peek() {
        Some(first) => first.0 == (time, key),
        None => false,
    }
}

// Takes wakes that aren't live any more off the front of a queue.
fn drop_taken(queue: &mut Queue, live: &HashSet<(Time, u64)>)
    requires heap { IsHeap queue_cmp (heap_items queue.old) }
    requires all { AreQueued live.now.keys (heap_items queue.old) }
    ensures queue { IsQueueOf live.now.keys (heap_items queue.new) }
    ensures capacity { heap_capacity queue.new ≡ heap_capacity queue.old }
    ensures len { heap_len queue.new ≤ heap_len queue.old }
{
    while begins_taken(queue, live) {
        queue.pop();
    }
}

// Whether the first wake in a queue, if there is one, isn't live. A queue of no more wakes than are live has no others.
fn begins_taken(queue: &Queue, live: &HashSet<(Time, u64)>) -> bool
    requires { AreQueued live.now.keys (heap_items queue.now) }
    ensures some { OnTrue result (0 < heap_len queue.now) }
    ensures taken { OnTrue result (IfSome (slice_get (heap_items queue.now) 0) (λ r. ¬ Contains live.now.keys r.0)) }
    ensures live { OnFalse result (BeginsLive live.now.keys (heap_items queue.now)) }
{
    if queue.len() <= live.len() {
        return false;
    }
    match queue.peek() {
        Some(first) => !live.contains(&first.0),
        None => false,
    }
}
