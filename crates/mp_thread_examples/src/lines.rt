//! Numbers from one thread to another, through the two ends of a queue.
ghost use Rattle.std.specs.Prelude.{◌≡◌, ◌<◌, ◌≤◌, [], length, IfOk, vec_capacity};
ghost use mathlib.Core.List.{IsPrefix};
ghost use Rattle.mp_thread_examples.specs.Numbers.{numbers_below, values_of};

use crate::numbers::Number;
use mp_ruled::{ReceiverEnd, SenderEnd, ends_between};
use std::alloc::{AllocError, Global};
use std::sync::Wait;
use std::thread;
use std::thread::{Threads, join};

// Pushes the numbers below `count` in order, and tries again while the queue is full.
fn send_through<R: Wait>(rt: &R, mut sender: SenderEnd<Number>, count: u64) -> SenderEnd<Number>
    requires edge { (sender.from ≡ 0) × (sender.to ≡ 1) }
    requires new { sender.sent ≡ [] }
    ensures queue { result.queue ≡ sender.queue }
    ensures sent { values_of result.sent ≡ numbers_below count }
{
    let mut next = 0;
    for _ in rt.forever() {
        if next >= count {
            return sender;
        }
        match sender.push(rt, Number { value: next }) {
            Ok(()) => next += 1,
            Err(_) => thread::yield_now(),
        }
    }
    unreachable!()
}

// Pops until as many numbers have come as `got` has room for.
fn receive_through<R: Wait>(
    rt: &R,
    mut receiver: ReceiverEnd<Number>,
    mut got: Vec<u64>,
    count: usize,
) -> (ReceiverEnd<Number>, Vec<u64>)
    requires new { receiver.got ≡ [] }
    requires room { (got.items ≡ []) × (count ≤ vec_capacity got) }
    ensures queue { result.0.queue ≡ receiver.queue }
    ensures got { (values_of result.0.got ≡ result.1.items) × (length result.1.items ≡ count) }
{
    for _ in rt.forever() {
        if got.len() >= count {
            return (receiver, got);
        }
        match receiver.pop(rt) {
            Some(number) => got.push_reserved(number.value),
            None => thread::yield_now(),
        }
    }
    unreachable!()
}

/// The numbers below `count`, which went from one thread to another through a queue of this depth.
/// `AllocError`: no memory.
pub fn relay<R: Threads + Wait + Sync>(
    rt: &R,
    alloc: Global,
    count: u32,
    depth: u32,
) -> Result<Vec<u64>, AllocError>
    requires depth { 0 < depth }
    ensures { IfOk result (λ got. got.items ≡ numbers_below count) }
{
    let into = Vec::with_capacity(alloc, count as usize)?;
    let (sender, receiver) = ends_between::<Number>(alloc, 0, 1, depth)?;
    let (sender, (receiver, got)) = join(
        rt,
        move ||
            requires { (sender.from ≡ 0) × (sender.to ≡ 1) × (sender.sent ≡ []) }
            ensures { (result.queue ≡ sender.queue) × (values_of result.sent ≡ numbers_below count) }
        { send_through(rt, sender, u64::from(count)) },
        move ||
            requires { (receiver.got ≡ []) × (into.items ≡ []) × (count ≤ vec_capacity into) }
            ensures { (result.0.queue ≡ receiver.queue) × (values_of result.0.got ≡ result.1.items) × (length result.1.items ≡ count) }
        { receive_through(rt, receiver, into, count as usize) },
    );
    sender.meets(receiver);
    Ok(got)
}

/// Pops all that the sender has pushed so far.
pub fn pop_told<R: Wait>(rt: &R, sender: &mut SenderEnd<Number>, receiver: &mut ReceiverEnd<Number>)
    requires { sender.old.queue ≡ receiver.old.queue }
    ensures same { sender.new ≡ sender.old }
    ensures all { IsPrefix sender.old.sent receiver.new.got }
{
    receiver.hear(sender.tell());
    for _ in rt.forever() {
        if receiver.pop(rt).is_none() {
            return;
        }
    }
    unreachable!()
}
