//! Plain queues, for workers that take turns on one thread.
ghost use Rattle.std.specs.Prelude.{◌≡◌, ◌<◌, ◌≤◌, ◌+◌, ◌*◌, ℕ, [], ◌∷◌, ◌++◌, length, IfOk, OnOk, OnErr, IfErr, IfSome, IfNone};
ghost use Rattle.std.specs.VecDeque.{deque_capacity};
ghost use Rattle.mp_mailbox.specs.Queues.{empty_queues, PlainDenotes};

use crate::post::{Full, Named, Post};
use std::alloc::{AllocError, Global};
use std::collections::VecDeque;
use std::marker::Model;

/// All queues between a number of workers, for one thread. Contracts see what is queued on each edge, so
/// that each answer is exact: `Ok` where fewer than `depth` messages wait, `Full` where `depth` do, `None`
/// where none does. It serves every worker.
#[derive(Drop)]
pub struct PlainPost<M> {
    workers: u32,
    depth: u32,
    queues: Vec<VecDeque<M>>,
}

impl<M> Model for PlainPost<M> {
    ghost use Rattle.std.specs.Prelude.{map};
    ghost use Rattle.mp_mailbox.specs.Queues.{Queues};

    ghost Value = { Queues M };

    ghost use Rattle.mp_mailbox.specs.Plain.{HasRoom};

    ghost view = { λ p. record { workers = p.workers; depth = p.depth; queued = map (λ q. q.items) p.queues.items } };

    ghost invariant = { λ p. HasRoom p.workers p.depth p.queues.items };
}

impl<M: Named + Drop> Post<M> for PlainPost<M> {
    ghost use Rattle.mp_mailbox.specs.Queues.{PlainDenotes, PlainWaits, HadRoom, WasFull, WasEmpty};

    ghost workers = { λ p. p.workers };

    ghost depth = { λ p. p.depth };

    ghost serves = { λ p worker. Unit {0} };

    ghost denotes = { PlainDenotes M.names M.from M.to };

    ghost waits = { PlainWaits M.names };

    ghost had_room = { HadRoom };

    ghost was_full = { WasFull };

    ghost was_empty = { WasEmpty };

    fn push(&mut self, from: u32, to: u32, message: M) -> Result<(), Full<M>> {
        let at = place(self.workers, from, to);
        push_below(&mut self.queues[at], self.depth, message)
    }

    fn is_empty(&mut self, from: u32, to: u32) -> bool {
        self.queues[place(self.workers, from, to)].is_empty()
    }

    fn pop(&mut self, from: u32, to: u32) -> Option<M> {
        let at = place(self.workers, from, to);
        pop_oldest(&mut self.queues[at])
    }
}

// Where the queue of an edge lies.
fn place(workers: u32, from: u32, to: u32) -> usize
    requires from { from < workers }
    requires to { to < workers }
    ensures place { result ≡ from * workers + to }
    ensures inside { result < workers * workers }
{
    from as usize * workers as usize + to as usize
}

// Pushes where fewer than `depth` messages wait.
fn push_below<M: Drop>(queue: &mut VecDeque<M>, depth: u32, message: M) -> Result<(), Full<M>>
    requires room { depth ≤ deque_capacity queue.old }
    ensures ok { OnOk result ((length queue.old.items < depth) × (queue.new.items ≡ queue.old.items ++ message ∷ [])) }
    ensures full { OnErr result ((depth ≤ length queue.old.items) × (queue.new.items ≡ queue.old.items)) }
    ensures back { IfErr result (λ f. f.message ≡ message) }
    ensures capacity { deque_capacity queue.new ≡ deque_capacity queue.old }
{
    if queue.len() >= depth as usize {
        return Err(Full { message });
    }
    queue.push_back_reserved(message);
    Ok(())
}

// Pops the message that was pushed first.
fn pop_oldest<M>(queue: &mut VecDeque<M>) -> Option<M>
    ensures some { IfSome result (λ m. queue.old.items ≡ m ∷ queue.new.items) }
    ensures none { IfNone result ((queue.old.items ≡ []) × (queue.new.items ≡ [])) }
    ensures capacity { deque_capacity queue.new ≡ deque_capacity queue.old }
{
    queue.pop_front()
}

impl<M: Named + Drop> PlainPost<M> {
    /// Empty queues between `workers` workers, each with room for `depth` messages. No later call takes
    /// memory. `AllocError`: no memory.
    pub fn new(alloc: Global, workers: u32, depth: u32) -> Result<PlainPost<M>, AllocError>
        ensures empty { IfOk result (λ p. p ≡ empty_queues workers depth) }
        ensures denotes { IfOk result (λ p. (from to : ℕ) → from < workers → to < workers → PlainDenotes M.names M.from M.to p from to [] []) }
    {
        let count = workers as usize * workers as usize;
        let mut queues = Vec::with_capacity(alloc, count)?;
        for _ in 0..count {
            queues.push_reserved(VecDeque::with_capacity(alloc, depth as usize)?);
        }
        Ok(PlainPost {
            workers,
            depth,
            queues,
        })
    }
}
