//! The messages of a worker to itself.
ghost use Rattle.std.specs.Prelude.{◌≡◌, ◌↔◌, ◌<◌, ◌∷◌, [], ◌++◌, IsTrue, length, IfErr, IfNone, IfOk, IfSome, OnErr, OnOk};

use mp_mailbox::Full;
use std::alloc::{AllocError, Global};
use std::collections::VecDeque;
use std::marker::Model;

/// The messages of a worker to itself that wait, the oldest first, and how many may. No other thread sees them, so they wait in
/// a plain queue. Contracts see an `OwnState`.
pub struct OwnQueue<M> {
    depth: u32,
    waiting: VecDeque<M>,
}

// By hand, so that crates above call it and don't write out the drop of each field.
impl<M: Drop> Drop for OwnQueue<M> {
    fn drop(self) {
        let OwnQueue {
            depth: _,
            waiting: _,
        } = self;
    }
}

impl<M> Model for OwnQueue<M> {
    ghost use Rattle.std.specs.Prelude.{◌≤◌, length};
    ghost use Rattle.std.specs.VecDeque.{deque_capacity};
    ghost use Rattle.mp_ruled.specs.Own.{OwnState};

    ghost Value = { OwnState M };

    ghost view = { λ q. record { depth = q.depth; waiting = q.waiting.items } };

    ghost invariant = { λ q. (q.depth ≤ deque_capacity q.waiting) × (length q.waiting.items ≤ q.depth) };
}

impl<M: Drop> OwnQueue<M> {
    /// No messages, with room for so many. No later call takes memory. `AllocError`: no memory.
    pub fn new(alloc: Global, depth: u32) -> Result<OwnQueue<M>, AllocError>
        ensures { IfOk result (λ queue. queue ≡ record { depth = depth; waiting = [] }) }
    {
        let waiting = VecDeque::with_capacity(alloc, depth as usize)?;
        Ok(OwnQueue { depth, waiting })
    }

    /// Whether no message waits.
    pub(crate) fn is_empty(&self) -> bool
        ensures { IsTrue result ↔ (self.now.waiting ≡ []) }
    {
        self.waiting.is_empty()
    }

    /// Puts a message behind all that wait, or hands it back where as many wait as may.
    pub(crate) fn push(&mut self, message: M) -> Result<(), Full<M>>
        ensures room { OnOk result (length self.old.waiting < self.old.depth) }
        ensures ok { OnOk result (self.new ≡ record self.old { waiting = self.old.waiting ++ message ∷ [] }) }
        ensures full { OnErr result (length self.old.waiting ≡ self.old.depth) }
        ensures back { IfErr result (λ f. f.message ≡ message) }
        ensures unchanged { OnErr result (self.new ≡ self.old) }
    {
        if self.waiting.len() >= self.depth as usize {
            return Err(Full { message });
        }
        self.waiting.push_back_reserved(message);
        Ok(())
    }

    /// Takes the message that waits longest, if one waits.
    pub(crate) fn pop(&mut self) -> Option<M>
        ensures some { IfSome result (λ message. self.old.waiting ≡ message ∷ self.new.waiting) }
        ensures none { IfNone result (self.old.waiting ≡ []) }
        ensures unchanged { IfNone result (self.new ≡ self.old) }
        ensures depth { self.new.depth ≡ self.old.depth }
    {
        self.waiting.pop_front()
    }
}
