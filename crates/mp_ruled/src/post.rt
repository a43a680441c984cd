//! The ends of one worker.
ghost use Rattle.std.specs.Prelude.{◌≡◌, []};
ghost use Rattle.mp_ruled.specs.Posts.{HasEnds};

use crate::own::OwnQueue;
use crate::receiver::ReceiverEnd;
use crate::sender::SenderEnd;
use mp_mailbox::{Full, Named, Post};
use std::marker::Model;
use std::sync::Wait;

/// The ends of one worker, a sender and a receiver for each worker, and the runtime by which their queues
/// wait; and its messages to itself, which no other thread sees, so that they take none of the locked instructions of a queue
/// between threads: its own two ends aren't used. It serves that worker alone, and may go to its thread. Contracts see the
/// ends and those messages.
pub struct RuledPost<M: Named, R> {
    rt: R,
    worker: u32,
    senders: Vec<SenderEnd<M>>,
    receivers: Vec<ReceiverEnd<M>>,
    own: OwnQueue<M>,
}

// By hand, so that crates above call it and don't write out the drop of each field.
impl<M: Named + Drop, R: Drop> Drop for RuledPost<M, R> {
    fn drop(self) {
        let RuledPost {
            rt: _,
            worker: _,
            senders: _,
            receivers: _,
            own: _,
        } = self;
    }
}

impl<M: Named, R> Model for RuledPost<M, R> {
    ghost use Rattle.mp_mailbox.specs.Names.{OnEdge};
    ghost use Rattle.mp_ruled.specs.Posts.{PostState, HasEnds};

    ghost Value = { PostState M };

    ghost view = { λ p. record { worker = p.worker; senders = p.senders.items; receivers = p.receivers.items; own = p.own } };

    ghost invariant = { λ p.
        HasEnds p.worker p.senders.items p.receivers.items
        × OnEdge M.from M.to p.worker p.worker p.own.waiting };
}

impl<M: Named + Drop, R: Wait> Post<M> for RuledPost<M, R> {
    ghost use Rattle.std.specs.Prelude.{◌≡◌, length};
    ghost use Rattle.mp_ruled.specs.Posts.{RuledStands, SenderHadRoom, SenderWasFull, ReceiverWasEmpty};

    ghost workers = { λ p. length p.senders };

    ghost serves = { λ p worker. worker ≡ p.worker };

    ghost denotes = { RuledStands M.names };

    ghost had_room = { SenderHadRoom };

    ghost was_full = { SenderWasFull };

    ghost was_empty = { ReceiverWasEmpty };

    fn push(&mut self, _from: u32, to: u32, message: M) -> Result<(), Full<M>> {
        if to == self.worker {
            return self.own.push(message);
        }
        self.senders[to as usize].push(&self.rt, message)
    }

    fn is_empty(&mut self, from: u32, _to: u32) -> bool {
        if from == self.worker {
            return self.own.is_empty();
        }
        self.receivers[from as usize].is_empty()
    }

    fn pop(&mut self, from: u32, _to: u32) -> Option<M> {
        if from == self.worker {
            return self.own.pop();
        }
        self.receivers[from as usize].pop(&self.rt)
    }
}

impl<M: Named, R> RuledPost<M, R> {
    /// The post of these ends: at each worker's number the end that pushes to it, and the end that pops
    /// from it; and of a queue for the worker's messages to itself.
    pub fn new(
        rt: R,
        worker: u32,
        senders: Vec<SenderEnd<M>>,
        receivers: Vec<ReceiverEnd<M>>,
        own: OwnQueue<M>,
    ) -> RuledPost<M, R>
        requires ends { HasEnds worker senders.items receivers.items }
        requires own { own.waiting ≡ [] }
        ensures { result ≡ record { worker = worker; senders = senders.items; receivers = receivers.items; own = own } }
    {
        RuledPost {
            rt,
            worker,
            senders,
            receivers,
            own,
        }
    }
}
