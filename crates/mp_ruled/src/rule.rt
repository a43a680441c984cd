//! The rule of a queue, and its steps.
ghost use Rattle.std.specs.Prelude.{ℕ};

use crate::view::QueueView;
use crossbeam_queue::RuledArrayQueue;
use crossbeam_queue::protocol::{Join, Lesson, Outcome, Protocol, Split};
use mp_mailbox::Named;
use std::marker::{Brand, PhantomData};

/// The queue of one edge.
pub type Queue<M> = RuledArrayQueue<M, QueueView<M>, InOrder>;

/// The rule of a queue with one sender and one receiver.
pub struct InOrder;

impl<M: Named> Protocol<M, QueueView<M>> for InOrder {
    ghost use Rattle.mp_ruled.specs.Rule.{KeepsOrder, opening_view};

    ghost holds = { KeepsOrder M.names M.from M.to };

    ghost first = { opening_view };
}

/// Which edge a queue is for, and how many messages it holds. The call that makes the queue picks it.
pub trait Edge {
    ghost from: { ℕ };

    ghost to: { ℕ };

    ghost depth: { ℕ };
}

impl Edge for Brand {
    ghost from = { 0 };

    ghost to = { 0 };

    ghost depth = { 0 };
}

/// A new queue gets its edge and its two ends.
pub struct TwoEnds<E> {
    of: PhantomData<E>,
}

impl<M, E: Edge> Split<QueueView<M>> for TwoEnds<E> {
    ghost use Rattle.mp_ruled.specs.Rule.{sender_view, receiver_view};

    ghost left = { λ v. sender_view E.from E.to E.depth v.sent v.got };

    ghost right = { λ v. receiver_view E.from E.to E.depth v.sent v.got };
}

/// A push, and what a full queue tells.
pub struct Sends;

impl<M> Outcome<M, QueueView<M>> for Sends {
    ghost use Rattle.mp_ruled.specs.Rule.{Pushed};

    ghost then = { Pushed };
}

impl<M> Lesson<M, QueueView<M>> for Sends {
    ghost use Rattle.mp_ruled.specs.Ends.{Waits};

    ghost fact = { λ v items. Waits v.sent v.got items };
}

/// A pop, and what an empty queue tells.
pub struct Gets;

impl<M: Named> Outcome<M, QueueView<M>> for Gets {
    ghost use Rattle.mp_ruled.specs.Rule.{Popped};

    ghost then = { Popped M.names M.from M.to };
}

impl<M> Lesson<M, QueueView<M>> for Gets {
    ghost use Rattle.mp_ruled.specs.Rule.{Arrives};

    ghost fact = { Arrives };
}

/// An end writes down what it knows.
pub struct Tells;

impl<M> Split<QueueView<M>> for Tells {
    ghost use Rattle.mp_ruled.specs.Rule.{note_view};

    ghost left = { λ v. v };

    ghost right = { note_view };
}

/// A receiver reads what was sent.
pub struct ReadsSent;

impl<M> Join<QueueView<M>> for ReadsSent {
    ghost use Rattle.mp_ruled.specs.Rule.{knowing_sent, blank};

    ghost both = { knowing_sent };

    ghost spent = { blank };
}

/// A sender reads what was popped.
pub struct ReadsGot;

impl<M> Join<QueueView<M>> for ReadsGot {
    ghost use Rattle.mp_ruled.specs.Rule.{knowing_got, blank};

    ghost both = { knowing_got };

    ghost spent = { blank };
}

/// Both ends in one hand, and what they learn there.
pub struct Meets;

impl<M> Join<QueueView<M>> for Meets {
    ghost use Rattle.mp_ruled.specs.Rule.{both_view, blank};

    ghost both = { both_view };

    ghost spent = { blank };
}

impl<M: Named> Lesson<M, QueueView<M>> for Meets {
    ghost use Rattle.mp_ruled.specs.Rule.{Met};

    ghost fact = { Met M.names };
}

impl<M> Split<QueueView<M>> for Meets {
    ghost use Rattle.mp_ruled.specs.Rule.{sender_view, receiver_view};

    ghost left = { λ v. sender_view v.from v.to v.depth v.sent v.got };

    ghost right = { λ v. receiver_view v.from v.to v.depth v.sent v.got };
}
