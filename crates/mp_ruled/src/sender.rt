//! The end that pushes.
ghost use Rattle.std.specs.Prelude.{◌≡◌, ◌≤◌, ◌+◌, ◌∷◌, [], ◌++◌, length, OnOk, OnErr, IfErr};
ghost use mathlib.Core.List.{IsPrefix};
ghost use Rattle.mp_mailbox.specs.Names.{Distinct, names_of};
ghost use Rattle.mp_ruled.specs.Ends.{HadRoom, WasFull, with_sent};

use crate::note::Note;
use crate::receiver::ReceiverEnd;
use crate::rule::{Meets, Queue, ReadsGot, Sends, Tells};
use crate::view::QueueView;
use crossbeam_queue::Pass;
use mp_mailbox::{Full, Named};
use std::alloc::Global;
use std::marker::Model;
use std::sync::{Arc, Wait};

/// The end of a queue that pushes, of which there is one. Contracts see which queue it is, all that was
/// pushed, and a beginning of what was popped. It may go to another thread.
#[derive(Drop)]
pub struct SenderEnd<M: Named> {
    pub(crate) queue: Arc<Queue<M>, Global>,
    pub(crate) pass: Pass<M, QueueView<M>>,
}

impl<M: Named> Model for SenderEnd<M> {
    ghost use Rattle.std.specs.Arc.{arc_value};
    ghost use Rattle.mp_ruled.specs.Ends.{EndState};

    ghost Value = { EndState M };

    ghost use Rattle.mp_ruled.specs.Passes.{end_state, IsSender};

    ghost view = { λ e. end_state e.pass };

    ghost invariant = { λ e. IsSender (arc_value e.queue) e.pass };
}

impl<M: Named + Drop> SenderEnd<M> {
    /// Pushes a message behind all that wait. `Full` with the message: the queue was full at one moment of
    /// the call. Takes no memory. It may spin behind a thread that has stalled.
    pub fn push<R: Wait>(&mut self, rt: &R, message: M) -> Result<(), Full<M>>
        requires edge { (M.from message ≡ self.old.from) × (M.to message ≡ self.old.to) }
        requires fresh { Distinct (names_of M.names (self.old.sent ++ message ∷ [])) }

        ensures ok { OnOk result (self.new ≡ with_sent self.old message) }
        ensures room { OnOk result (HadRoom self.old) }

        ensures unchanged { OnErr result (self.new ≡ self.old) }
        ensures back { IfErr result (λ f. f.message ≡ message) }
        ensures full { OnErr result (WasFull self.old) }
    {
        match self.queue.push_as::<Sends, R>(rt, &mut self.pass, message) {
            Ok(()) => Ok(()),
            Err(message) => Err(Full { message }),
        }
    }

    /// Writes down what this end knows, for the receiver: all that was pushed so far.
    pub fn tell(&mut self) -> Note<M>
        ensures note { result ≡ self.old }
        ensures same { self.new ≡ self.old }
    {
        Note {
            pass: self.queue.another::<Tells>(&mut self.pass),
        }
    }

    /// Reads what the receiver had popped when it wrote the note.
    pub fn hear(&mut self, note: Note<M>)
        requires { note.queue ≡ self.old.queue }
        ensures { self.new ≡ record self.old { got = note.got } }
    {
        let Note { pass } = note;
        self.queue.absorb::<ReadsGot>(&mut self.pass, pass);
    }

    /// With both ends in one hand: what was popped is a prefix of what was pushed, each name once, and no
    /// more messages wait than the queue holds. Both ends then know the same.
    pub fn meets(self, receiver: ReceiverEnd<M>) -> (SenderEnd<M>, ReceiverEnd<M>)
        requires { receiver.queue ≡ self.queue }

        ensures prefix { IsPrefix receiver.got self.sent }
        ensures waiting { length self.sent ≤ length receiver.got + self.depth }
        ensures once { Distinct (names_of M.names self.sent) }

        ensures sender { result.0 ≡ record self { got = receiver.got } }
        ensures receiver { result.1 ≡ result.0 }
    {
        let SenderEnd { queue, mut pass } = self;
        let ReceiverEnd {
            queue: theirs,
            pass: other,
        } = receiver;
        queue.absorb::<Meets>(&mut pass, other);
        queue.learn_as::<Meets>(&mut pass);
        let other = queue.another::<Meets>(&mut pass);
        (
            SenderEnd { queue, pass },
            ReceiverEnd {
                queue: theirs,
                pass: other,
            },
        )
    }
}
