//! The end that pops.
ghost use Rattle.std.specs.Prelude.{◌≡◌, true, ◌∷◌, [], ◌++◌, IfSome, IfNone};
ghost use Rattle.mp_mailbox.specs.Names.{Distinct, names_of};
ghost use Rattle.mp_ruled.specs.Ends.{WasEmpty, with_got};

use crate::note::Note;
use crate::rule::{Gets, Queue, ReadsSent, Tells};
use crate::view::QueueView;
use crossbeam_queue::Pass;
use mp_mailbox::Named;
use std::alloc::Global;
use std::marker::Model;
use std::sync::{Arc, Wait};

/// The end of a queue that pops, of which there is one. Contracts see which queue it is, all that was
/// popped, and a beginning of what was pushed. It may go to another thread.
#[derive(Drop)]
pub struct ReceiverEnd<M: Named> {
    pub(crate) queue: Arc<Queue<M>, Global>,
    pub(crate) pass: Pass<M, QueueView<M>>,
}

impl<M: Named> Model for ReceiverEnd<M> {
    ghost use Rattle.std.specs.Arc.{arc_value};
    ghost use Rattle.mp_ruled.specs.Ends.{EndState};

    ghost Value = { EndState M };

    ghost use Rattle.mp_ruled.specs.Passes.{end_state, IsReceiver};

    ghost view = { λ e. end_state e.pass };

    ghost invariant = { λ e. IsReceiver (arc_value e.queue) e.pass };
}

impl<M: Named + Drop> ReceiverEnd<M> {
    /// Pops the message that was pushed first of those that wait, or answers `None` where none waited at
    /// one moment of the call. Takes no memory. It may spin behind a thread that has stalled.
    pub fn pop<R: Wait>(&mut self, rt: &R) -> Option<M>
        ensures some { IfSome result (λ message. self.new ≡ with_got self.old message) }
        ensures edge { IfSome result (λ message. (M.from message ≡ self.old.from) × (M.to message ≡ self.old.to)) }
        ensures once { IfSome result (λ message. Distinct (names_of M.names (self.old.got ++ message ∷ []))) }

        ensures none { IfNone result (self.new ≡ self.old) }
        ensures empty { IfNone result (WasEmpty self.old) }
    {
        self.queue.pop_as::<Gets, R>(rt, &mut self.pass)
    }

    /// Whether no message waits: where `true`, none waited at one moment of the call. `false` promises nothing. Takes no
    /// memory, and doesn't wait.
    pub fn is_empty(&mut self) -> bool
        ensures empty { result ≡ true → WasEmpty self.old }
        ensures same { self.new ≡ self.old }
    {
        self.queue.is_empty_as::<Gets>(&mut self.pass)
    }

    /// Writes down what this end knows, for the sender: all that was popped so far.
    pub fn tell(&mut self) -> Note<M>
        ensures note { result ≡ self.old }
        ensures same { self.new ≡ self.old }
    {
        Note {
            pass: self.queue.another::<Tells>(&mut self.pass),
        }
    }

    /// Reads what the sender had pushed when it wrote the note. From now on `None` says that all of it was
    /// popped.
    pub fn hear(&mut self, note: Note<M>)
        requires { note.queue ≡ self.old.queue }
        ensures { self.new ≡ record self.old { sent = note.sent } }
    {
        let Note { pass } = note;
        self.queue.absorb::<ReadsSent>(&mut self.pass, pass);
    }
}
