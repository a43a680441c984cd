//! What an end knows, written down.
use crate::view::QueueView;
use crossbeam_queue::Pass;
use mp_mailbox::Named;
use std::marker::Model;

/// What an end of a queue knew when it was written. It has no bytes, and may go to another thread, where
/// the other end reads it. Contracts see what the end knew.
#[derive(Drop)]
pub struct Note<M: Named> {
    pub(crate) pass: Pass<M, QueueView<M>>,
}

impl<M: Named> Model for Note<M> {
    ghost use Rattle.mp_ruled.specs.Ends.{EndState};

    ghost Value = { EndState M };

    ghost use Rattle.mp_ruled.specs.Passes.{end_state, HoldsNothing};

    ghost view = { λ n. end_state n.pass };

    ghost invariant = { λ n. HoldsNothing n.pass };
}
