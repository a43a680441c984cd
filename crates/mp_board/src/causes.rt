//! Why workers stop, and what an exchange answers.
ghost use Rattle.std.specs.Prelude.{◌≡◌};
ghost use Rattle.mp_board.specs.declared.causes.Cause.TheVariants.{Memory};

use mp_stamps::Seen;
use std::alloc::AllocError;

/// Why a worker stopped.
#[derive(Clone, Copy, PartialEq, Eq, Debug)]
pub enum Cause {
    /// A write failed.
    Write,
    /// There was no memory.
    Memory,
}

impl From<AllocError> for Cause {
    ghost from_gives = { λ _ cause. cause ≡ Memory };

    fn from(_: AllocError) -> Self {
        Cause::Memory
    }
}

/// What an exchange answers that posts the log, or that may be asked again.
#[derive(Clone, Copy)]
pub enum Answer {
    /// The log is posted, and this was seen.
    Got(Seen),
    /// Another worker held the board. Nothing is posted.
    Busy,
}

/// Why an exchange posts nothing, and the worker stops.
#[derive(Clone, Copy, PartialEq, Eq, Debug)]
pub enum HubStop {
    /// Another worker stopped before.
    Other(Cause),
}
