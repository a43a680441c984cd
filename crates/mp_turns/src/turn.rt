//! What a step answers.
ghost use Rattle.std.specs.Prelude.{◌≡◌, IfNone, IfSome};
ghost use Rattle.mp_turns.specs.declared.turn.Stop.TheVariants.{Memory};
ghost use Rattle.mp_turns.specs.declared.turn.Turn.TheVariants as turn;
ghost use Rattle.mp_turns.specs.Stops.{stop_at_hub, stop_of_write};

use mp_board::{Cause, HubStop};
use mp_msg::Names;
use mp_names::Name;
use mp_output::OutRefused;
use std::alloc::AllocError;

/// What came of a step.
#[derive(Clone, Copy, PartialEq, Eq)]
pub enum Turn {
    /// The step was made: names were put into the worker's log, of which this is the first, and which are so many; several
    /// only where records travel together.
    Did(Name, u64),
    /// The log was posted, or the board had changed: this version of the board was seen.
    Seen(u64),
    /// The step can't be made now. Nothing changed.
    NotNow,
    /// Another worker held the board. Nothing changed.
    Busy,
}

/// Why a worker stops.
#[derive(Clone, Copy, Debug)]
pub enum Stop {
    /// A write failed.
    Write,
    /// There was no memory.
    Memory,
    /// Another worker stopped before, by this cause.
    Other(Cause),
}

impl From<AllocError> for Stop {
    ghost from_gives = { λ _ stop. stop ≡ Memory };

    fn from(_: AllocError) -> Self {
        Stop::Memory
    }
}

impl From<OutRefused> for Stop {
    ghost from_gives = { λ refused stop. stop ≡ stop_of_write refused };

    fn from(refused: OutRefused) -> Self {
        match refused {
            OutRefused::WriteFault => Stop::Write,
            OutRefused::NoMemory => Stop::Memory,
        }
    }
}

impl From<HubStop> for Stop {
    ghost from_gives = { λ refused stop. stop ≡ stop_at_hub refused };

    fn from(refused: HubStop) -> Self {
        match refused {
            HubStop::Other(cause) => Stop::Other(cause),
        }
    }
}

/// The answer of a step that put these names into the log, or none.
// Inlined, so that of the answer only what is read is made.
#[inline(always)]
pub fn turn_of(made: Option<Names>) -> Turn
    ensures did { IfSome made (λ told. result ≡ turn.Did told.first told.count) }
    ensures not_now { IfNone made (result ≡ turn.NotNow) }
{
    match made {
        Some(Names { first, count }) => Turn::Did(first, count),
        None => Turn::NotNow,
    }
}
