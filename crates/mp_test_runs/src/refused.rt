//! Why a test has not what it needs: one error for all, which costs less than one that holds any.
use mp_board::Cause;
use mp_control::ControlRefused;
use mp_events::EventsRefused;
use std::alloc::AllocError;

/// What is refused.
#[derive(Clone, Copy, Debug)]
pub enum Refused {
    /// An allocation failed.
    Memory,
    /// An event file has a bad line.
    Events,
    /// A configuration has a bad line.
    Control,
    /// A run stopped.
    Run,
}

impl From<AllocError> for Refused {
    fn from(_why: AllocError) -> Refused {
        Refused::Memory
    }
}

impl From<EventsRefused> for Refused {
    fn from(_why: EventsRefused) -> Refused {
        Refused::Events
    }
}

impl From<ControlRefused> for Refused {
    fn from(_why: ControlRefused) -> Refused {
        Refused::Control
    }
}

impl From<Cause> for Refused {
    fn from(_why: Cause) -> Refused {
        Refused::Run
    }
}
