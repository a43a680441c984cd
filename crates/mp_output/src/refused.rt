//! Why rows weren't written.
ghost use Rattle.std.specs.Prelude.{◌≡◌};
ghost use Rattle.mp_output.specs.Refused.{refused_for};
ghost use Rattle.mp_output.specs.declared.refused.OutRefused.TheVariants.{NoMemory};

use mp_outside::Fault;
use std::alloc::AllocError;

/// Why the rows of a time weren't written.
#[derive(Clone, Copy, Debug, PartialEq, Eq)]
pub enum OutRefused {
    /// The sink failed: its count of faults rose, or stands at its last value, 2^64 - 1.
    WriteFault,
    /// An allocation failed.
    NoMemory,
}

impl From<Fault> for OutRefused {
    ghost from_gives = { λ fault refused. refused ≡ refused_for fault };

    fn from(fault: Fault) -> Self {
        match fault {
            Fault::Failed => OutRefused::WriteFault,
            Fault::NoMemory => OutRefused::NoMemory,
        }
    }
}

impl From<AllocError> for OutRefused {
    ghost from_gives = { λ _ refused. refused ≡ NoMemory };

    fn from(_: AllocError) -> Self {
        OutRefused::NoMemory
    }
}
