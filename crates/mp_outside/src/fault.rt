// Why a call on the outside was refused.
ghost use Rattle.std.specs.Prelude.{◌≡◌};
ghost use Rattle.mp_outside.specs.Refused.{refused_for};
ghost use Rattle.mp_outside.specs.declared.fault.Fault.TheVariants.{NoMemory as WantOfMemory};
ghost use Rattle.mp_outside.specs.declared.fault.ReadRefused.TheVariants.{NoMemory};

use std::alloc::AllocError;

/// Why a depot or a sink refused a call.
#[derive(Clone, Copy, Debug)]
pub enum Fault {
    /// The outside failed: the count of faults of the object that was called rose, or stands at its
    /// last value, 2^64 - 1.
    Failed,
    /// An allocation failed.
    NoMemory,
}

impl From<AllocError> for Fault {
    ghost from_gives = { λ _ fault. fault ≡ WantOfMemory };

    fn from(_: AllocError) -> Self {
        Fault::NoMemory
    }
}

/// Why `read_all` refused to read a name.
#[derive(Clone, Copy, Debug, PartialEq, Eq)]
pub enum ReadRefused {
    /// The depot has no such name.
    NotThere,
    /// The depot failed.
    Failed,
    /// The name holds more bytes than were allowed.
    TooLarge,
    /// An allocation failed.
    NoMemory,
}

impl From<Fault> for ReadRefused {
    ghost from_gives = { λ fault refused. refused ≡ refused_for fault };

    fn from(fault: Fault) -> Self {
        match fault {
            Fault::Failed => ReadRefused::Failed,
            Fault::NoMemory => ReadRefused::NoMemory,
        }
    }
}

impl From<AllocError> for ReadRefused {
    ghost from_gives = { λ _ refused. refused ≡ NoMemory };

    fn from(_: AllocError) -> Self {
        ReadRefused::NoMemory
    }
}
