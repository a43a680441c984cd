//! Why a text gives no checkpoint.
ghost use Rattle.std.specs.Prelude.{◌≡◌};
ghost use Rattle.mp_checkpoint.specs.declared.refused.CheckpointRefused.TheVariants.{NoMemory};

use std::alloc::AllocError;

/// Why a text gives no checkpoint.
#[derive(Clone, Copy, Debug)]
pub enum CheckpointRefused {
    /// The text is the file of no checkpoint of the query, with the values of its rules.
    BadCheckpoint,
    /// An allocation failure, which says nothing of the text.
    NoMemory,
}

impl From<AllocError> for CheckpointRefused {
    ghost from_gives = { λ _ why. why ≡ NoMemory };

    fn from(_error: AllocError) -> CheckpointRefused {
        CheckpointRefused::NoMemory
    }
}
