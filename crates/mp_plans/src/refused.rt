//! Why a plan appends nothing.
ghost use Rattle.std.specs.Prelude.{◌≡◌};
ghost use Rattle.mp_plans.specs.declared.refused.PlanRefused.TheVariants.{NoMemory};

use std::alloc::AllocError;

/// Why a plan appends no records.
#[derive(Clone, Copy, Debug)]
pub enum PlanRefused {
    /// The list would have this many records, more than 65,536.
    TooMany {
        /// How many records the list would have.
        count: u64,
    },
    /// An allocation failed.
    NoMemory,
}

impl From<AllocError> for PlanRefused {
    ghost from_gives = { λ _ refused. refused ≡ NoMemory };

    fn from(_: AllocError) -> Self {
        PlanRefused::NoMemory
    }
}
