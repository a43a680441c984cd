//! What stopped a write, a report or a plan, as the refusal of the command.
ghost use Rattle.std.specs.Prelude.{◌≡◌};
ghost use Rattle.mp_command_files.specs.declared.refusal.Refusal.TheVariants.{NoMemory};
ghost use Rattle.mp_command_files.specs.Refused.{refused_by, refused_for};

use crate::refusal::Refusal;
use mp_output::OutRefused;
use mp_outside::Fault;
use mp_plans::PlanRefused;
use std::alloc::AllocError;

impl<'a> From<AllocError> for Refusal<'a> {
    ghost from_gives = { λ _ refusal. refusal ≡ NoMemory };

    fn from(_: AllocError) -> Self {
        Refusal::NoMemory
    }
}

// The plans of a demo have 8192 records at most, so that they aren't too many.
impl<'a> From<PlanRefused> for Refusal<'a> {
    ghost from_gives = { λ _ refusal. refusal ≡ NoMemory };

    fn from(_: PlanRefused) -> Self {
        Refusal::NoMemory
    }
}

// Reads answer a `ReadRefused`: a fault alone is that of a begin or an append.
impl<'a> From<Fault> for Refusal<'a> {
    ghost from_gives = { λ fault refusal. refusal ≡ refused_for fault };

    fn from(fault: Fault) -> Self {
        match fault {
            Fault::Failed => Refusal::WriteFault,
            Fault::NoMemory => Refusal::NoMemory,
        }
    }
}

impl<'a> From<OutRefused> for Refusal<'a> {
    ghost from_gives = { λ why refusal. refusal ≡ refused_by why };

    fn from(why: OutRefused) -> Self {
        match why {
            OutRefused::WriteFault => Refusal::WriteFault,
            OutRefused::NoMemory => Refusal::NoMemory,
        }
    }
}
