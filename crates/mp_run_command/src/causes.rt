//! What stopped a run, as the refusal of the command.
ghost use Rattle.std.specs.Prelude.{◌≡◌};
ghost use Rattle.mp_run_command.specs.Stopped.{refused_after};

use mp_board::Cause;
use mp_command::Refusal;

/// The refusal where workers have stopped.
pub fn refused_after<'a>(cause: Cause) -> Refusal<'a>
    ensures { result ≡ refused_after cause }
{
    match cause {
        Cause::Write => Refusal::WriteFault,
        Cause::Memory => Refusal::NoMemory,
    }
}
