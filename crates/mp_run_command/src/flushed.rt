//! What a run came to whose answer waits in a buffer.
ghost use Rattle.std.specs.Prelude.{◌≡◌};
ghost use Rattle.mp_run_command.specs.Flushed.{once_flushed};

use mp_command::Refusal;
use mp_outside::Fault;

/// What a run came to, once what waited of its answer was handed on, or wasn't. The run's own refusal comes first.
pub fn once_flushed<'a, T: Drop>(
    ran: Result<T, Refusal<'a>>,
    flushed: Result<(), Fault>,
) -> Result<T, Refusal<'a>>
    ensures { result ≡ once_flushed ran.entry flushed }
{
    let run = ran?;
    flushed?;
    Ok(run)
}
