//! The journal's way into a sink.
ghost use Rattle.std.specs.Prelude.{◌≡◌, ◌≢◌, Err, OnErr, OnOk, take, ℕ};
ghost use Rattle.mp_journal.specs.Written.{lines_of_steps};
ghost use Rattle.mp_outside.specs.Fault.{Rose};
ghost use Rattle.mp_outside.specs.Sink.{OnlyAppends, grown};
ghost use Rattle.mp_output.specs.declared.refused.OutRefused.TheVariants.{WriteFault};

use mp_journal::{Kept, write_step};
use mp_output::OutRefused;
use mp_outside::{Sink, write_piece};
use std::alloc::Global;

/// Writes the lines of the steps that a worker kept, in their order, each as one piece. `WriteFault`: only where the sink's
/// count of faults rose in this call or stands at its last value, 2^64 - 1. `NoMemory`: an allocation failed. With either a
/// beginning of the lines is written. Any answer but `WriteFault` leaves that count as it was.
pub fn write_journal<S: Sink>(
    alloc: Global,
    worker: u32,
    steps: &[Kept],
    sink: &mut S,
) -> Result<(), OutRefused>
    ensures whole { OnOk result
        (S.written sink.new ≡ grown (S.written sink.old) (lines_of_steps worker steps.now)) }
    ensures part { OnErr result ((k : ℕ)
        × (S.written sink.new ≡ grown (S.written sink.old) (take k (lines_of_steps worker steps.now)))) }
    ensures failed { result ≡ Err WriteFault → Rose (S.faults sink.old) (S.faults sink.new) }
    ensures no_fault { result ≢ Err WriteFault → S.faults sink.new ≡ S.faults sink.old }
    ensures appends_only { OnlyAppends S.frame S.faults sink.old sink.new }
{
    let mut line = Vec::new(alloc);
    for step in steps {
        line.clear();
        write_step(&mut line, worker, *step)?;
        write_piece(sink, line.as_slice())?;
    }
    Ok(())
}
