//! Events that are written to a file.
ghost use Rattle.std.specs.Prelude.{◌≡◌, Err, ℕ, OnErr, OnOk, IfErr, take};
ghost use Rattle.mp_outside.specs.Fault.{Rose};
ghost use Rattle.mp_outside.specs.Files.{with_file};
ghost use Rattle.mp_outside.specs.Sink.{OnlyAppends, grown};
ghost use Rattle.mp_outside.specs.declared.fault.Fault.TheVariants.{Failed};
ghost use Rattle.mp_command_files.specs.EventFile.{HoldsPart, event_file};
ghost use Rattle.mp_command_files.specs.Outcome.{StopsAnswer};
ghost use Rattle.mp_command_files.specs.Refused.{EndsAs, outcome_of};

use crate::refusal::Refusal;
use mp_events::write_event;
use mp_model::Event;
use mp_outside::{Depot, DepotSink, Fault, Sink, write_piece};
use std::alloc::Global;

/// Makes the file of this name hold the lines of events. `WriteFault`: the file couldn't be begun or appended to; `NoMemory`: no memory.
pub fn events_to<'a, D: Depot>(
    alloc: Global,
    depot: &mut D,
    name: &'a str,
    events: &[Event],
) -> Result<(), Refusal<'a>>
    ensures whole { OnOk result (D.files depot.new ≡ with_file (D.files depot.old) name.now (event_file events.now)) }
    ensures part { OnErr result (HoldsPart name.now (event_file events.now) (D.files depot.old) (D.files depot.new)) }
    ensures refused { IfErr result (λ r. StopsAnswer (outcome_of r)) }
    ensures failed { IfErr result (λ r. EndsAs r 7
        → Rose (D.write_faults depot.old) (D.write_faults depot.new)) }
{
    depot.begin(name)?;
    let mut sink = DepotSink::new(depot, name);
    Ok(write_events(alloc, events, &mut sink)?)
}

/// Writes the lines of events, each as one piece. `Failed`: the sink's own; `NoMemory`: no memory. A part of the
/// lines, from the front, may be written.
fn write_events<S: Sink>(alloc: Global, events: &[Event], sink: &mut S) -> Result<(), Fault>
    ensures whole { OnOk result
        (S.written sink.new ≡ grown (S.written sink.old) (event_file events.now)) }
    ensures part { OnErr result ((k : ℕ)
        × (S.written sink.new ≡ grown (S.written sink.old) (take k (event_file events.now)))) }
    ensures failed { result ≡ Err Failed → Rose (S.faults sink.old) (S.faults sink.new) }
    ensures appends_only { OnlyAppends S.frame S.faults sink.old sink.new }
{
    for event in events {
        let mut line = Vec::new(alloc);
        write_event(&mut line, event)?;
        write_piece(sink, line.as_slice())?;
    }
    Ok(())
}
