//! A checkpoint's way into a sink.
ghost use Rattle.std.specs.Prelude.{◌≡◌, OnErr, OnOk};
ghost use Rattle.mp_outside.specs.Fault.{HasCause};
ghost use Rattle.mp_outside.specs.Sink.{OnlyAppends, grown};
ghost use Rattle.mp_checkpoint_laws.specs.Files.{CheckpointFits, file_text, format_of, lines_of};
ghost use Rattle.mp_checkpoint.specs.Written.{IsWrittenInPart, texts_of};

use crate::item::Items;
use crate::lines::{put_first_line, put_item, put_last_line};
use mp_opening::Checkpoint;
use mp_outside::{Fault, Sink, write_piece};
use mp_saved::Saved;
use std::alloc::Global;

/// Writes the file of a checkpoint of this query, each line as one piece. `Failed`: only where the sink's count of faults
/// rose in this call or stands at its last value, 2^64 - 1. `NoMemory`: an allocation failed. With either a beginning of the
/// file is written. Any answer but `Failed` leaves that count as it was.
pub fn write_checkpoint<Q: Saved, S: Sink>(
    alloc: Global,
    query: &Q,
    checkpoint: &Checkpoint<Q>,
    sink: &mut S,
) -> Result<(), Fault>
    requires { CheckpointFits (format_of Q.NUMBER (Q.values query.now) (Q.facts (Q.values query.now)) Q.text_of) checkpoint.now }
    ensures whole { OnOk result (S.written sink.new ≡ grown (S.written sink.old)
        (file_text (format_of Q.NUMBER (Q.values query.now) (Q.facts (Q.values query.now)) Q.text_of)
        checkpoint.now.time (lines_of checkpoint.now.cells checkpoint.now.wakes))) }
    ensures part { OnErr result (IsWrittenInPart
        (file_text (format_of Q.NUMBER (Q.values query.now) (Q.facts (Q.values query.now)) Q.text_of)
        checkpoint.now.time (lines_of checkpoint.now.cells checkpoint.now.wakes))
        (S.written sink.old) (S.written sink.new)) }
    ensures appends_only { OnlyAppends S.frame S.faults sink.old sink.new }
    ensures cause { HasCause (S.faults sink.old) (S.faults sink.new) result }
{
    let mut line = Vec::new(alloc);
    put_first_line(query, checkpoint.time, &mut line)?;
    write_piece(sink, line.as_slice())?;
    write_items(query, checkpoint, &mut line, sink)?;
    line.clear();
    let count = checkpoint.cells.len() as u64 + checkpoint.wakes.len() as u64;
    put_last_line(count, &mut line)?;
    write_piece(sink, line.as_slice())
}

// Writes the lines between the first and the last. The refusals are those of the file, and the buffer may hold anything
// before and behind.
fn write_items<Q: Saved, S: Sink>(
    query: &Q,
    checkpoint: &Checkpoint<Q>,
    line: &mut Vec<u8>,
    sink: &mut S,
) -> Result<(), Fault>
    requires { CheckpointFits (format_of Q.NUMBER (Q.values query.now) (Q.facts (Q.values query.now)) Q.text_of) checkpoint.now }
    ensures whole { OnOk result (S.written sink.new ≡ grown (S.written sink.old)
        (texts_of (format_of Q.NUMBER (Q.values query.now) (Q.facts (Q.values query.now)) Q.text_of)
        (lines_of checkpoint.now.cells checkpoint.now.wakes))) }
    ensures part { OnErr result (IsWrittenInPart
        (texts_of (format_of Q.NUMBER (Q.values query.now) (Q.facts (Q.values query.now)) Q.text_of)
        (lines_of checkpoint.now.cells checkpoint.now.wakes))
        (S.written sink.old) (S.written sink.new)) }
    ensures appends_only { OnlyAppends S.frame S.faults sink.old sink.new }
    ensures cause { HasCause (S.faults sink.old) (S.faults sink.new) result }
{
    let mut items = Items::of(&checkpoint.cells, &checkpoint.wakes);
    while let Some(item) = items.item() {
        line.clear();
        put_item(query, &item, line)?;
        write_piece(sink, line.as_slice())?;
    }
    Ok(())
}
