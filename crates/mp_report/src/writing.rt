//! The report's way into a sink.
ghost use Rattle.std.specs.Prelude.{◌≡◌, ◌≢◌, Err, List, OnErr, OnOk, length, ℕ};
ghost use Rattle.mp_names.specs.Names.{IsPrefix};
ghost use Rattle.mp_outside.specs.Fault.{Rose};
ghost use Rattle.mp_outside.specs.Sink.{OnlyAppends, grown};
ghost use Rattle.mp_output.specs.declared.refused.OutRefused.TheVariants.{WriteFault};
ghost use Rattle.mp_ordered.specs.InOrder.{IsInOrder};
ghost use Rattle.mp_report.specs.Report.{IsReported, IsReportedInPart, move_lines, worker_lines};
ghost use Rattle.mp_tally.specs.Tallies.{AreTalliesOf};
ghost use Rattle.mp_report.specs.Told.{groups_told, keys_in, rank_of_packet};
ghost use Rattle.mp_model.specs.Tables.{table_of};

use crate::lines::{line_of_move, line_of_worker};
use crate::told::{keys_in, packets_told};
use mp_job::Job;
use mp_job_owners::moves_of;
use mp_model::Query;
use mp_names::Move;
use mp_output::OutRefused;
use mp_outside::{Sink, write_piece};
use mp_tally::{Moved, Tally};
use std::alloc::Global;

/// Writes the report of a job, whose tallies these are by the workers' numbers, each line as one piece: each move of a bin
/// by time, stage and bin, with how many of its keys then have a cell that isn't fresh; then each worker, with how many
/// groups it owns. `WriteFault`: only where the sink's count of faults rose in this call or stands at its last value,
/// 2^64 - 1. `NoMemory`: an allocation failed. With either a beginning of the report is written. Any answer but
/// `WriteFault` leaves that count as it was.
pub fn write_report<Q: Query, S: Sink>(
    alloc: Global,
    job: &Job<Q>,
    tallies: &[Tally],
    sink: &mut S,
) -> Result<(), OutRefused>
    requires { AreTalliesOf (table_of Q.facts job.now) job.now tallies.now }
    ensures whole { OnOk result (IsReported (table_of Q.facts job.now) job.now
        (S.written sink.old) (S.written sink.new)) }
    ensures part { OnErr result (IsReportedInPart (table_of Q.facts job.now) job.now
        (S.written sink.old) (S.written sink.new)) }
    ensures failed { result ≡ Err WriteFault → Rose (S.faults sink.old) (S.faults sink.new) }
    ensures no_fault { result ≢ Err WriteFault → S.faults sink.new ≡ S.faults sink.old }
    ensures appends_only { OnlyAppends S.frame S.faults sink.old sink.new }
{
    let moves = moves_of(alloc, job)?;
    let packets = packets_told(alloc, tallies)?;
    write_moves(alloc, &moves, &packets, sink)?;
    write_workers(alloc, tallies, sink)
}

// Writes the lines of moves, with the keys of their packets, which come by time, stage and bin. The refusals are those of
// the report.
fn write_moves<S: Sink>(
    alloc: Global,
    moves: &[Move],
    packets: &[Moved],
    sink: &mut S,
) -> Result<(), OutRefused>
    requires { IsInOrder rank_of_packet packets.now }
    ensures whole { OnOk result (S.written sink.new
        ≡ grown (S.written sink.old) (move_lines (keys_in packets.now) moves.now)) }
    ensures part { OnErr result ((text : List ℕ)
        × IsPrefix text (move_lines (keys_in packets.now) moves.now)
        × (S.written sink.new ≡ grown (S.written sink.old) text)) }
    ensures failed { result ≡ Err WriteFault → Rose (S.faults sink.old) (S.faults sink.new) }
    ensures no_fault { result ≢ Err WriteFault → S.faults sink.new ≡ S.faults sink.old }
    ensures appends_only { OnlyAppends S.frame S.faults sink.old sink.new }
{
    for change in moves {
        let line = line_of_move(alloc, *change, keys_in(packets, *change))?;
        write_piece(sink, line.as_slice())?;
    }
    Ok(())
}

// Writes the lines of the workers, with the groups that the tallies tell. The refusals are those of the report.
fn write_workers<S: Sink>(alloc: Global, tallies: &[Tally], sink: &mut S) -> Result<(), OutRefused>
    ensures whole { OnOk result (S.written sink.new
        ≡ grown (S.written sink.old) (worker_lines (groups_told tallies.now) (length tallies.now))) }
    ensures part { OnErr result ((text : List ℕ)
        × IsPrefix text (worker_lines (groups_told tallies.now) (length tallies.now))
        × (S.written sink.new ≡ grown (S.written sink.old) text)) }
    ensures failed { result ≡ Err WriteFault → Rose (S.faults sink.old) (S.faults sink.new) }
    ensures no_fault { result ≢ Err WriteFault → S.faults sink.new ≡ S.faults sink.old }
    ensures appends_only { OnlyAppends S.frame S.faults sink.old sink.new }
{
    for (worker, tally) in tallies.iter().enumerate() {
        let line = line_of_worker(alloc, worker as u64, tally.groups)?;
        write_piece(sink, line.as_slice())?;
    }
    Ok(())
}
