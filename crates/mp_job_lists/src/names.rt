//! What records, rows and packets are called.
ghost use Rattle.std.specs.Prelude.{◌≡◌, IfOk, map};
ghost use Rattle.mp_outline.specs.JobOutline.{name_of_record, name_of_row};
ghost use Rattle.mp_job_lists.specs.Packets.{name_of_move};

use mp_model::{Output, Rec};
use mp_names::{Move, Name};
use std::alloc::{AllocError, Global};

/// The names of the records of a stage, in their order. `AllocError`: no memory.
pub fn record_names(alloc: Global, stage: u32, recs: &[Rec]) -> Result<Vec<Name>, AllocError>
    ensures { IfOk result (λ names. names.items ≡ map (name_of_record stage) recs.now) }
{
    let name = |rec: &Rec| Name::Rec {
        stage,
        time: rec.time,
        key: rec.key,
        tag: rec.tag,
    };
    recs.iter().map(name).collect(alloc)
}

/// The names of answer rows, in their order. `AllocError`: no memory.
pub fn row_names(alloc: Global, rows: &[Output]) -> Result<Vec<Name>, AllocError>
    ensures { IfOk result (λ names. names.items ≡ map name_of_row rows.now) }
{
    let name = |row: &Output| Name::Row {
        time: row.time,
        tag: row.tag,
    };
    rows.iter().map(name).collect(alloc)
}

/// The names of the packets of moves, in their order. `AllocError`: no memory.
pub fn packet_names(alloc: Global, moves: &[Move]) -> Result<Vec<Name>, AllocError>
    ensures { IfOk result (λ names. names.items ≡ map name_of_move moves.now) }
{
    let name = |change: &Move| Name::Packet {
        stage: change.stage,
        bin: change.bin,
        time: change.time,
    };
    moves.iter().map(name).collect(alloc)
}
