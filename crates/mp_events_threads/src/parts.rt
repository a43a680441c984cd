//! The parts of a file that threads read.
ghost use Rattle.std.specs.Prelude.{◌<◌, ◌≤◌, All, IfOk, length};
ghost use Rattle.mp_events.specs.Pieces.{IsPieceOf};

use mp_events::{Piece, line_start_behind, read_piece};
use std::alloc::{AllocError, Global};
use std::thread::{Threads, join};

/// The pieces of numbers below `end` of a file that is cut into `count`, in their order: the first on the thread of the caller, each
/// other on a thread of its own where one can be made. `AllocError`: no memory.
#[cycle(pieces)]
pub fn pieces_below<R: Threads>(
    rt: &R,
    alloc: Global,
    text: &[u8],
    end: usize,
    count: usize,
) -> Result<Vec<Piece>, AllocError>
    requires some { 0 < end }
    requires within { end ≤ count }
    ensures { IfOk result (λ pieces. All (IsPieceOf text.now) pieces.items) }
{
    let last = end - 1;
    if last == 0 {
        return first_piece(alloc, text, count);
    }
    let (piece, before) = join(
        rt,
        || -> Result<Piece, AllocError>
            requires { last < count }
            ensures { IfOk result (λ piece. IsPieceOf text.entry.now piece) }
        { piece_of(alloc, text, last, count) },
        || -> Result<Vec<Piece>, AllocError>
            requires { (0 < last) × (last ≤ count) }
            ensures { IfOk result (λ pieces. All (IsPieceOf text.entry.now) pieces.items) }
        { pieces_below(rt, alloc, text, last, count) },
    );
    let mut pieces = before?;
    pieces.push(piece?)?;
    Ok(pieces)
}

// The first piece of so many, with room for the others behind it. `AllocError`: no memory.
fn first_piece(alloc: Global, text: &[u8], count: usize) -> Result<Vec<Piece>, AllocError>
    requires { 0 < count }
    ensures { IfOk result (λ pieces. All (IsPieceOf text.now) pieces.items) }
{
    let mut pieces = Vec::with_capacity(alloc, count)?;
    pieces.push_reserved(piece_of(alloc, text, 0, count)?);
    Ok(pieces)
}

// The piece of this number, of so many. `AllocError`: no memory.
fn piece_of(alloc: Global, text: &[u8], k: usize, count: usize) -> Result<Piece, AllocError>
    requires { k < count }
    ensures { IfOk result (λ piece. IsPieceOf text.now piece) }
{
    read_piece(
        alloc,
        text,
        start_of(text, k, count),
        start_of(text, k + 1, count),
    )
}

// Where the piece of this number begins, of so many, or where the last one ends.
fn start_of(text: &[u8], k: usize, count: usize) -> usize
    requires { k ≤ count }
    ensures { result ≤ length text.now }
{
    if k == 0 {
        return 0;
    }
    if k == count {
        return text.len();
    }
    line_start_behind(text, k * (text.len() / count))
}
