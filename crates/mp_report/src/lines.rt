//! The lines of a report.
ghost use Rattle.std.specs.Prelude.{◌≡◌, ◌++◌, ◌∷◌, IfOk, OnOk};
ghost use Rattle.std.specs.Fmt.{decimal};
ghost use Rattle.std.specs.List.{flat_map};
ghost use Rattle.mp_report.specs.Lines.{line_of, line_of_move, line_of_worker};

use mp_names::Move;
use mp_text::put_number;
use std::alloc::{AllocError, Global};

/// The line of a move that moved so many keys. `AllocError`: no memory.
pub fn line_of_move(alloc: Global, change: Move, keys: u64) -> Result<Vec<u8>, AllocError>
    ensures { IfOk result (λ line. line.items ≡ line_of_move change keys) }
{
    let numbers = [
        change.time,
        u64::from(change.stage),
        u64::from(change.bin),
        u64::from(change.from),
        u64::from(change.to),
        keys,
    ];
    line_of(alloc, b"move", &numbers)
}

/// The line of a worker that owns so many groups. `AllocError`: no memory.
pub fn line_of_worker(alloc: Global, worker: u64, groups: u64) -> Result<Vec<u8>, AllocError>
    ensures { IfOk result (λ line. line.items ≡ line_of_worker worker groups) }
{
    line_of(alloc, b"worker", &[worker, groups])
}

fn line_of(alloc: Global, word: &[u8], numbers: &[u64]) -> Result<Vec<u8>, AllocError>
    ensures { IfOk result (λ line. line.items ≡ line_of word.now numbers.now) }
{
    let mut line = Vec::new(alloc);
    line.extend_from_slice(word)?;
    put_numbers(&mut line, numbers)?;
    line.push(b'\n')?;
    Ok(line)
}

// Appends numbers, each after a space.
fn put_numbers(line: &mut Vec<u8>, numbers: &[u64]) -> Result<(), AllocError>
    ensures { OnOk result (line.new.items ≡ line.old.items ++ flat_map (λ n. 32 ∷ decimal n) numbers.now) }
{
    for number in numbers {
        line.push(b' ')?;
        put_number(line, *number)?;
    }
    Ok(())
}
