//! The lines of rows.
ghost use Rattle.std.specs.Prelude.{◌≡◌, ◌≤◌, ◌++◌, OnOk, length, take};
ghost use Rattle.mp_output.specs.Unwritten.{lines_of};

use crate::place::{ByPlace, place_of};
use mp_model::Output;
use mp_ordered::OrderedBlocks;
use mp_row_text::put_line;
use std::alloc::AllocError;
use std::collections::VecDeque;

/// Bytes that most lines need no more than, so that one allocation serves most answers.
const ROOM_FOR_LINE: usize = 32;

/// Puts the lines of the first rows, so many of them, in place of what a list has. `AllocError`: no memory, and the list has
/// some of them or none.
pub fn put_first(
    lines: &mut Vec<u8>,
    rows: &OrderedBlocks<Output, ByPlace>,
    count: usize,
) -> Result<(), AllocError>
    requires { count ≤ length rows.now.items }
    ensures { OnOk result (lines.new.items ≡ lines_of (take count rows.now.items)) }
{
    lines.clear();
    lines.reserve(count.saturating_mul(ROOM_FOR_LINE))?;
    let mut left = count;
    for block in rows.as_blocks() {
        if left <= block.len() {
            put_lines(lines, block, left)?;
            return Ok(());
        }
        put_lines(lines, block, block.len())?;
        left -= block.len();
    }
    Ok(())
}

// Puts the lines of the first rows of a block behind others. `AllocError`: no memory, and some may be there.
fn put_lines(lines: &mut Vec<u8>, block: &VecDeque<Output>, count: usize) -> Result<(), AllocError>
    requires { count ≤ length block.now.items }
    ensures { OnOk result (lines.new.items ≡ lines.old.items ++ lines_of (take count block.now.items)) }
{
    for index in 0..count {
        let row = &block[index];
        put_line(lines, &place_of(row), &row.value)?;
    }
    Ok(())
}
