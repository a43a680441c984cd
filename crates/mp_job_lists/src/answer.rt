//! Whether an answer is that of rows.
ghost use Rattle.std.specs.Prelude.{◌≡◌, ◌↔◌, IfOk, IsTrue};
ghost use Rattle.std.specs.List.{flat_map};
ghost use Rattle.mp_model.specs.Answers.{in_order, line_of};

use mp_fold::in_order;
use mp_model::Output;
use mp_row_text::put_line;
use std::alloc::{AllocError, Global};

/// Whether these bytes are the lines of the rows, in their order. One line at a time is written out. `AllocError`: no memory.
pub fn is_answer(alloc: Global, rows: Vec<Output>, answer: &[u8]) -> Result<bool, AllocError>
    ensures { IfOk result (λ is. IsTrue is ↔ (answer.now ≡ flat_map line_of (in_order rows.items))) }
{
    let mut rest = answer;
    let mut line = Vec::new(alloc);
    for (place, value) in in_order(alloc, rows)? {
        line.clear();
        put_line(&mut line, &place, &value)?;
        match rest.strip_prefix(line.as_slice()) {
            Some(after) => rest = after,
            None => return Ok(false),
        }
    }
    Ok(rest.is_empty())
}
