//! Whether a text is the file of a checkpoint.
ghost use Rattle.std.specs.Prelude.{◌≡◌, ◌↔◌, ◌++◌, ℕ, List, IfOk, IsTrue, MatchOption};
ghost use Rattle.mp_checkpoint_laws.specs.Files.{CheckpointFits, file_text, lines_of, format_of};
ghost use Rattle.mp_checkpoint.specs.Written.{texts_of};

use crate::item::Items;
use crate::lines::{put_first_line, put_item, put_last_line};
use mp_opening::Checkpoint;
use mp_saved::Saved;
use std::alloc::{AllocError, Global};

/// Whether a text is the file of this checkpoint. `AllocError`: no memory.
pub fn is_file_of<Q: Saved>(
    alloc: Global,
    query: &Q,
    checkpoint: &Checkpoint<Q>,
    text: &[u8],
) -> Result<bool, AllocError>
    requires { CheckpointFits (format_of Q.NUMBER (Q.values query.now) (Q.facts (Q.values query.now)) Q.text_of) checkpoint.now }
    ensures { IfOk result (λ same. IsTrue same ↔ (text.now ≡ file_text (format_of Q.NUMBER (Q.values query.now) (Q.facts (Q.values query.now)) Q.text_of)
        checkpoint.now.time (lines_of checkpoint.now.cells checkpoint.now.wakes))) }
{
    let mut line = Vec::new(alloc);
    put_first_line(query, checkpoint.time, &mut line)?;
    let Some(rest) = behind(line.as_slice(), text) else {
        return Ok(false);
    };
    let Some(last) = behind_items(query, checkpoint, &mut line, rest)? else {
        return Ok(false);
    };
    line.clear();
    let count = checkpoint.cells.len() as u64 + checkpoint.wakes.len() as u64;
    put_last_line(count, &mut line)?;
    Ok(line.as_slice() == last)
}

// What stands in a text behind the lines of the cells and wakes, if these begin it. The buffer may hold anything before and
// behind.
fn behind_items<'a, Q: Saved>(
    query: &Q,
    checkpoint: &Checkpoint<Q>,
    line: &mut Vec<u8>,
    text: &'a [u8],
) -> Result<Option<&'a [u8]>, AllocError>
    requires { CheckpointFits (format_of Q.NUMBER (Q.values query.now) (Q.facts (Q.values query.now)) Q.text_of) checkpoint.now }
    ensures { IfOk result (λ found. MatchOption found
        ((rest : List ℕ) → text.now ≡ texts_of (format_of Q.NUMBER (Q.values query.now) (Q.facts (Q.values query.now)) Q.text_of) (lines_of checkpoint.now.cells checkpoint.now.wakes) ++ rest → ⊥)
        (λ rest. text.now ≡ texts_of (format_of Q.NUMBER (Q.values query.now) (Q.facts (Q.values query.now)) Q.text_of) (lines_of checkpoint.now.cells checkpoint.now.wakes) ++ rest.now)) }
{
    let mut items = Items::of(&checkpoint.cells, &checkpoint.wakes);
    let mut left = text;
    while let Some(item) = items.item() {
        line.clear();
        put_item(query, &item, line)?;
        let Some(rest) = behind(line.as_slice(), left) else {
            return Ok(None);
        };
        left = rest;
    }
    Ok(Some(left))
}

/// What stands behind the front of a text, if this begins it.
pub fn behind<'a>(front: &[u8], text: &'a [u8]) -> Option<&'a [u8]>
    ensures { MatchOption result ((rest : List ℕ) → text.now ≡ front.now ++ rest → ⊥) (λ rest. text.now ≡ front.now ++ rest.now) }
{
    if text.len() < front.len() {
        return None;
    }
    let (begin, rest) = text.split_at(front.len());
    if begin != front {
        return None;
    }
    Some(rest)
}
