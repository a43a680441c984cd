//! A checkpoint, read from its file.
ghost use Rattle.std.specs.Prelude.{◌≡◌, ◌<◌, ◌≤◌, ◌^◌, IfOk, IsErrOf, MatchOption, length};
ghost use Rattle.mp_names.specs.Limits.{most_bytes};
ghost use Rattle.mp_opening.specs.Openings.{MayOpen};
ghost use Rattle.mp_opening.specs.Checkpoints.{CheckpointOf};
ghost use Rattle.mp_checkpoint_laws.specs.Files.{IsFileOf, format_of};
ghost use Rattle.mp_checkpoint.specs.declared.refused.CheckpointRefused.TheVariants.{BadCheckpoint};

use crate::CheckpointRefused;
use crate::first::time_in;
use crate::fitting::fits;
use crate::lines::put_first_line;
use crate::matching::{behind, is_file_of};
use crate::reading::read_items;
use mp_opening::Checkpoint;
use mp_saved::Saved;
use std::alloc::{AllocError, Global};

/// The checkpoint that has this file, of at most 2^28 bytes, with this query and the values of its rules; a job may go on
/// from it. `BadCheckpoint` comes only where none has it, `NoMemory` where an allocation fails.
pub fn read_checkpoint<Q: Saved>(
    alloc: Global,
    bytes: &[u8],
    query: &Q,
) -> Result<Checkpoint<Q>, CheckpointRefused>
    requires { length bytes.now ≤ most_bytes }
    ensures file { IfOk result (λ c. IsFileOf (format_of Q.NUMBER (Q.values query.now) (Q.facts (Q.values query.now)) Q.text_of) c bytes.now) }
    ensures may { IfOk result (λ c. MayOpen (Q.facts (Q.values query.now)) c) }
    ensures none { IsErrOf result BadCheckpoint → (c : CheckpointOf Q.Cell) → IsFileOf (format_of Q.NUMBER (Q.values query.now) (Q.facts (Q.values query.now)) Q.text_of) c bytes.now → ⊥ }
{
    let Some(checkpoint) = read_loosely(alloc, query, bytes)? else {
        return Err(CheckpointRefused::BadCheckpoint);
    };
    if !fits(query, &checkpoint) {
        return Err(CheckpointRefused::BadCheckpoint);
    }
    let same = is_file_of(alloc, query, &checkpoint, bytes)?;
    if !same {
        return Err(CheckpointRefused::BadCheckpoint);
    }
    Ok(checkpoint)
}

// The checkpoint that has this text as its file. What comes of other texts is open. `AllocError`: no memory.
fn read_loosely<Q: Saved>(
    alloc: Global,
    query: &Q,
    text: &[u8],
) -> Result<Option<Checkpoint<Q>>, AllocError>
    ensures { (d : CheckpointOf Q.Cell) → length text.now < 2 ^ 64 → IsFileOf (format_of Q.NUMBER (Q.values query.now) (Q.facts (Q.values query.now)) Q.text_of) d text.now →
        IfOk result (λ found. MatchOption found ⊥ (λ c. c ≡ d)) }
{
    let Some(time) = time_in(alloc, query, text)? else {
        return Ok(None);
    };
    let mut first = Vec::new(alloc);
    put_first_line(query, time, &mut first)?;
    let Some(rest) = behind(first.as_slice(), text) else {
        return Ok(None);
    };
    let mut cells = Vec::new(alloc);
    let mut wakes = Vec::new(alloc);
    read_items(alloc, query, rest, &mut cells, &mut wakes)?;
    Ok(Some(Checkpoint { time, cells, wakes }))
}
