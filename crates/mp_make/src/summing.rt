//! The summary of an answer.
ghost use Rattle.std.specs.Prelude.{◌≡◌, ◌++◌, IfOk, OnOk};
ghost use Rattle.std.specs.Fmt.{decimal};
ghost use Rattle.mp_make.specs.Summary.{hash_of, rows_in, summary_of};

use mp_text::put_number;
use std::alloc::{AllocError, Global};

/// One line on an answer: how many events there were, how many rows the answer has (line feeds), how many bytes, and their
/// hash. `AllocError`: no memory.
pub fn summary(alloc: Global, events: u64, bytes: &[u8]) -> Result<Vec<u8>, AllocError>
    ensures { IfOk result (λ line. line.items ≡ summary_of events bytes.now) }
{
    let mut line = Vec::new(alloc);
    put_named(&mut line, b"events ", events)?;
    put_named(&mut line, b" rows ", rows_in(bytes) as u64)?;
    put_named(&mut line, b" bytes ", bytes.len() as u64)?;
    put_named(&mut line, b" hash ", hash_of(bytes))?;
    line.push(b'\n')?;
    Ok(line)
}

// Appends a text and a number.
fn put_named(line: &mut Vec<u8>, name: &[u8], number: u64) -> Result<(), AllocError>
    ensures { OnOk result (line.new.items ≡ line.old.items ++ (name.now ++ decimal number)) }
{
    line.extend_from_slice(name)?;
    put_number(line, number)
}

// How many line feeds there are.
fn rows_in(bytes: &[u8]) -> usize
    ensures { result ≡ rows_in bytes.now }
{
    bytes.iter().filter(|byte| **byte == b'\n').count()
}

// The hash of bytes, modulo 2^64.
fn hash_of(bytes: &[u8]) -> u64
    ensures { result ≡ hash_of bytes.now }
{
    bytes.iter().fold(0u64, |hash, byte| {
        hash.wrapping_mul(31).wrapping_add(u64::from(*byte))
    })
}
