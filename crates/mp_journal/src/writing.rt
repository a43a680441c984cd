//! Steps as lines.
ghost use Rattle.std.specs.Prelude.{◌≡◌, ◌++◌, ◌∷◌, [], OnOk};
ghost use Rattle.std.specs.Fmt.{decimal};
ghost use Rattle.std.specs.List.{join_with_byte};
ghost use Rattle.mp_journal.specs.Written.{fields_of_step, line_of_step};

use mp_names::{Kept, Kind};
use mp_text::put_number;
use std::alloc::AllocError;

/// Appends the line of a worker's step: `s`, the worker, the letter of its kind, and the stage, the sender or the version where the
/// kind has one, cut by `|`, and a line feed. Numbers have no leading zeros. `AllocError`: no memory, and a beginning of the line is
/// appended.
pub fn write_step(out: &mut Vec<u8>, worker: u32, step: Kept) -> Result<(), AllocError>
    ensures { OnOk result (out.new.items ≡ out.old.items ++ line_of_step worker step) }
{
    out.extend_from_slice(b"s|")?;
    put_number(out, u64::from(worker))?;
    out.push(b'|')?;
    put_step(out, step)?;
    out.extend_from_slice(b"\n")
}

// Appends the letter of the step's kind, with its number.
fn put_step(out: &mut Vec<u8>, step: Kept) -> Result<(), AllocError>
    ensures { OnOk result (out.new.items ≡ out.old.items ++ join_with_byte 124 (fields_of_step step)) }
{
    match step.kind {
        Kind::Ingest => out.extend_from_slice(b"I"),
        Kind::SendControl => out.extend_from_slice(b"C"),
        Kind::Route(stage) => put_letter(out, b'R', u64::from(stage)),
        Kind::Receive(from) => put_letter(out, b'V', u64::from(from)),
        Kind::Extract(stage) => put_letter(out, b'E', u64::from(stage)),
        Kind::Settle(stage) => put_letter(out, b'S', u64::from(stage)),
        Kind::Apply(stage) => put_letter(out, b'A', u64::from(stage)),
        Kind::SendRow => out.extend_from_slice(b"O"),
        Kind::Write => out.extend_from_slice(b"W"),
        Kind::Exchange => put_letter(out, b'X', step.version),
    }
}

// Appends a letter with a number behind it.
fn put_letter(out: &mut Vec<u8>, letter: u8, number: u64) -> Result<(), AllocError>
    ensures { OnOk result (out.new.items ≡ out.old.items ++ letter ∷ 124 ∷ decimal number) }
{
    out.push(letter)?;
    out.push(b'|')?;
    put_number(out, number)
}
