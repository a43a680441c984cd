//! The lines of a checkpoint's file.
ghost use Rattle.std.specs.Prelude.{◌≡◌, ◌++◌, ◌∷◌, [], ℕ, OnOk, true};
ghost use Rattle.std.specs.Fmt.{decimal};
ghost use Rattle.mp_checkpoint_laws.specs.Files.{cell_line, first_line, format_of, last_line, line_text, wake_line};
ghost use Rattle.mp_checkpoint.specs.Firsts.{front_of};
ghost use Rattle.mp_checkpoint.specs.Items.{CellsMay, line_said};
ghost use Rattle.mp_checkpoint.specs.Written.{texts_of};

use crate::item::Item;
use mp_model::Time;
use mp_opening::{KeyCell, KeyWake};
use mp_saved::{Saved, put_more};
use mp_text::put_number;
use std::alloc::AllocError;

/// Appends the first line of a file, for a checkpoint of this time. `AllocError`: no memory, and a part of it may be
/// appended.
pub fn put_first_line<Q: Saved>(query: &Q, time: Time, out: &mut Vec<u8>) -> Result<(), AllocError>
    ensures { OnOk result (out.new.items ≡ out.old.items ++ (first_line (format_of Q.NUMBER (Q.values query.now) (Q.facts (Q.values query.now)) Q.text_of) time ++ 10 ∷ [])) }
{
    put_front::<Q>(out)?;
    put_number(out, time)?;
    put_more(out, query.values().as_slice())?;
    out.extend_from_slice(b"\n")
}

/// Appends the front of a first line, up to its time. `AllocError`: no memory, and a part of it may be appended.
pub fn put_front<Q: Saved>(out: &mut Vec<u8>) -> Result<(), AllocError>
    ensures { OnOk result (out.new.items ≡ out.old.items ++ front_of Q.NUMBER) }
{
    out.extend_from_slice(b"K|1|q")?;
    put_number(out, u64::from(Q::NUMBER))?;
    out.extend_from_slice(b"|")
}

/// Appends the last line of a file that has so many lines between the first and the last. `AllocError`: no memory, and a
/// part of it may be appended.
pub fn put_last_line(count: u64, out: &mut Vec<u8>) -> Result<(), AllocError>
    ensures { OnOk result (out.new.items ≡ out.old.items ++ (last_line count ++ 10 ∷ [])) }
{
    out.extend_from_slice(b"E|")?;
    put_number(out, count)?;
    out.extend_from_slice(b"\n")
}

/// Appends the line of a cell or a wake. `AllocError`: no memory, and a part of it may be appended.
pub fn put_item<Q: Saved>(
    query: &Q,
    item: &Item<Q::Cell>,
    out: &mut Vec<u8>,
) -> Result<(), AllocError>
    ensures { (until : ℕ) → CellsMay (format_of Q.NUMBER (Q.values query.now) (Q.facts (Q.values query.now)) Q.text_of) until (line_said item.now ∷ []) →
        OnOk result (out.new.items ≡ out.old.items ++ texts_of (format_of Q.NUMBER (Q.values query.now) (Q.facts (Q.values query.now)) Q.text_of) (line_said item.now ∷ [])) }
{
    match item {
        Item::Cell(cell) => put_cell_line(query, cell, out),
        Item::Wake(wake) => put_wake_line(query, wake, out),
    }
}

// Appends the line of a cell that may be saved at some time. What it appends of other cells is open.
fn put_cell_line<Q: Saved>(
    query: &Q,
    cell: &KeyCell<Q::Cell>,
    out: &mut Vec<u8>,
) -> Result<(), AllocError>
    ensures { (until : ℕ) → (Q.facts (Q.values query.now)).allows cell.now.stage cell.now.key until cell.now.cell ≡ true →
        OnOk result (out.new.items ≡ out.old.items ++ texts_of (format_of Q.NUMBER (Q.values query.now) (Q.facts (Q.values query.now)) Q.text_of) (cell_line cell.now ∷ [])) }
{
    put_start(b'c', cell.stage, cell.key, out)?;
    query.put_cell(cell.stage, &cell.cell, out)?;
    out.extend_from_slice(b"\n")
}

// Appends the line of a wake, which is the same for each query.
fn put_wake_line<Q: Saved>(_query: &Q, wake: &KeyWake, out: &mut Vec<u8>) -> Result<(), AllocError>
    ensures { OnOk result (out.new.items ≡ out.old.items ++ texts_of (format_of Q.NUMBER (Q.values _query.now) (Q.facts (Q.values _query.now)) Q.text_of) (wake_line wake.now ∷ [])) }
{
    put_start(b'w', wake.stage, wake.key, out)?;
    put_number(out, wake.time)?;
    out.extend_from_slice(b"\n")
}

// Appends the start of a line, up to the bar behind the key.
fn put_start(kind: u8, stage: u32, key: u64, out: &mut Vec<u8>) -> Result<(), AllocError>
    ensures { OnOk result (out.new.items ≡ out.old.items ++ kind ∷ 124 ∷ (decimal stage ++ 124 ∷ (decimal key ++ 124 ∷ []))) }
{
    out.push(kind)?;
    out.push(b'|')?;
    put_number(out, u64::from(stage))?;
    out.push(b'|')?;
    put_number(out, key)?;
    out.extend_from_slice(b"|")
}
