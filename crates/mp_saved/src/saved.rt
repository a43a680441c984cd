//! Queries whose cells can be saved.
ghost use Rattle.std.specs.Prelude.{◌≡◌, ◌≢◌, ◌↔◌, ◌++◌, ◌<◌, ◌≤◌, ◌^◌, ℕ, List, All, Some, IfOk, OnOk, OnErr, IsErrOf, IsTrue, true};
ghost use Rattle.mp_saved.specs.Leaving.{LeavesWhatMayBeSaved};
ghost use Rattle.mp_saved.specs.declared.refused.CellRefused.TheVariants.{NoCell};

use crate::{CellRefused, ValueList};
use mp_model::{Query, Time};
use std::alloc::{AllocError, Global};

/// A query whose cells have a text. Which cells may be saved, and their texts, its table says (`allows`, `text_of`).
pub trait Saved: Query {
    /// Its number, 1 to 8: query 4 is `q4`.
    const NUMBER: u32;

    /// The same, for contracts.
    ghost NUMBER: { ℕ };

    /// The values of its rules, in order.
    fn values(&self) -> ValueList
        ensures { result ≡ Self.values self.now };

    /// Whether a cell of a key of a stage may be saved at this time.
    fn is_allowed(&self, stage: u32, key: u64, until: Time, cell: &Self::Cell) -> bool
        ensures { result ≡ (Self.facts (Self.values self.now)).allows stage key until cell.now };

    /// Appends the text of a cell that may be saved for some key and time. What it appends of other cells is open.
    /// `AllocError`: no memory, and a part of it may be appended.
    fn write_cell(&self, stage: u32, cell: &Self::Cell, out: &mut Vec<u8>) -> Result<(), AllocError>
        ensures { (key until : ℕ) → (Self.facts (Self.values self.now)).allows stage key until cell.now ≡ true → OnOk result (out.new.items ≡ out.old.items ++ Self.text_of stage cell.now) };

    /// A cell that may be saved, by its text. What comes of other texts is open. `AllocError`: no memory.
    fn read_cell(
        &self,
        alloc: Global,
        stage: u32,
        text: &[u8],
    ) -> Result<Option<Self::Cell>, AllocError>
        ensures { (key until : ℕ) (cell : Self.Cell) → (Self.facts (Self.values self.now)).allows stage key until cell ≡ true → Self.text_of stage cell ≡ text.now → IfOk result (λ found. found ≡ Some cell) };

    /// Appends the text of a cell that may be saved for some key and time. What it appends of other cells is open.
    /// `AllocError`: no memory, and all stays as it was.
    fn put_cell(&self, stage: u32, cell: &Self::Cell, out: &mut Vec<u8>) -> Result<(), AllocError>
        ensures written { (key until : ℕ) → (Self.facts (Self.values self.now)).allows stage key until cell.now ≡ true → OnOk result (out.new.items ≡ out.old.items ++ Self.text_of stage cell.now) }
        ensures unchanged { OnErr result (out.new.items ≡ out.old.items) }
    {
        let mut text = Vec::new(*out.allocator());
        self.write_cell(stage, cell, &mut text)?;
        out.extend_from_slice(text.as_slice())
    }

    /// The cell that has this text, and may be saved for this key of the stage at this time. `NoCell` comes exactly where
    /// no such cell has it, `NoMemory` where an allocation fails.
    fn get_cell(
        &self,
        alloc: Global,
        stage: u32,
        key: u64,
        until: Time,
        text: &[u8],
    ) -> Result<Self::Cell, CellRefused>
        ensures allowed { IfOk result (λ cell. (Self.facts (Self.values self.now)).allows stage key until cell ≡ true) }
        ensures text { IfOk result (λ cell. Self.text_of stage cell ≡ text.now) }
        ensures none { IsErrOf result NoCell → (cell : Self.Cell) → (Self.facts (Self.values self.now)).allows stage key until cell ≡ true → Self.text_of stage cell ≡ text.now → ⊥ }
    {
        let Some(cell) = self.read_cell(alloc, stage, text)? else {
            return Err(CellRefused::NoCell);
        };
        if !self.is_allowed(stage, key, until, &cell) {
            return Err(CellRefused::NoCell);
        }
        let mut again = Vec::new(alloc);
        self.write_cell(stage, &cell, &mut again)?;
        if again.as_slice() != text {
            return Err(CellRefused::NoCell);
        }
        Ok(cell)
    }

    /// No line feed stands in the text of a cell that may be saved.
    ghost texts_are_plain: { (vs : List ℕ) (stage key until : ℕ) (cell : Self.Cell) → (Self.facts vs).allows stage key until cell ≡ true → All (λ b. b ≢ 10) (Self.text_of stage cell) };

    /// What the events of a file leave at a time may be saved.
    ghost leaves_what_may_be_saved: { (vs : List ℕ) → LeavesWhatMayBeSaved NUMBER (Self.facts vs) };
}
