//! What q8 keeps of a seller during a day.
ghost use Rattle.std.specs.Prelude.{◌≡◌, ◌↔◌, ◌++◌, IsTrue, IfOk, OnOk, OnErr};
ghost use Rattle.std.specs.Option.{option_to_list};
ghost use Rattle.mp_text.specs.Fields.{fields_of};
ghost use Rattle.mp_q_join.specs.Selling.{after_records, after_value, cell_at, fresh_cell, row_of, row_in, selling_is_legal, selling_said, text_of};

use crate::names;
use mp_model::{Field, Fields, Group, Text, Value};
use mp_saved::Words;
use std::alloc::{AllocError, Global};

/// The name of a person, if it came, and whether it sells. It is public only as the `Cell` of q8.
#[derive(Drop)]
pub struct Selling {
    name: Option<Text>,
    sells: bool,
}

impl Selling {
    /// No name, and nothing is sold.
    pub fn new() -> Selling
        ensures { result ≡ fresh_cell }
    {
        Selling {
            name: None,
            sells: false,
        }
    }

    /// Whether there is no name, and nothing is sold.
    pub fn is_new(&self) -> bool
        ensures { IsTrue result ↔ (self.now ≡ fresh_cell) }
    {
        self.name.is_none() && !self.sells
    }

    /// The same name, and whether it sells. `AllocError`: no memory.
    pub fn copy(&self) -> Result<Selling, AllocError>
        ensures { IfOk result (λ copy. copy ≡ self.now) }
    {
        Ok(Selling {
            name: self.name.clone()?,
            sells: self.sells,
        })
    }

    /// Whether there is a legal name, or without a name it sells, so that it may be saved.
    pub(crate) fn is_legal(&self) -> bool
        ensures { result ≡ selling_is_legal self.now.name self.now.sells }
    {
        match &self.name {
            Some(name) => names::is_legal(name),
            None => self.sells,
        }
    }

    /// Appends the text. `AllocError`: no memory, and a part of it may be appended.
    pub(crate) fn write(&self, out: &mut Vec<u8>) -> Result<(), AllocError>
        ensures { OnOk result (out.new.items ≡ out.old.items ++ text_of 0 self.now) }
    {
        match &self.name {
            Some(name) => {
                out.push(b'1')?;
                names::put(out, name)?;
            }
            None => {
                out.push(b'0')?;
            }
        }
        out.push(b'|')?;
        out.push(if self.sells { b'1' } else { b'0' })?;
        Ok(())
    }

    /// The cell that a text says, if it says one. `AllocError`: no memory.
    pub(crate) fn read(alloc: Global, text: &[u8]) -> Result<Option<Selling>, AllocError>
        ensures { IfOk result (λ cell. cell ≡ selling_said (fields_of text.now)) }
    {
        let mut words = Words::over(text);
        let Some(_) = words.word() else {
            return Ok(None);
        };
        let Some(second) = words.word() else {
            return Ok(None);
        };
        let Some(third) = words.word() else {
            let sells = names::is_yes(second);
            return Ok(Some(Selling { name: None, sells }));
        };
        let name = Text::new(alloc, second)?;
        let sells = names::is_yes(third);
        Ok(Some(Selling {
            name: Some(name),
            sells,
        }))
    }

    /// The row of a group: where it is woken and a person sells, the key and the name. `AllocError`: no memory.
    pub fn rows_in(&self, alloc: Global, group: &Group) -> Result<Vec<Value>, AllocError>
        ensures { IfOk result (λ v. v.items ≡ option_to_list (row_in self.now group.now)) }
    {
        let mut rows = Vec::new(alloc);
        if group.is_woken() {
            if let Some(row) = self.row(alloc, group.key())? {
                rows.push(row)?;
            }
        }
        Ok(rows)
    }

    /// The cell after a group, which begins afresh where it is woken. `AllocError`: no memory.
    pub fn after(&self, group: &Group) -> Result<Selling, AllocError>
        ensures { IfOk result (λ cell. cell ≡ after_records (cell_at group.now.woken self.now) group.now.recs) }
    {
        let mut cell = self.at(group.is_woken())?;
        for rec in group.recs() {
            cell.apply(&rec.value)?;
        }
        Ok(cell)
    }

    /// The row of a person who sells: this key and the name.
    fn row(&self, alloc: Global, key: u64) -> Result<Option<Value>, AllocError>
        ensures { IfOk result (λ row. row ≡ row_of key self.now.name self.now.sells) }
    {
        match &self.name {
            Some(name) if self.sells => {
                let fields = [Field::Number(key), Field::Text(name.clone()?)];
                Ok(Some(Value::Row(Fields::of(alloc, fields)?)))
            }
            _ => Ok(None),
        }
    }

    /// The cell before the records of a group: a fresh one where it is woken, else a copy.
    fn at(&self, woken: bool) -> Result<Selling, AllocError>
        ensures { IfOk result (λ cell. cell ≡ cell_at woken self.now) }
    {
        if woken {
            return Ok(Selling::new());
        }
        self.copy()
    }

    /// Takes a value: the name of the first person is kept, and an auction says that it sells. An allocation failure leaves
    /// all as it was.
    fn apply(&mut self, value: &Value) -> Result<(), AllocError>
        ensures cell { OnOk result (self.new ≡ after_value self.old value.now) }
        ensures unchanged { OnErr result (self.new ≡ self.old) }
    {
        match value {
            Value::Person { name, .. } => {
                if self.name.is_none() {
                    self.name = Some(name.clone()?);
                }
            }
            Value::Auction { .. } => {
                self.sells = true;
            }
            _ => {}
        }
        Ok(())
    }
}
