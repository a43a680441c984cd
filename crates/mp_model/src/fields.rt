//! The fields of an answer row.
ghost use Rattle.std.specs.Prelude.{◌≡◌, ◌≤◌, ◌∷◌, [], IfOk};
ghost use Rattle.mp_model.specs.declared.fields.Field.TheVariants.{Number};
ghost use Rattle.mp_model.specs.Fields.{fields_listed};

use crate::Text;
use std::alloc::{AllocError, Global};
use std::marker::Model;

/// One field of a row, printed as decimal digits or as its bytes.
#[derive(Drop)]
pub enum Field {
    /// A number.
    Number(u64),
    /// A name, of any bytes.
    Text(Text),
}

impl Clone for Field {
    ghost is_clone = { λ field copy. copy ≡ field };

    fn clone(&self) -> Result<Field, AllocError> {
        match self {
            Field::Number(number) => Ok(Field::Number(*number)),
            Field::Text(text) => Ok(Field::Text(text.clone()?)),
        }
    }
}

/// At most four fields, in order. Contracts see the list of them.
pub struct Fields {
    fields: Stored,
}

// A value is moved often, so this is small: two numbers, as most rows have, stand in it, and other fields on the heap.
#[derive(Drop)]
enum Stored {
    Two([u64; 2]),
    Three(Box<[u64; 3]>),
    Mixed(Box<Vec<Field>>),
}

/// The fields of a row, lent.
#[derive(Clone, Copy)]
pub enum FieldList<'a> {
    /// Numbers alone.
    Numbers(&'a [u64]),
    /// Any fields.
    Mixed(&'a [Field]),
}

// By hand, so that crates above call it and don't write out the drop of each field.
impl Drop for Fields {
    fn drop(self) {
        let Fields { fields: _ } = self;
    }
}

impl Model for Fields {
    ghost use Rattle.std.specs.Prelude.{List, ◌≤◌, length};
    ghost use Rattle.mp_model.specs.declared.fields.Field.{Field};
    ghost use Rattle.mp_model.specs.Fields.{fields_stored};

    ghost Value = { List Field };

    ghost view = { λ f. fields_stored f.fields };

    ghost invariant = { λ f. length (fields_stored f.fields) ≤ 4 };
}

impl Fields {
    /// These fields, in order. `AllocError`: no memory.
    pub fn of<const N: usize>(alloc: Global, fields: [Field; N]) -> Result<Fields, AllocError>
        requires { N ≤ 4 }
        ensures { IfOk result (λ f. f ≡ fields.entry) }
    {
        let fields = Vec::from_array(alloc, fields)?;
        Ok(Fields {
            fields: Stored::Mixed(Box::new(alloc, fields)?),
        })
    }

    /// Two numbers.
    pub fn two(first: u64, second: u64) -> Fields
        ensures { result ≡ Number first ∷ Number second ∷ [] }
    {
        Fields {
            fields: Stored::Two([first, second]),
        }
    }

    /// Three numbers. `AllocError`: no memory.
    pub fn three(alloc: Global, first: u64, second: u64, third: u64) -> Result<Fields, AllocError>
        ensures { IfOk result (λ f. f ≡ Number first ∷ Number second ∷ Number third ∷ []) }
    {
        Ok(Fields {
            fields: Stored::Three(Box::new(alloc, [first, second, third])?),
        })
    }

    /// The fields, in order.
    pub fn list(&self) -> FieldList<'_>
        ensures { fields_listed result ≡ self.now }
    {
        match &self.fields {
            Stored::Two(numbers) => FieldList::Numbers(numbers.as_slice()),
            Stored::Three(numbers) => FieldList::Numbers(numbers.as_slice()),
            Stored::Mixed(fields) => FieldList::Mixed(fields.as_slice()),
        }
    }
}

impl Clone for Fields {
    ghost is_clone = { λ fields copy. copy ≡ fields };

    fn clone(&self) -> Result<Fields, AllocError> {
        let fields = match &self.fields {
            Stored::Two(numbers) => Stored::Two(*numbers),
            Stored::Three(numbers) => Stored::Three(numbers.clone()?),
            Stored::Mixed(fields) => Stored::Mixed(fields.clone()?),
        };
        Ok(Fields { fields })
    }
}
