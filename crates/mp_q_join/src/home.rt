//! What q3 keeps of a person.
ghost use Rattle.std.specs.Prelude.{◌≡◌, ◌++◌, [], Some, map, IfOk, OnOk};
ghost use Rattle.std.specs.List.{join_with_byte};
ghost use Rattle.std.specs.Option.{option_map};
ghost use Rattle.mp_q_join.specs.Joining.{first_home, home_is_legal, home_of, home_said, home_words, row_of};

use crate::names;
use mp_model::{Field, Fields, Rec, Text, Value};
use mp_saved::Words;
use std::alloc::{AllocError, Global};

/// A person's name, city and state. It is public only as a part of q3's `Cell`.
#[derive(Drop)]
pub struct Home {
    name: Text,
    city: Text,
    state: Text,
}

impl Home {
    /// The first person among these records, if there is one. `AllocError`: no memory.
    pub fn first(recs: &[Rec]) -> Result<Option<Home>, AllocError>
        ensures { IfOk result (λ home. home ≡ first_home recs.now) }
    {
        for rec in recs {
            if let Some(home) = Home::of(&rec.value)? {
                return Ok(Some(home));
            }
        }
        Ok(None)
    }

    /// What is kept of a value, if it is a person.
    fn of(value: &Value) -> Result<Option<Home>, AllocError>
        ensures { IfOk result (λ home. home ≡ home_of value.now) }
    {
        match value {
            Value::Person {
                name,
                city,
                state,
                ..
            } => Ok(Some(Home {
                name: name.clone()?,
                city: city.clone()?,
                state: state.clone()?,
            })),
            _ => Ok(None),
        }
    }

    /// Whether its names are legal, so that it may be saved.
    pub(crate) fn is_legal(&self) -> bool
        ensures { result ≡ home_is_legal self.now }
    {
        names::is_legal(&self.name) && names::is_legal(&self.city) && names::is_legal(&self.state)
    }

    /// Appends the text. `AllocError`: no memory, and a part of it may be appended.
    pub(crate) fn write(&self, out: &mut Vec<u8>) -> Result<(), AllocError>
        ensures { OnOk result (out.new.items ≡ out.old.items ++ join_with_byte 124 (home_words self.now)) }
    {
        out.push(b'1')?;
        names::put(out, &self.name)?;
        names::put(out, &self.city)?;
        names::put(out, &self.state)
    }

    /// The person that three words say, if they are there. `AllocError`: no memory.
    pub(crate) fn read(alloc: Global, words: &mut Words) -> Result<Option<Home>, AllocError>
        ensures { IfOk result (λ home. option_map (λ h. record { home = Some h; waiting = [] }) home ≡ home_said words.old) }
    {
        let Some(name) = words.word() else {
            return Ok(None);
        };
        let Some(city) = words.word() else {
            return Ok(None);
        };
        let Some(state) = words.word() else {
            return Ok(None);
        };
        let name = Text::new(alloc, name)?;
        let city = Text::new(alloc, city)?;
        let state = Text::new(alloc, state)?;
        Ok(Some(Home { name, city, state }))
    }

    /// Adds the rows of these auctions at the end. `AllocError`: no memory, and some of them may stay there.
    pub fn push_rows(&self, auctions: &[u64], rows: &mut Vec<Value>) -> Result<(), AllocError>
        ensures { OnOk result (rows.new.items ≡ rows.old.items ++ map (row_of self.now) auctions.now) }
    {
        let alloc = *rows.allocator();
        for id in auctions {
            rows.push(self.row(alloc, *id)?)?;
        }
        Ok(())
    }

    /// The row of an auction: name, city, state and the auction's id.
    fn row(&self, alloc: Global, id: u64) -> Result<Value, AllocError>
        ensures { IfOk result (λ row. row ≡ row_of self.now id) }
    {
        let name = Field::Text(self.name.clone()?);
        let city = Field::Text(self.city.clone()?);
        let state = Field::Text(self.state.clone()?);
        let fields = Fields::of(alloc, [name, city, state, Field::Number(id)])?;
        Ok(Value::Row(fields))
    }
}

impl Clone for Home {
    ghost is_clone = { λ home copy. copy ≡ home };

    fn clone(&self) -> Result<Home, AllocError> {
        Ok(Home {
            name: self.name.clone()?,
            city: self.city.clone()?,
            state: self.state.clone()?,
        })
    }
}
