//! The values of the rules of a query.
ghost use Rattle.std.specs.Prelude.{◌≡◌, ◌∷◌, []};

use mp_short::ShortList;
use std::marker::Model;

/// At most two values, in the order of the rules. Contracts see the list of them.
#[derive(Drop)]
pub struct ValueList {
    values: ShortList<u64, 2>,
}

impl Model for ValueList {
    ghost use Rattle.std.specs.Prelude.{ℕ, List};

    ghost Value = { List ℕ };

    ghost view = { λ l. l.values };
}

impl ValueList {
    /// No values.
    pub fn new() -> ValueList
        ensures { result ≡ [] }
    {
        ValueList {
            values: ShortList::new(0),
        }
    }

    /// One value.
    pub fn one(value: u64) -> ValueList
        ensures { result ≡ value ∷ [] }
    {
        let mut values = ShortList::new(0);
        values.push(value);
        ValueList { values }
    }

    /// Two values.
    pub fn two(first: u64, second: u64) -> ValueList
        ensures { result ≡ first ∷ second ∷ [] }
    {
        let mut values = ShortList::new(0);
        values.push(first);
        values.push(second);
        ValueList { values }
    }

    /// The values, in order.
    pub fn as_slice(&self) -> &[u64]
        ensures { result.now ≡ self.now }
    {
        self.values.as_slice()
    }
}
