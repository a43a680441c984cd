//! The values of a query's rules.
ghost use Rattle.std.specs.Prelude.{◌≡◌, ◌≤◌, length};
ghost use Rattle.mp_control.specs.Values.{values_by};
ghost use Rattle.mp_model.specs.Rules.{given_values};

use mp_model::RuleList;
use mp_short::ShortList;
use std::marker::Model;

/// How many rules a query has at most.
pub const MOST_RULES: usize = 2;

/// The values of a query's rules: at most two. Contracts see a list of numbers.
#[derive(Drop)]
pub struct ValueList {
    values: ShortList<u64, MOST_RULES>,
}

impl Model for ValueList {
    ghost use Rattle.std.specs.Prelude.{ℕ, List};

    ghost Value = { List ℕ };

    ghost view = { λ v. v.values };
}

impl ValueList {
    /// The values where a configuration says none.
    pub fn given(rules: &RuleList) -> ValueList
        requires { length rules.now ≤ MOST_RULES }
        ensures { result ≡ given_values rules.now }
    {
        ValueList::by(rules, [None, None])
    }

    /// For each rule the value that was said, else the given one.
    pub fn by(rules: &RuleList, said: [Option<u64>; MOST_RULES]) -> ValueList
        requires { length rules.now ≤ MOST_RULES }
        ensures { result ≡ values_by rules.now said }
    {
        let mut values = ShortList::new(0);
        for (place, rule) in rules.as_slice().iter().enumerate() {
            values.push(said[place].unwrap_or(rule.given));
        }
        ValueList { values }
    }

    /// The values, in the order of the rules.
    pub fn as_slice(&self) -> &[u64]
        ensures { result.now ≡ self.now }
    {
        self.values.as_slice()
    }
}
