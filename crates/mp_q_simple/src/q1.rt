//! The query q1: each bid with its price in euros.
ghost use Rattle.std.specs.Prelude.{◌≡◌, ◌≤◌};
ghost use Rattle.mp_model.specs.Rules.{given_values};
ghost use Rattle.mp_q_simple.specs.Q1.{q1_rules};

use crate::{Bids, RowOf};
use mp_model::{Fields, Query, Rule, RuleList, Value};
use mp_saved::ValueList;
use std::alloc::{AllocError, Global};

/// The type of the query q1: each bid with its price in euros, rounded down. The subject is NEXMark's, the rate this project's
/// profile.
pub type Q1 = Bids<InEuros>;

/// The rows of q1: so many euros are so many dollars. It is public only as a part of `Q1`.
#[derive(Drop)]
pub struct InEuros {
    num: u64,
    den: u64,
    ghost few_euros: { num ≤ 1000 },
    ghost some_dollars: { 1 ≤ den },
    ghost few_dollars: { den ≤ 1000 },
}

// How many euros.
const NUM: Rule = Rule {
    name: "num",
    least: 0,
    greatest: 1000,
    given: 89,
};

// How many dollars.
const DEN: Rule = Rule {
    name: "den",
    least: 1,
    greatest: 1000,
    given: 100,
};

impl Bids<InEuros> {
    /// The query q1 at the given rate: 89 euros are 100 dollars.
    pub fn given() -> Bids<InEuros>
        ensures { ⟦<Bids<InEuros> as Query>⟧.values result ≡ given_values q1_rules }
    {
        Bids {
            rule: InEuros { num: 89, den: 100 },
        }
    }
}

impl RowOf for InEuros {
    ghost use Rattle.std.specs.Prelude.{[], ◌∷◌};
    ghost use Rattle.mp_q_simple.specs.Q1.{q1_rules, rows_with};
    ghost use Rattle.mp_q_simple.specs.Settled.{legal_rows_fit};

    const NUMBER: u32 = 1;

    ghost NUMBER = { 1 };

    ghost values = { λ r. r.num ∷ r.den ∷ [] };

    ghost rules = { λ _. q1_rules };

    ghost rows = { λ vs. rows_with vs };

    fn row_of(&self, alloc: Global, value: &Value) -> Result<Option<Value>, AllocError> {
        match value {
            Value::Bid {
                auction,
                bidder,
                price,
            } => {
                let euros = (*price as u128 * self.num as u128 / self.den as u128) as u64;
                let fields = Fields::three(alloc, *auction, *bidder, euros)?;
                Ok(Some(Value::Row(fields)))
            }
            _ => Ok(None),
        }
    }

    fn rules(&self) -> RuleList {
        RuleList::two(NUM, DEN)
    }

    fn values(&self) -> ValueList {
        ValueList::two(self.num, self.den)
    }

    fn with(self, given: &[u64]) -> InEuros {
        InEuros {
            num: given[0],
            den: given[1],
        }
    }

    ghost legal_rows_fit = { λ vs. legal_rows_fit vs };
}
