//! The query q2: the bids on every 123rd auction, or on those of another number.
ghost use Rattle.std.specs.Prelude.{◌≡◌, ◌≤◌};
ghost use Rattle.mp_model.specs.Rules.{given_values};
ghost use Rattle.mp_q_simple.specs.Q2.{q2_rules};

use crate::{Bids, RowOf};
use mp_model::{Fields, Query, Rule, RuleList, Value};
use mp_saved::ValueList;
use std::alloc::{AllocError, Global};

/// The type of the query q2: the bids on the auctions whose ids are multiples of a number. The subject is NEXMark's, the number
/// this project's profile.
pub type Q2 = Bids<OnMultiples>;

/// The rows of q2. It is public only as a part of `Q2`.
#[derive(Drop)]
pub struct OnMultiples {
    modulus: u64,
    ghost positive: { 1 ≤ modulus },
    ghost few: { modulus ≤ 1000000 },
}

// Of which number.
const MODULUS: Rule = Rule {
    name: "modulus",
    least: 1,
    greatest: 1_000_000,
    given: 123,
};

impl Bids<OnMultiples> {
    /// The query q2 of the given number, 123.
    pub fn given() -> Bids<OnMultiples>
        ensures { ⟦<Bids<OnMultiples> as Query>⟧.values result ≡ given_values q2_rules }
    {
        Bids {
            rule: OnMultiples { modulus: 123 },
        }
    }
}

impl RowOf for OnMultiples {
    ghost use Rattle.std.specs.Prelude.{[], ◌∷◌};
    ghost use Rattle.mp_q_simple.specs.Q2.{q2_rules, rows_with};
    ghost use Rattle.mp_q_simple.specs.Settled.{all_rows_fit};

    const NUMBER: u32 = 2;

    ghost NUMBER = { 2 };

    ghost values = { λ r. r.modulus ∷ [] };

    ghost rules = { λ _. q2_rules };

    ghost rows = { λ vs. rows_with vs };

    fn row_of(&self, _alloc: Global, value: &Value) -> Result<Option<Value>, AllocError> {
        match value {
            Value::Bid { auction, price, .. } if *auction % self.modulus == 0 => {
                Ok(Some(Value::Row(Fields::two(*auction, *price))))
            }
            _ => Ok(None),
        }
    }

    fn rules(&self) -> RuleList {
        RuleList::one(MODULUS)
    }

    fn values(&self) -> ValueList {
        ValueList::one(self.modulus)
    }

    fn with(self, given: &[u64]) -> OnMultiples {
        OnMultiples { modulus: given[0] }
    }

    ghost legal_rows_fit = { λ vs. all_rows_fit vs };
}
