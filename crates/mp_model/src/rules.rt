//! The constants of a query that a configuration may set.
ghost use Rattle.std.specs.Prelude.{◌≡◌, ◌<◌, ◌++◌, ◌∷◌, [], length, map};
ghost use Rattle.mp_model.specs.Rules.{RuleFacts};

use mp_short::ShortList;
use std::marker::Model;

/// A constant of a query that a configuration may set.
#[derive(Clone, Copy)]
pub struct Rule {
    /// Its name in a configuration.
    pub name: &'static str,
    /// The least value.
    pub least: u64,
    /// The greatest value.
    pub greatest: u64,
    /// The value where a configuration says none.
    pub given: u64,
}

/// What stands in a place of a list that no rule has taken.
const NO_RULE: Rule = Rule {
    name: "",
    least: 0,
    greatest: 0,
    given: 0,
};

/// At most two rules, in order. Contracts see a `RuleFacts` for each.
pub struct RuleList {
    rules: ShortList<Rule, 2>,
}

// By hand, so that crates above call it and don't write out the drop of each field.
impl Drop for RuleList {
    fn drop(self) {
        let RuleList { rules: _ } = self;
    }
}

impl Model for RuleList {
    ghost use Rattle.std.specs.Prelude.{List, map};
    ghost use Rattle.mp_model.specs.Rules.{RuleFacts};

    ghost Value = { List RuleFacts };

    ghost view = { λ l. map (λ r. record { name = r.name.now; least = r.least; greatest = r.greatest; given = r.given }) l.rules };
}

impl RuleList {
    /// No rules.
    pub fn new() -> RuleList
        ensures { result ≡ [] }
    {
        RuleList {
            rules: ShortList::new(NO_RULE),
        }
    }

    /// One rule.
    pub fn one(rule: Rule) -> RuleList
        ensures { result ≡ record { name = rule.name.now; least = rule.least; greatest = rule.greatest; given = rule.given } ∷ [] }
    {
        let mut rules = ShortList::new(NO_RULE);
        rules.push(rule);
        RuleList { rules }
    }

    /// Two rules.
    pub fn two(first: Rule, second: Rule) -> RuleList
        ensures { result ≡ record { name = first.name.now; least = first.least; greatest = first.greatest; given = first.given }
            ∷ record { name = second.name.now; least = second.least; greatest = second.greatest; given = second.given } ∷ [] }
    {
        let mut rules = ShortList::new(NO_RULE);
        rules.push(first);
        rules.push(second);
        RuleList { rules }
    }

    /// The rules, in order.
    pub fn as_slice(&self) -> &[Rule]
        ensures { map (λ r. record { name = r.name.now; least = r.least; greatest = r.greatest; given = r.given }) result.now ≡ self.now }
    {
        self.rules.as_slice()
    }
}
