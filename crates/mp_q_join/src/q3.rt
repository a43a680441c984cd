//! The query q3: the auctions of category 10, or of another one, of the sellers of three states.
ghost use Rattle.std.specs.Prelude.{◌≡◌, ◌≤◌};
ghost use Rattle.mp_names.specs.Limits.{greatest_id};
ghost use Rattle.mp_model.specs.Rules.{given_values};
ghost use Rattle.mp_q_join.specs.Q3.{q3_rules};

use crate::{Joining, keys};
use mp_model::{Group, PostList, Query, Rec, Rule, RuleList, Time, Value};
use mp_saved::{Saved, ValueList};
use std::alloc::{AllocError, Global};

/// The query q3: the auctions of a category of the sellers of three states. The subject is NEXMark's, the table this
/// project's profile.
#[derive(Drop)]
pub struct Q3 {
    category: u64,
    ghost within: { category ≤ greatest_id },
}

// The auctions of which category.
const CATEGORY: Rule = Rule {
    name: "category",
    least: 0,
    greatest: 1 << 48,
    given: 10,
};

impl Q3 {
    /// The query q3 of the given category, 10.
    pub fn given() -> Q3
        ensures { ⟦<Q3 as Query>⟧.values result ≡ given_values q3_rules }
    {
        Q3 { category: 10 }
    }
}

impl Query for Q3 {
    ghost use Rattle.std.specs.Prelude.{[], ◌∷◌};
    ghost use Rattle.mp_q_join.specs.Joining.{text_of};
    ghost use Rattle.mp_q_join.specs.Q3.{category_in, q3_facts, q3_rules};
    ghost use Rattle.mp_q_join.specs.Laws.{q3_has_stages, q3_posts_are_later, q3_later_stages_post_nothing, q3_most_is_enough, q3_fresh_stays_fresh, q3_begins_fresh, q3_sums_fit};
    ghost use Rattle.mp_q_join.specs.Laws.Texts.{q3_texts_tell_cells};

    type Cell = Joining;

    ghost values = { λ q. q.category ∷ [] };

    ghost rules = { λ _. q3_rules };

    ghost facts = { λ vs. q3_facts vs };

    ghost text_of = { text_of };

    fn stages(&self) -> u32 {
        1
    }

    fn rules(&self) -> RuleList {
        RuleList::one(CATEGORY)
    }

    fn with(self, given: &[u64]) -> Q3 {
        Q3 { category: given[0] }
    }

    fn key(&self, _stage: u32, _time: Time, value: &Value) -> Option<u64> {
        keys::seller_asked_for(self.category, value)
    }

    fn posts(&self, _stage: u32, _rec: &Rec) -> PostList {
        PostList::new()
    }

    fn fresh(&self, alloc: Global, _stage: u32) -> Joining {
        Joining::new(alloc)
    }

    fn is_fresh(&self, _stage: u32, cell: &Joining) -> bool {
        cell.is_new()
    }

    fn most(&self, _stage: u32, cell: &Joining, group: &Group) -> u64 {
        cell.most_rows(group.recs())
    }

    fn step(
        &self,
        alloc: Global,
        _stage: u32,
        cell: &mut Joining,
        group: &Group,
    ) -> Result<Vec<Value>, AllocError> {
        cell.apply(alloc, group.recs())
    }

    fn copy_cell(&self, alloc: Global, _stage: u32, cell: &Joining) -> Result<Joining, AllocError> {
        cell.copy(alloc)
    }

    ghost has_stages = { λ vs. q3_has_stages (category_in vs) };

    ghost posts_are_later = { λ vs. q3_posts_are_later (category_in vs) };

    ghost later_stages_post_nothing = { λ vs. q3_later_stages_post_nothing (category_in vs) };

    ghost most_is_enough = { λ vs. q3_most_is_enough (category_in vs) };

    ghost fresh_stays_fresh = { λ vs. q3_fresh_stays_fresh (category_in vs) };

    ghost begins_fresh = { λ vs. q3_begins_fresh (category_in vs) };

    ghost texts_tell_cells = { λ vs. q3_texts_tell_cells (category_in vs) };

    ghost sums_fit = { q3_sums_fit };
}

impl Saved for Q3 {
    ghost use Rattle.mp_q_join.specs.Q3.{category_in};
    ghost use Rattle.mp_q_join.specs.Laws.Leaving.{q3_leaves_what_may_be_saved};
    ghost use Rattle.mp_q_join.specs.Laws.Texts.{q3_texts_are_plain};

    const NUMBER: u32 = 3;

    ghost NUMBER = { 3 };

    fn values(&self) -> ValueList {
        ValueList::one(self.category)
    }

    fn is_allowed(&self, stage: u32, _key: u64, _until: Time, cell: &Joining) -> bool {
        stage == 0 && cell.is_legal()
    }

    fn write_cell(&self, _stage: u32, cell: &Joining, out: &mut Vec<u8>) -> Result<(), AllocError> {
        cell.write(out)
    }

    fn read_cell(
        &self,
        alloc: Global,
        _stage: u32,
        text: &[u8],
    ) -> Result<Option<Joining>, AllocError> {
        let cell = Joining::read(alloc, text)?;
        Ok(cell)
    }

    ghost texts_are_plain = { λ vs. q3_texts_are_plain (category_in vs) };

    ghost leaves_what_may_be_saved = { λ vs. q3_leaves_what_may_be_saved (category_in vs) };
}
