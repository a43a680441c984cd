//! The query q8: the persons who sell on the day on which they came.
ghost use Rattle.std.specs.Prelude.{◌≡◌, ◌≤◌};
ghost use Rattle.mp_model.specs.Rules.{given_values};
ghost use Rattle.mp_q_join.specs.Q8.{q8_rules};

use crate::{Selling, keys};
use mp_model::{Group, PostList, Query, Rec, Rule, RuleList, Time, Value};
use mp_saved::{Saved, ValueList};
use std::alloc::{AllocError, Global};

/// The query q8: the persons who sell on the day on which they came. The subject is NEXMark's, the table and the length of a
/// day this project's profile.
#[derive(Drop)]
pub struct Q8 {
    width: u64,
    ghost some_width: { 1 ≤ width },
    ghost short: { width ≤ 43200 },
}

// How many units of time a day has.
const WIDTH: Rule = Rule {
    name: "width",
    least: 1,
    greatest: 43_200,
    given: 43_200,
};

impl Q8 {
    /// The query q8 of the given day, 43,200 units of time.
    pub fn given() -> Q8
        ensures { ⟦<Q8 as Query>⟧.values result ≡ given_values q8_rules }
    {
        Q8 { width: 43_200 }
    }
}

impl Query for Q8 {
    ghost use Rattle.std.specs.Prelude.{[], ◌∷◌};
    ghost use Rattle.mp_q_join.specs.Selling.{text_of};
    ghost use Rattle.mp_q_join.specs.Q8.{q8_facts, q8_rules, width_in};
    ghost use Rattle.mp_q_join.specs.Laws.{q8_has_stages, q8_posts_are_later, q8_later_stages_post_nothing, q8_most_is_enough, q8_fresh_stays_fresh, q8_begins_fresh, q8_sums_fit};
    ghost use Rattle.mp_q_join.specs.Laws.Texts.{q8_texts_tell_cells};

    type Cell = Selling;

    ghost values = { λ q. q.width ∷ [] };

    ghost rules = { λ _. q8_rules };

    ghost facts = { λ vs. q8_facts vs };

    ghost text_of = { text_of };

    fn stages(&self) -> u32 {
        1
    }

    fn rules(&self) -> RuleList {
        RuleList::one(WIDTH)
    }

    fn with(self, given: &[u64]) -> Q8 {
        Q8 { width: given[0] }
    }

    fn key(&self, _stage: u32, _time: Time, value: &Value) -> Option<u64> {
        keys::seller_of(value)
    }

    fn posts(&self, stage: u32, rec: &Rec) -> PostList {
        keys::posts_of(self.width, stage, rec)
    }

    fn fresh(&self, _alloc: Global, _stage: u32) -> Selling {
        Selling::new()
    }

    fn is_fresh(&self, _stage: u32, cell: &Selling) -> bool {
        cell.is_new()
    }

    fn most(&self, _stage: u32, _cell: &Selling, _group: &Group) -> u64 {
        1
    }

    fn step(
        &self,
        alloc: Global,
        _stage: u32,
        cell: &mut Selling,
        group: &Group,
    ) -> Result<Vec<Value>, AllocError> {
        let rows = cell.rows_in(alloc, group)?;
        *cell = cell.after(group)?;
        Ok(rows)
    }

    fn copy_cell(
        &self,
        _alloc: Global,
        _stage: u32,
        cell: &Selling,
    ) -> Result<Selling, AllocError> {
        cell.copy()
    }

    ghost has_stages = { λ vs. q8_has_stages (width_in vs) };

    ghost posts_are_later = { λ vs. q8_posts_are_later vs };

    ghost later_stages_post_nothing = { λ vs. q8_later_stages_post_nothing (width_in vs) };

    ghost most_is_enough = { λ vs. q8_most_is_enough (width_in vs) };

    ghost fresh_stays_fresh = { λ vs. q8_fresh_stays_fresh (width_in vs) };

    ghost begins_fresh = { λ vs. q8_begins_fresh (width_in vs) };

    ghost texts_tell_cells = { λ vs. q8_texts_tell_cells (width_in vs) };

    ghost sums_fit = { q8_sums_fit };
}

impl Saved for Q8 {
    ghost use Rattle.mp_q_join.specs.Q8.{width_in};
    ghost use Rattle.mp_q_join.specs.Laws.Leaving.{q8_leaves_what_may_be_saved};
    ghost use Rattle.mp_q_join.specs.Laws.Texts.{q8_texts_are_plain};

    const NUMBER: u32 = 8;

    ghost NUMBER = { 8 };

    fn values(&self) -> ValueList {
        ValueList::one(self.width)
    }

    fn is_allowed(&self, stage: u32, _key: u64, _until: Time, cell: &Selling) -> bool {
        stage == 0 && cell.is_legal()
    }

    fn write_cell(&self, _stage: u32, cell: &Selling, out: &mut Vec<u8>) -> Result<(), AllocError> {
        cell.write(out)
    }

    fn read_cell(
        &self,
        alloc: Global,
        _stage: u32,
        text: &[u8],
    ) -> Result<Option<Selling>, AllocError> {
        let cell = Selling::read(alloc, text)?;
        Ok(cell)
    }

    ghost texts_are_plain = { λ vs. q8_texts_are_plain (width_in vs) };

    ghost leaves_what_may_be_saved = { λ vs. q8_leaves_what_may_be_saved (width_in vs) };
}
