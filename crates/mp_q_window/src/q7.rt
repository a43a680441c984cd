//! The query q7: the best bid of each window.
ghost use Rattle.std.specs.Prelude.{◌≡◌, ◌≤◌};
ghost use Rattle.mp_names.specs.Limits.{last_time};
ghost use Rattle.mp_model.specs.Rules.{given_values};
ghost use Rattle.mp_q_window.specs.Q7.{key_of, posts_of, q7_rules};

use crate::outputs::list_of;
use crate::{Best, windows};
use mp_model::{Group, PostList, Query, Rec, Rule, RuleList, Time, Value};
use mp_saved::{Saved, ValueList};
use std::alloc::{AllocError, Global};

/// The query q7: the best bid of each window, which ends at a multiple of its length. The subject is NEXMark's, the table and
/// the length this project's profile.
#[derive(Drop)]
pub struct Q7 {
    width: u64,
    ghost some_width: { 1 ≤ width },
    ghost short: { width ≤ 43200 },
}

// How many units of time a window has.
const WIDTH: Rule = Rule {
    name: "width",
    least: 1,
    greatest: 43_200,
    given: 600,
};

impl Q7 {
    /// The query q7 of the given windows, 600 units of time.
    pub fn given() -> Q7
        ensures { ⟦<Q7 as Query>⟧.values result ≡ given_values q7_rules }
    {
        Q7 { width: 600 }
    }
}

impl Query for Q7 {
    ghost use Rattle.std.specs.Prelude.{[], ◌∷◌};
    ghost use Rattle.mp_q_window.specs.Best.{text_of};
    ghost use Rattle.mp_q_window.specs.Q7.{q7_facts, q7_rules, width_in};
    ghost use Rattle.mp_q_window.specs.Laws.Q7.{has_stages, posts_are_later, later_stages_post_nothing, most_is_enough, fresh_stays_fresh, begins_fresh, texts_tell_cells, sums_fit};

    type Cell = Best;

    ghost values = { λ q. q.width ∷ [] };

    ghost rules = { λ _. q7_rules };

    ghost facts = { λ vs. q7_facts vs };

    ghost text_of = { text_of };

    fn stages(&self) -> u32 {
        1
    }

    fn rules(&self) -> RuleList {
        RuleList::one(WIDTH)
    }

    fn with(self, given: &[u64]) -> Q7 {
        Q7 { width: given[0] }
    }

    fn key(&self, _stage: u32, time: Time, value: &Value) -> Option<u64> {
        key(self.width, time, value)
    }

    fn posts(&self, stage: u32, rec: &Rec) -> PostList {
        posts(self.width, stage, rec)
    }

    fn fresh(&self, _alloc: Global, _stage: u32) -> Best {
        Best::new()
    }

    fn is_fresh(&self, _stage: u32, cell: &Best) -> bool {
        cell.is_new()
    }

    fn most(&self, _stage: u32, _cell: &Best, _group: &Group) -> u64 {
        1
    }

    fn step(
        &self,
        alloc: Global,
        _stage: u32,
        cell: &mut Best,
        group: &Group,
    ) -> Result<Vec<Value>, AllocError> {
        let outputs = list_of(alloc, cell.row(alloc, group)?)?;
        cell.apply(group);
        Ok(outputs)
    }

    fn copy_cell(&self, _alloc: Global, _stage: u32, cell: &Best) -> Result<Best, AllocError> {
        Ok(cell.copy())
    }

    ghost has_stages = { λ vs. has_stages (width_in vs) };

    ghost posts_are_later = { λ vs. posts_are_later vs };

    ghost later_stages_post_nothing = { λ vs. later_stages_post_nothing (width_in vs) };

    ghost most_is_enough = { λ vs. most_is_enough (width_in vs) };

    ghost fresh_stays_fresh = { λ vs. fresh_stays_fresh (width_in vs) };

    ghost begins_fresh = { λ vs. begins_fresh (width_in vs) };

    ghost texts_tell_cells = { λ vs. texts_tell_cells (width_in vs) };

    ghost sums_fit = { sums_fit };
}

impl Saved for Q7 {
    ghost use Rattle.mp_q_window.specs.Q7.{width_in};
    ghost use Rattle.mp_q_window.specs.Laws.Q7.{leaves_what_may_be_saved, texts_are_plain};

    const NUMBER: u32 = 7;

    ghost NUMBER = { 7 };

    fn values(&self) -> ValueList {
        ValueList::one(self.width)
    }

    fn is_allowed(&self, stage: u32, _key: u64, _until: Time, cell: &Best) -> bool {
        stage == 0 && cell.is_legal()
    }

    fn write_cell(&self, _stage: u32, cell: &Best, out: &mut Vec<u8>) -> Result<(), AllocError> {
        cell.write(out)
    }

    fn read_cell(
        &self,
        alloc: Global,
        _stage: u32,
        text: &[u8],
    ) -> Result<Option<Best>, AllocError> {
        let cell = Best::read(alloc, text)?;
        Ok(Some(cell))
    }

    ghost texts_are_plain = { λ vs. texts_are_plain (width_in vs) };

    ghost leaves_what_may_be_saved = { λ vs. leaves_what_may_be_saved vs };
}

/// The end of the window that a bid of this time is in. Other values make no record. A window has 1 to 43,200 units of time.
fn key(width: u64, time: Time, value: &Value) -> Option<u64>
    requires some_width { 1 ≤ width }
    requires short { width ≤ 43200 }
    requires in_time { time ≤ last_time }
    ensures { result ≡ key_of width time value.now }
{
    match value {
        Value::Bid { .. } => Some(windows::next_end(width, time)),
        _ => None,
    }
}

/// The end of the window that a bid is in. A window has 1 to 43,200 units of time.
fn posts(width: u64, stage: u32, rec: &Rec) -> PostList
    requires some_width { 1 ≤ width }
    requires short { width ≤ 43200 }
    requires in_time { rec.now.time ≤ last_time }
    ensures { result ≡ posts_of width stage rec.now }
{
    let mut posts = PostList::new();
    if stage == 0 {
        if let Value::Bid { .. } = &rec.value {
            posts.push(windows::next_end(width, rec.time));
        }
    }
    posts
}
