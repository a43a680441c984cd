//! The query q5: the auctions with the most bids in each window.
ghost use Rattle.std.specs.Prelude.{◌≡◌, ◌≤◌};
ghost use Rattle.mp_names.specs.Limits.{last_time};
ghost use Rattle.mp_model.specs.Rules.{given_values};
ghost use Rattle.mp_q_window.specs.Q5.{key_of, posts_of, q5_rules};

use crate::outputs::list_of;
use crate::{Recent, counts, windows};
use mp_model::{Group, PostList, Query, Rec, Rule, RuleList, Time, Value};
use mp_saved::{Saved, ValueList};
use std::alloc::{AllocError, Global};

/// The query q5: the auctions with the most bids in each window, which is some slides long and ends at a multiple of a slide.
/// Stage 0 counts the bids on each auction, stage 1 keeps the greatest counts. The subject is NEXMark's, the table and
/// the lengths this project's profile.
#[derive(Drop)]
pub struct Q5 {
    slide: u64,
    slides: u64,
    ghost some_slide: { 1 ≤ slide },
    ghost short: { slide ≤ 7200 },
    ghost some_slides: { 1 ≤ slides },
    ghost few: { slides ≤ 6 },
}

// How many units of time a slide has.
const SLIDE: Rule = Rule {
    name: "slide",
    least: 1,
    greatest: 7200,
    given: 600,
};

// How many slides a window has.
const SLIDES: Rule = Rule {
    name: "slides",
    least: 1,
    greatest: 6,
    given: 6,
};

impl Q5 {
    /// The query q5 of the given windows, six slides of 600 units of time.
    pub fn given() -> Q5
        ensures { ⟦<Q5 as Query>⟧.values result ≡ given_values q5_rules }
    {
        Q5 {
            slide: 600,
            slides: 6,
        }
    }
}

impl Query for Q5 {
    ghost use Rattle.std.specs.Prelude.{[], ◌∷◌};
    ghost use Rattle.mp_q_window.specs.Q5.{q5_facts, q5_rules, slide_in, slides_in};
    ghost use Rattle.mp_q_window.specs.Recent.{text_of};
    ghost use Rattle.mp_q_window.specs.Laws.Q5.{has_stages, posts_are_later, later_stages_post_nothing, most_is_enough, fresh_stays_fresh, begins_fresh, texts_tell_cells, sums_fit};

    type Cell = Recent;

    ghost values = { λ q. q.slide ∷ q.slides ∷ [] };

    ghost rules = { λ _. q5_rules };

    ghost facts = { λ vs. q5_facts vs };

    ghost text_of = { text_of };

    fn stages(&self) -> u32 {
        2
    }

    fn rules(&self) -> RuleList {
        RuleList::two(SLIDE, SLIDES)
    }

    fn with(self, given: &[u64]) -> Q5 {
        Q5 {
            slide: given[0],
            slides: given[1],
        }
    }

    fn key(&self, stage: u32, time: Time, value: &Value) -> Option<u64> {
        key(stage, time, value)
    }

    fn posts(&self, stage: u32, rec: &Rec) -> PostList {
        posts(self.slide, self.slides, stage, rec)
    }

    fn fresh(&self, alloc: Global, _stage: u32) -> Recent {
        Recent::new(alloc)
    }

    fn is_fresh(&self, _stage: u32, cell: &Recent) -> bool {
        cell.is_new()
    }

    fn most(&self, stage: u32, _cell: &Recent, group: &Group) -> u64 {
        if stage == 0 {
            1
        } else {
            group.recs().len() as u64
        }
    }

    #[tactic(auto, using(crate::proofs::Ends::length_fits))]
    fn step(
        &self,
        alloc: Global,
        stage: u32,
        cell: &mut Recent,
        group: &Group,
    ) -> Result<Vec<Value>, AllocError> {
        if stage == 0 {
            let length = self.slide * self.slides;
            let kept = self.slide * (self.slides - 1);
            let outputs = list_of(alloc, cell.count(length, group))?;
            cell.apply(kept, group)?;
            Ok(outputs)
        } else {
            counts::rows(alloc, group.recs())
        }
    }

    fn copy_cell(&self, alloc: Global, _stage: u32, cell: &Recent) -> Result<Recent, AllocError> {
        cell.copy(alloc)
    }

    ghost has_stages = { λ vs. has_stages (slide_in vs) (slides_in vs) };

    ghost posts_are_later = { λ vs. posts_are_later vs };

    ghost later_stages_post_nothing = { λ vs. later_stages_post_nothing (slide_in vs) (slides_in vs) };

    ghost most_is_enough = { λ vs. most_is_enough (slide_in vs) (slides_in vs) };

    ghost fresh_stays_fresh = { λ vs. fresh_stays_fresh (slide_in vs) (slides_in vs) };

    ghost begins_fresh = { λ vs. begins_fresh (slide_in vs) (slides_in vs) };

    ghost texts_tell_cells = { λ vs. texts_tell_cells (slide_in vs) (slides_in vs) };

    ghost sums_fit = { sums_fit };
}

impl Saved for Q5 {
    ghost use Rattle.mp_q_window.specs.Q5.{slide_in, slides_in};
    ghost use Rattle.mp_q_window.specs.Laws.Q5.{leaves_what_may_be_saved, texts_are_plain};

    const NUMBER: u32 = 5;

    ghost NUMBER = { 5 };

    fn values(&self) -> ValueList {
        ValueList::two(self.slide, self.slides)
    }

    fn is_allowed(&self, stage: u32, _key: u64, until: Time, cell: &Recent) -> bool {
        stage == 0 && cell.is_legal(until)
    }

    fn write_cell(&self, _stage: u32, cell: &Recent, out: &mut Vec<u8>) -> Result<(), AllocError> {
        cell.write(out)
    }

    fn read_cell(
        &self,
        alloc: Global,
        _stage: u32,
        text: &[u8],
    ) -> Result<Option<Recent>, AllocError> {
        let cell = Recent::read(alloc, text)?;
        Ok(Some(cell))
    }

    ghost texts_are_plain = { λ vs. texts_are_plain (slide_in vs) (slides_in vs) };

    ghost leaves_what_may_be_saved = { λ vs. leaves_what_may_be_saved vs };
}

/// The key of a value: in stage 0 the auction of a bid, in stage 1 the time of a count. Other values make no record.
fn key(stage: u32, time: Time, value: &Value) -> Option<u64>
    ensures { result ≡ key_of stage time value.now }
{
    match value {
        Value::Bid { auction, .. } if stage == 0 => Some(*auction),
        Value::Count { .. } if stage != 0 => Some(time),
        _ => None,
    }
}

/// The ends of the windows that a bid is in. A slide has 1 to 7200 units of time, a window six slides at most.
fn posts(slide: u64, slides: u64, stage: u32, rec: &Rec) -> PostList
    requires some_slide { 1 ≤ slide }
    requires short { slide ≤ 7200 }
    requires few { slides ≤ 6 }
    requires in_time { rec.now.time ≤ last_time }
    ensures { result ≡ posts_of slide slides stage rec.now }
{
    match &rec.value {
        Value::Bid { .. } if stage == 0 => windows::next_ends(slide, slides, rec.time),
        _ => PostList::new(),
    }
}
