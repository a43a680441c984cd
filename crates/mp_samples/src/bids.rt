//! The query of the tests.
ghost use Rattle.std.specs.Prelude.{◌≡◌, IfOk};
ghost use Rattle.mp_samples.specs.Bids.{fields_of, mark_of, row_of};

use mp_model::{Field, Fields, Group, PostList, Query, Rec, RuleList, Time, Value};
use std::alloc::{AllocError, Global};

/// Each bid makes a record of its auction's key, which wakes the key ten later. Where it answers, a group that has records
/// gives a row of the key and marks its cell; otherwise no group gives anything. Where it is starved, no group finds memory.
#[derive(Drop)]
pub struct SampleBids<const ANSWERS: bool, const STARVED: bool> {}

/// The sample query whose groups give nothing.
pub type WakingBids = SampleBids<false, false>;

/// The sample query whose groups give rows.
pub type AnsweringBids = SampleBids<true, false>;

/// The sample query whose groups find no memory.
pub type StarvedBids = SampleBids<false, true>;

impl<const ANSWERS: bool, const STARVED: bool> Query for SampleBids<ANSWERS, STARVED> {
    ghost use Rattle.std.specs.Prelude.{[]};
    ghost use Rattle.mp_samples.specs.Bids.{sample_bids, text_of};
    ghost use Rattle.mp_samples.specs.Laws.{begins_fresh, fresh_stays_fresh, has_stages, later_stages_post_nothing, most_is_enough, posts_are_later, sums_fit, texts_tell_cells};

    type Cell = u64;

    ghost values = { λ _. [] };

    ghost rules = { λ _. [] };

    ghost facts = { λ _. sample_bids ANSWERS };

    ghost text_of = { text_of };

    fn stages(&self) -> u32 {
        1
    }

    fn rules(&self) -> RuleList {
        RuleList::new()
    }

    fn with(self, _given: &[u64]) -> SampleBids<ANSWERS, STARVED> {
        self
    }

    fn key(&self, _stage: u32, _time: Time, value: &Value) -> Option<u64> {
        match value {
            Value::Bid { auction, .. } => Some(*auction),
            _ => None,
        }
    }

    fn posts(&self, stage: u32, rec: &Rec) -> PostList {
        let mut posts = PostList::new();
        if stage == 0 {
            posts.push(rec.time + 10);
        }
        posts
    }

    fn fresh(&self, _alloc: Global, _stage: u32) -> u64 {
        0
    }

    fn is_fresh(&self, _stage: u32, cell: &u64) -> bool {
        *cell == 0
    }

    fn most(&self, _stage: u32, _cell: &u64, _group: &Group) -> u64 {
        if ANSWERS { 1 } else { 0 }
    }

    fn step(
        &self,
        alloc: Global,
        _stage: u32,
        cell: &mut u64,
        group: &Group,
    ) -> Result<Vec<Value>, AllocError> {
        if STARVED {
            return Err(AllocError);
        }
        if !ANSWERS {
            return Ok(Vec::new(alloc));
        }
        let rows = row_of(alloc, group.key(), group.recs())?;
        *cell = mark_of(*cell, group.recs());
        Ok(rows)
    }

    fn copy_cell(&self, _alloc: Global, _stage: u32, cell: &u64) -> Result<u64, AllocError> {
        Ok(*cell)
    }

    ghost has_stages = { λ _. has_stages ANSWERS };

    ghost posts_are_later = { λ _. posts_are_later ANSWERS };

    ghost later_stages_post_nothing = { λ _. later_stages_post_nothing ANSWERS };

    ghost most_is_enough = { λ _. most_is_enough ANSWERS };

    ghost fresh_stays_fresh = { λ _. fresh_stays_fresh ANSWERS };

    ghost begins_fresh = { λ _. begins_fresh ANSWERS };

    ghost texts_tell_cells = { λ _. texts_tell_cells ANSWERS };

    ghost sums_fit = { sums_fit ANSWERS };
}

/// The fields of a key's row. `AllocError`: no memory.
pub fn fields_of(alloc: Global, key: u64) -> Result<Fields, AllocError>
    ensures { IfOk result (λ fields. fields ≡ fields_of key) }
{
    Fields::of(alloc, [Field::Number(key)])
}

/// The row of a key that has records.
fn row_of(alloc: Global, key: u64, recs: &[Rec]) -> Result<Vec<Value>, AllocError>
    ensures { IfOk result (λ v. v.items ≡ row_of key recs.now) }
{
    let mut rows = Vec::new(alloc);
    if !recs.is_empty() {
        rows.push(Value::Row(fields_of(alloc, key)?))?;
    }
    Ok(rows)
}

/// 1 once there are records.
fn mark_of(cell: u64, recs: &[Rec]) -> u64
    ensures { result ≡ mark_of cell recs.now }
{
    if recs.is_empty() { cell } else { 1 }
}
