//! A query that keeps nothing of a key, and gives at most one row for each bid.
ghost use Rattle.std.specs.Prelude.{◌≡◌, ℕ, IfOk, List, Option, true};
ghost use Rattle.mp_model.specs.declared.value.Value.{Value};
ghost use Rattle.mp_model.specs.Rules.{RuleFacts, are_within, given_values, numbers_with};
ghost use Rattle.mp_q_simple.specs.Bids.{RowFacts, all_fit, key_of, rows_of};
ghost use Rattle.mp_q_simple.specs.Laws.{LegalRowsFit};

use mp_model::{Group, PostList, Query, Rec, RuleList, Time, Value};
use mp_saved::{Saved, ValueList};
use std::alloc::{AllocError, Global};

/// A rule that says which row a bid has.
pub trait RowOf: Drop {
    /// The number of the query that gives these rows.
    const NUMBER: u32;

    /// The same, for contracts.
    ghost NUMBER: { ℕ };

    /// The values of its constants.
    ghost values: { Self → List ℕ };

    /// What a configuration may say of them.
    ghost rules: { Self → List RuleFacts };

    /// The rows with these values.
    ghost rows: { List ℕ → RowFacts };

    /// The row of a bid, if it has one. Other values have none. Its numbers fit. `AllocError`: no memory.
    fn row_of(&self, alloc: Global, value: &Value) -> Result<Option<Value>, AllocError>
        requires { (rows (values self.now)).fits value.now ≡ true }
        ensures { IfOk result (λ row. row ≡ (rows (values self.now)).row value.now) };

    /// The constants that a configuration may set.
    fn rules(&self) -> RuleList
        ensures rules { result ≡ rules self.now }
        ensures given { are_within (rules self.now) (given_values (rules self.now)) ≡ true };

    /// Their values, in order.
    fn values(&self) -> ValueList
        ensures { result ≡ values self.now };

    /// The rule with these values of its constants.
    fn with(self, given: &[u64]) -> Self
        requires { are_within (rules self) given.now ≡ true }
        ensures values { values result ≡ numbers_with (rules self) (values self) given.now }
        ensures rules { rules result ≡ rules self };

    /// The numbers of the row of a value that a file can say fit.
    ghost legal_rows_fit: { (vs : List ℕ) → LegalRowsFit (rows vs) };
}

/// The query that gives the rows of bids, by this rule. It is public only as the type of `Q1` and `Q2`.
#[derive(Drop)]
pub struct Bids<R> {
    pub(crate) rule: R,
}

/// The cell of a query that keeps nothing of a key, which is always fresh. It is public only as the `Cell` of these
/// queries.
#[derive(Drop)]
pub struct Nothing {}

impl<R: RowOf + Sync> Query for Bids<R> {
    ghost use Rattle.std.specs.Prelude.{[], refl};
    ghost use Rattle.mp_q_simple.specs.Bids.{bids_by, text_of};
    ghost use Rattle.mp_q_simple.specs.Laws.{begins_fresh, has_stages, posts_are_later, later_stages_post_nothing, most_is_enough, fresh_stays_fresh, sums_fit, texts_tell_cells};

    type Cell = Nothing;

    ghost values = { λ q. R.values q.rule };

    ghost rules = { λ q. R.rules q.rule };

    ghost facts = { λ vs. bids_by (R.rows vs) };

    ghost text_of = { text_of };

    fn stages(&self) -> u32 {
        1
    }

    fn rules(&self) -> RuleList {
        self.rule.rules()
    }

    fn with(self, given: &[u64]) -> Bids<R> {
        let Bids { rule } = self;
        Bids {
            rule: rule.with(given),
        }
    }

    fn key(&self, _stage: u32, _time: Time, value: &Value) -> Option<u64> {
        auction_of(value)
    }

    fn posts(&self, _stage: u32, _rec: &Rec) -> PostList {
        PostList::new()
    }

    fn fresh(&self, _alloc: Global, _stage: u32) -> Nothing {
        Nothing {}
    }

    fn is_fresh(&self, _stage: u32, _cell: &Nothing) -> bool {
        true
    }

    fn most(&self, _stage: u32, _cell: &Nothing, group: &Group) -> u64 {
        group.recs().len() as u64
    }

    fn step(
        &self,
        alloc: Global,
        _stage: u32,
        _cell: &mut Nothing,
        group: &Group,
    ) -> Result<Vec<Value>, AllocError> {
        rows_of(&self.rule, alloc, group.recs())
    }

    fn copy_cell(
        &self,
        _alloc: Global,
        _stage: u32,
        _cell: &Nothing,
    ) -> Result<Nothing, AllocError> {
        Ok(Nothing {})
    }

    ghost has_stages = { λ vs. has_stages (R.rows vs) };

    ghost posts_are_later = { λ vs. posts_are_later (R.rows vs) };

    ghost later_stages_post_nothing = { λ vs. later_stages_post_nothing (R.rows vs) };

    ghost most_is_enough = { λ vs. most_is_enough (R.rows vs) };

    ghost fresh_stays_fresh = { λ vs. fresh_stays_fresh (R.rows vs) };

    ghost begins_fresh = { λ vs. begins_fresh (R.rows vs) };

    ghost texts_tell_cells = { λ vs. texts_tell_cells (R.rows vs) };

    ghost sums_fit = { sums_fit R.rows R.legal_rows_fit };
}

impl<R: RowOf + Sync> Saved for Bids<R> {
    ghost use Rattle.mp_q_simple.specs.Laws.{leaves_what_may_be_saved, texts_are_plain};

    const NUMBER: u32 = R::NUMBER;

    ghost NUMBER = { R.NUMBER };

    fn values(&self) -> ValueList {
        self.rule.values()
    }

    fn is_allowed(&self, _stage: u32, _key: u64, _until: Time, _cell: &Nothing) -> bool {
        false
    }

    fn write_cell(
        &self,
        _stage: u32,
        _cell: &Nothing,
        _out: &mut Vec<u8>,
    ) -> Result<(), AllocError> {
        Ok(())
    }

    fn read_cell(
        &self,
        _alloc: Global,
        _stage: u32,
        _text: &[u8],
    ) -> Result<Option<Nothing>, AllocError> {
        Ok(None)
    }

    ghost texts_are_plain = { λ vs. texts_are_plain (R.rows vs) };

    ghost leaves_what_may_be_saved = { λ vs. leaves_what_may_be_saved (R.rows vs) R.NUMBER };
}

/// The auction of a bid. Other values make no record.
fn auction_of(value: &Value) -> Option<u64>
    ensures { result ≡ key_of value.now }
{
    match value {
        Value::Bid { auction, .. } => Some(*auction),
        _ => None,
    }
}

/// The rows of these records, in order. Their numbers fit.
fn rows_of<R: RowOf>(rule: &R, alloc: Global, recs: &[Rec]) -> Result<Vec<Value>, AllocError>
    requires { all_fit (R.rows (R.values rule.now)).fits recs.now ≡ true }
    ensures { IfOk result (λ v. v.items ≡ rows_of (R.rows (R.values rule.now)).row recs.now) }
{
    let mut rows = Vec::new(alloc);
    for rec in recs {
        if let Some(row) = rule.row_of(alloc, &rec.value)? {
            if rows.is_empty() {
                rows.reserve_exact(recs.len())?;
            }
            rows.push(row)?;
        }
    }
    Ok(rows)
}
