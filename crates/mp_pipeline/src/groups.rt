//! What a stage makes of a group.
ghost use Rattle.std.specs.Prelude.{◌≡◌, IfOk};
ghost use Rattle.mp_pipeline.specs.Groups.{added_by, after_group, at_start, fresh_by, given_by, grown, most_by, row, rows_of_records, said_total, total_rows, with_records};

use crate::{Form, StageLine};
use mp_model::{Fields, Group, Rec, Value};
use std::alloc::{AllocError, Global};

impl StageLine {
    /// The cell of a key that has had no group.
    pub(crate) fn fresh(&self) -> Option<u64>
        ensures { result ≡ fresh_by self.now.form }
    {
        match self.form {
            Form::Count | Form::Sum => Some(0),
            Form::Pass | Form::Window => None,
        }
    }

    /// No fewer than the outputs of a group.
    pub(crate) fn most(&self, group: &Group) -> u64
        ensures { result ≡ most_by self.now.form group.now }
    {
        match self.form {
            Form::Pass => group.recs().len() as u64,
            _ => 1,
        }
    }

    /// The cell after a group.
    pub(crate) fn after(&self, cell: Option<u64>, group: &Group) -> Option<u64>
        ensures { result ≡ after_group self.now cell group.now }
    {
        if let Form::Pass = self.form {
            return cell;
        }
        self.with_records(self.at_start(cell, group), group.recs())
    }

    /// What a group gives, by the cells before and after it. `AllocError`: no memory.
    pub(crate) fn outputs(
        &self,
        alloc: Global,
        before: Option<u64>,
        after: Option<u64>,
        group: &Group,
    ) -> Result<Vec<Value>, AllocError>
        ensures { IfOk result (λ v. v.items ≡ given_by self.now before after group.now) }
    {
        if let Form::Pass = self.form {
            return self.rows(alloc, group.key(), group.recs());
        }
        one_row(alloc, group.key(), self.said_total(before, after, group))
    }

    // The cell before the records of a group: the end of a window makes it fresh.
    fn at_start(&self, cell: Option<u64>, group: &Group) -> Option<u64>
        ensures { result ≡ at_start self.now.form cell group.now }
    {
        match self.form {
            Form::Window if group.is_woken() => None,
            _ => cell,
        }
    }

    // The cell with these records.
    fn with_records(&self, start: Option<u64>, recs: &[Rec]) -> Option<u64>
        ensures { result ≡ with_records self.now start recs.now }
    {
        let mut cell = start;
        for rec in recs {
            cell = Some(grown(cell.unwrap_or(0), self.added(rec)));
        }
        cell
    }

    // What a record adds.
    fn added(&self, rec: &Rec) -> u64
        ensures { result ≡ added_by self.now rec.now }
    {
        match self.form {
            Form::Count => 1,
            _ => self.value_of(rec),
        }
    }

    // The total that a group says, by the cells before and after it.
    fn said_total(&self, before: Option<u64>, after: Option<u64>, group: &Group) -> Option<u64>
        ensures { result ≡ said_total self.now.form before after group.now }
    {
        match self.form {
            Form::Window if group.is_woken() => before,
            Form::Count | Form::Sum if !group.recs().is_empty() => after,
            _ => None,
        }
    }

    // A row for each record, with its value. `AllocError`: no memory.
    fn rows(&self, alloc: Global, key: u64, recs: &[Rec]) -> Result<Vec<Value>, AllocError>
        ensures { IfOk result (λ v. v.items ≡ rows_of_records self.now key recs.now) }
    {
        let mut rows = Vec::new(alloc);
        for rec in recs {
            rows.push(row(key, self.value_of(rec)))?;
        }
        Ok(rows)
    }
}

// A number that grows, up to the greatest of 64 bits.
fn grown(number: u64, more: u64) -> u64
    ensures { result ≡ grown number more }
{
    number.saturating_add(more)
}

// The row of a key with this value.
fn row(key: u64, value: u64) -> Value
    ensures { result ≡ row key value }
{
    Value::Row(Fields::two(key, value))
}

// The row of a key with this total, if there is one. `AllocError`: no memory.
fn one_row(alloc: Global, key: u64, total: Option<u64>) -> Result<Vec<Value>, AllocError>
    ensures { IfOk result (λ v. v.items ≡ total_rows key total) }
{
    let mut rows = Vec::new(alloc);
    if let Some(total) = total {
        rows.push(row(key, total))?;
    }
    Ok(rows)
}
