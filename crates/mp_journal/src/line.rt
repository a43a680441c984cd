//! One line of a journal.
ghost use Rattle.std.specs.Prelude.{◌≡◌, ◌≤◌, length};
ghost use Rattle.mp_journal.specs.Lines.{failures_by, failures_of, failures_within, fields_with, number_by};
ghost use Rattle.mp_journal.specs.Read.{IsLineOf, IsReadLine};
ghost use Rattle.mp_lines.specs.Checks.{AnswersChecks, field_at};

use crate::JournalReason;
use crate::letters::Letter;
use mp_lines::{FieldCheck, NumberLimit};
use mp_names::{Kept, Shape};
use mp_text::FieldList;

/// What a line says: a worker's step.
#[derive(Clone, Copy, Drop)]
pub struct JournalLine {
    pub worker: u64,
    pub step: Kept,
}

/// Reads a line's fields, where the line before is that of this worker. `JournalReason`: the first check that it fails.
pub fn read_line(
    shape: Shape,
    before: u64,
    fields: &FieldList,
) -> Result<JournalLine, JournalReason>
    ensures { AnswersChecks result (failures_of shape before fields.now) (λ line. IsReadLine shape fields.now line) }
{
    let Some(first) = fields.get(0) else {
        return Err(JournalReason::Kind);
    };
    if first != b"s".as_slice() {
        return Err(JournalReason::Kind);
    }
    if fields.count() < 3 {
        return Err(JournalReason::Fields);
    }
    let letter = Letter::of(fields.get(2).unwrap()).ok_or(JournalReason::Kind)?;
    read_step(shape, before, letter, fields)
}

// Reads the fields of a line with this letter.
fn read_step(
    shape: Shape,
    before: u64,
    letter: Letter,
    fields: &FieldList,
) -> Result<JournalLine, JournalReason>
    requires { 3 ≤ length fields.now }
    ensures { AnswersChecks result (failures_by shape before letter fields.now) (λ line. IsLineOf shape letter fields.now line) }
{
    let limit = letter.limit(shape);
    if fields.count() != field_count(limit) {
        return Err(JournalReason::Fields);
    }
    let workers = NumberLimit::Below(u64::from(shape.workers));
    let worker = workers.read(fields.get(1).unwrap())?;
    let number = number_behind(limit, fields)?;
    if worker < before {
        return Err(JournalReason::Order);
    }
    Ok(JournalLine {
        worker,
        step: letter.step(number),
    })
}

// How many fields a line has whose letter has a number within this limit, or none.
fn field_count(limit: Option<NumberLimit>) -> usize
    ensures { result ≡ fields_with limit }
{
    match limit {
        Some(_) => 4,
        None => 3,
    }
}

// The number behind the letter, 0 where there is none.
fn number_behind(limit: Option<NumberLimit>, fields: &FieldList) -> Result<u64, JournalReason>
    requires { fields_with limit ≤ length fields.now }
    ensures { AnswersChecks result (failures_within limit (field_at fields.now 3)) (λ n. n ≡ number_by limit (field_at fields.now 3)) }
{
    match limit {
        Some(limit) => Ok(limit.read(fields.get(3).unwrap())?),
        None => Ok(0),
    }
}
