//! The greatest counts of a window.
ghost use Rattle.std.specs.Prelude.{◌≡◌, IfOk};
ghost use Rattle.mp_q_window.specs.Counts.{greatest_of, row_at, rows_of};

use mp_model::{Fields, Rec, Value};
use std::alloc::{AllocError, Global};

/// The rows of the records with the greatest count, in order. `AllocError`: no memory.
pub fn rows(alloc: Global, recs: &[Rec]) -> Result<Vec<Value>, AllocError>
    ensures { IfOk result (λ v. v.items ≡ rows_of recs.now) }
{
    let greatest = greatest(recs);
    let mut rows = Vec::new(alloc);
    for rec in recs {
        if let Some(row) = row(greatest, &rec.value) {
            rows.push(row)?;
        }
    }
    Ok(rows)
}

/// The greatest count among records, 0 where there are none.
fn greatest(recs: &[Rec]) -> u64
    ensures { result ≡ greatest_of recs.now }
{
    let mut greatest = 0;
    for rec in recs {
        if let Value::Count { count, .. } = &rec.value {
            greatest = greatest.max(*count);
        }
    }
    greatest
}

/// The row of an auction with this count.
fn row(greatest: u64, value: &Value) -> Option<Value>
    ensures { result ≡ row_at greatest value.now }
{
    match value {
        Value::Count { auction, count } if *count == greatest => {
            Some(Value::Row(Fields::two(*auction, *count)))
        }
        _ => None,
    }
}
