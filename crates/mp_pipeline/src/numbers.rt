//! The numbers of a record.
ghost use Rattle.std.specs.Prelude.{◌≡◌, get_or, map};
ghost use Rattle.mp_pipeline.specs.Records.{number_in, number_of_field};

use mp_model::{Field, FieldList, Fields, Time, Value};

/// The number in a field of a record of this time, 0 where it has no such field. Fields are numbered from 0, the time.
pub fn number_in(time: Time, value: &Value, field: u64) -> u64
    ensures { result ≡ number_in time value.now field }
{
    match value {
        Value::Person { id, .. } => number_at(&[time, *id], field),
        Value::Auction {
            id,
            seller,
            category,
            reserve,
            expires,
        } => number_at(&[time, *id, *seller, *category, *reserve, *expires], field),
        Value::Bid {
            auction,
            bidder,
            price,
        } => number_at(&[time, *auction, *bidder, *price], field),
        Value::Row(fields) => {
            if field == 0 {
                time
            } else {
                row_number(fields, field - 1)
            }
        }
        _ => number_at(&[time], field),
    }
}

// The number at a place, 0 where there is none.
fn number_at(numbers: &[u64], place: u64) -> u64
    ensures { result ≡ get_or numbers.now place 0 }
{
    match numbers.get(place as usize) {
        Some(number) => *number,
        None => 0,
    }
}

// The number of the field at a place of a row, 0 where it is none.
fn row_number(fields: &Fields, place: u64) -> u64
    ensures { result ≡ get_or (map number_of_field fields.now) place 0 }
{
    match fields.list() {
        FieldList::Numbers(numbers) => number_at(numbers, place),
        FieldList::Mixed(fields) => match fields.get(place as usize) {
            Some(Field::Number(number)) => *number,
            _ => 0,
        },
    }
}
