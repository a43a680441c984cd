//! The order of answer rows, and which of them are of a time.
ghost use Rattle.std.specs.Prelude.{◌≡◌, ◌==◌};
ghost use Rattle.mp_output.specs.Unwritten.{place_of, place_rank};

use mp_model::{Output, Place, Time};
use mp_ordered::{Cut, Order};

/// Answer rows by time, and then by tag: the order of the answer file, this project's profile.
#[derive(Drop)]
pub struct ByPlace;

impl Order<Output> for ByPlace {
    ghost use Rattle.mp_output.specs.Unwritten.{place_rank};

    ghost rank = { place_rank };

    fn is_before(first: &Output, second: &Output) -> bool {
        place_of(first) < place_of(second)
    }
}

/// The rows of a time, which stand in front where none is of an earlier one.
#[derive(Drop)]
pub struct OfTime {
    /// The time.
    pub time: Time,
}

impl Cut<Output> for OfTime {
    ghost front = { λ c row. row.time == c.time };

    fn is_in_front(&self, row: &Output) -> bool {
        row.time == self.time
    }
}

/// Where a row stands in the answer.
pub fn place_of(row: &Output) -> Place
    ensures { result ≡ place_of row.now }
{
    Place {
        time: row.time,
        tag: row.tag,
    }
}
