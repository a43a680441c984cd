//! The order of times, and what parts them in two.
ghost use Rattle.std.specs.Prelude.{nat_le};

use mp_model::Time;
use mp_ordered::{Cut, Order};

/// Times, the least one first.
pub struct ByTime;

impl Order<Time> for ByTime {
    ghost use Rattle.std.specs.Prelude.{◌∷◌, []};

    ghost rank = { λ t. t ∷ [] };

    fn is_before(first: &Time, second: &Time) -> bool {
        first < second
    }
}

/// Up to a time.
#[derive(Drop)]
pub struct UptoTime {
    /// The time.
    pub time: Time,
}

impl Cut<Time> for UptoTime {
    ghost front = { λ c t. nat_le t c.time };

    fn is_in_front(&self, item: &Time) -> bool {
        *item <= self.time
    }
}
