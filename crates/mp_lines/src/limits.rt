//! Numbers within a limit.
ghost use Rattle.std.specs.Prelude.{◌≡◌, ◌≤◌};
ghost use Rattle.mp_lines.specs.Limits.{bound_of, is_within};

use crate::FieldCheck;
use mp_text::{BadNumber, number};

/// How great the number of a field may be.
#[derive(Clone, Copy)]
pub enum NumberLimit {
    /// This or less.
    UpTo(u64),
    /// Less than this.
    Below(u64),
    /// At least the first, and at most the second.
    Between(u64, u64),
}

impl NumberLimit {
    /// The number of the limit itself.
    fn bound(self) -> u64
        ensures { result ≡ bound_of self }
    {
        match self {
            NumberLimit::UpTo(max) => max,
            NumberLimit::Below(bound) => bound,
            NumberLimit::Between(_, most) => most,
        }
    }

    /// Whether a number that isn't above the bound is within the limit.
    fn admits(self, number: u64) -> bool
        requires { number ≤ bound_of self }
        ensures { result ≡ is_within self number }
    {
        match self {
            NumberLimit::UpTo(_) => true,
            NumberLimit::Below(bound) => number < bound,
            NumberLimit::Between(least, _) => least <= number,
        }
    }
}

/// A field that is a number within this limit: `Digits` where it is no number, `Range` where it is one outside the limit.
impl FieldCheck for NumberLimit {
    ghost use Rattle.mp_lines.specs.Limits.{failures_of_number};
    ghost use Rattle.mp_text.specs.Numbers.{value_of};

    type Reason = BadNumber;

    ghost failures = { failures_of_number };

    ghost number = { λ _ field. value_of field };

    fn read(self, field: &[u8]) -> Result<u64, BadNumber> {
        match number(field, self.bound()) {
            Ok(number) if self.admits(number) => Ok(number),
            Ok(_) => Err(BadNumber::Range),
            Err(why) => Err(why),
        }
    }
}
