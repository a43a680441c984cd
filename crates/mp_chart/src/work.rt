//! Work that is done or left.
ghost use Rattle.std.specs.Prelude.{◌≡◌, ◌+◌, ◌≤◌, ◌^◌, ◌==◌, ◌&&◌, IfNone, IfSome};
ghost use Rattle.mp_stamps.specs.Counts.{same_loc};

use mp_names::{Loc, Time};

/// So much work at a location and time: names to send, to take, to ingest, to settle or to apply.
#[derive(Clone, Copy)]
pub struct Work {
    /// The location.
    pub loc: Loc,
    /// The time of the names.
    pub time: Time,
    /// How many names.
    pub count: u32,
}

impl Work {
    /// This work and more of the same location and time as one; `None` where the other is of another location or time, or there
    /// are 2^32 names or more.
    pub fn joined(self, more: Work) -> Option<Work>
        ensures joined { IfSome result (λ work. work ≡ record { loc = self.loc; time = self.time; count = self.count + more.count }) }
        ensures loc { IfSome result (λ work. self.loc ≡ more.loc) }
        ensures time { IfSome result (λ work. self.time ≡ more.time) }
        ensures none { IfNone result (self.loc ≡ more.loc → self.time ≡ more.time → 2 ^ 32 ≤ self.count + more.count) }
    {
        if !is_like(self, more) {
            return None;
        }
        let count = self.count.checked_add(more.count)?;
        Some(Work {
            loc: self.loc,
            time: self.time,
            count,
        })
    }
}

// Whether two are of one location and time.
fn is_like(first: Work, second: Work) -> bool
    ensures { result ≡ (same_loc first.loc second.loc && first.time == second.time) }
{
    first.loc == second.loc && first.time == second.time
}
