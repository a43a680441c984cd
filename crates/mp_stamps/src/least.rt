//! The least time of outstanding work at a location.
ghost use Rattle.std.specs.Prelude.{◌≡◌, ◌↔◌, ◌≤◌, false, length};
ghost use Rattle.std.specs.List.Sorted.{IsStrictlyIncreasing};
ghost use Rattle.mp_stamps.specs.Counts.{count_of};
ghost use Rattle.mp_stamps.specs.Flow.{IsFirstTime};

use crate::row::Row;
use mp_names::{Frontier, Time};

// The least time with a count other than 0 in a row of counts at these times; `Done` where there is none.
fn first_in(times: &[Time], row: &Row) -> Frontier
    requires rising { IsStrictlyIncreasing times.now }
    requires long { length times.now ≤ length row.now.counts }
    ensures { IsFirstTime (count_of times.now row.now.counts) result }
{
    match times.get(row.first()) {
        Some(time) => Frontier::At(*time),
        None => Frontier::Done,
    }
}

/// Sees to it that this is the least time with a count other than 0 in a row of counts at these times, `Done` where there
/// is none, after the first such count moved or didn't; and gives whether it is another one than before.
pub(crate) fn follow_first(first: &mut Frontier, times: &[Time], row: &Row, moved: bool) -> bool
    requires rising { IsStrictlyIncreasing times.now }
    requires long { length times.now ≤ length row.now.counts }
    requires still { moved ≡ false → IsFirstTime (count_of times.now row.now.counts) first.old }
    ensures first { IsFirstTime (count_of times.now row.now.counts) first.new }
    ensures moved { (result ≡ false) ↔ (first.new ≡ first.old) }
{
    if !moved {
        return false;
    }
    let before = *first;
    *first = first_in(times, row);
    has_moved(before, *first)
}

// Whether a least time is another one than before.
fn has_moved(before: Frontier, after: Frontier) -> bool
    ensures { (result ≡ false) ↔ (after ≡ before) }
{
    after != before
}
