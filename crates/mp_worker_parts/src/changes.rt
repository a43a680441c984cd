//! One more, one less, or so many more, at a pointstamp.
ghost use Rattle.std.specs.Prelude.{◌≡◌, ◌≤◌, ◌<◌, ◌+◌, ◌^◌, ◌++◌, IsOk, neg_ℤ, pos, vec_len};
ghost use Rattle.std.specs.Vec.{vec_capacity};
ghost use Rattle.mp_rows.specs.Entries.{change_at};
ghost use Rattle.mp_rows_laws.specs.Changes.{one_less, one_more, some_more};

use mp_names::{Change, Loc, Pointstamp, Time};
use std::alloc::AllocError;

/// One more is outstanding at a location and time.
pub fn one_more(loc: Loc, time: Time) -> Change
    ensures { result ≡ one_more loc time }
{
    Change {
        at: Pointstamp { loc, time },
        by: 1,
    }
}

/// One less is outstanding at a location and time.
pub fn one_less(loc: Loc, time: Time) -> Change
    ensures { result ≡ one_less loc time }
{
    Change {
        at: Pointstamp { loc, time },
        by: -1,
    }
}

/// So many more are outstanding at a location and time.
pub fn many_more(loc: Loc, time: Time, count: usize) -> Change
    requires { count < 2 ^ 63 }
    ensures { result ≡ change_at loc time (pos count) }
{
    Change {
        at: Pointstamp { loc, time },
        by: count as i64,
    }
}

/// So many less are outstanding at a location and time.
pub fn many_less(loc: Loc, time: Time, count: usize) -> Change
    requires { count < 2 ^ 63 }
    ensures { result ≡ change_at loc time (neg_ℤ (pos count)) }
{
    Change {
        at: Pointstamp { loc, time },
        by: -(count as i64),
    }
}

/// Lists that there are so many more at a location and time, unless there are none. The list has room.
pub fn push_more(
    changes: &mut Vec<Change>,
    loc: Loc,
    time: Time,
    count: usize,
) -> Result<(), AllocError>
    requires room { vec_len changes.old < vec_capacity changes.old }
    requires count { count < 2 ^ 63 }
    ensures done { IsOk result }
    ensures changes { changes.new.items ≡ changes.old.items ++ some_more loc time count }
    ensures few { vec_len changes.new ≤ vec_len changes.old + 1 }
    ensures room { vec_capacity changes.old ≤ vec_capacity changes.new }
{
    if count != 0 {
        changes.push(Change {
            at: Pointstamp { loc, time },
            by: count as i64,
        })?;
    }
    Ok(())
}
