//! What workers saw, of a job of one stage.
use mp_names::{Loc, Time};
use mp_stamps::{Counts, Seen};
use std::alloc::{AllocError, Global};

/// What was seen while work was outstanding at these locations and times, which are below 20. `AllocError`: no memory.
pub(crate) fn seen_with(alloc: Global, work: &[(Loc, Time)]) -> Result<Seen, AllocError> {
    let mut counts = Counts::over(alloc, 1, &[5, 6, 8, 9, 10, 15, 19])?;
    for (loc, time) in work {
        mark(&mut counts, *loc, *time);
    }
    Ok(Seen::of(1, 0, &counts))
}

// From now on work is outstanding there.
fn mark(counts: &mut Counts, loc: Loc, time: Time) {
    if counts.at(loc, time) == 0 {
        counts.add(loc, time, 1);
    }
}
