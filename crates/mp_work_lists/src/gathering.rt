//! Work added to a list.
ghost use Rattle.std.specs.Prelude.{◌≡◌, ◌<◌, OnOk, false, true};
ghost use Rattle.mp_chart.specs.Left.{part_at};
ghost use Rattle.mp_work_lists.specs.Parts.{HasMore, work_of_times};

use mp_chart::Work;
use mp_names::{Loc, Time};
use std::alloc::AllocError;

/// Adds `each` names of work at a location for each of these times, so that equal times that follow each other make one
/// entry. `AllocError`: no memory.
pub(crate) fn add_times(
    works: &mut Vec<Work>,
    loc: Loc,
    each: u32,
    times: &[Time],
) -> Result<(), AllocError>
    requires { 0 < each }
    ensures { OnOk result (HasMore (work_of_times loc each times.now) works.old.items works.new.items) }
{
    for time in times {
        let work = Work {
            loc,
            time: *time,
            count: each,
        };
        add_work(works, work)?;
    }
    Ok(())
}

// Adds work. `AllocError`: no memory.
fn add_work(works: &mut Vec<Work>, work: Work) -> Result<(), AllocError>
    requires { 0 < work.count }
    ensures { OnOk result (HasMore (λ a t. part_at a t work) works.old.items works.new.items) }
{
    if !add_to_last(works, work) {
        works.push(work)?;
    }
    Ok(())
}

// Adds work to the last entry, where that is of its location and time and the sum fits, and gives whether it did.
fn add_to_last(works: &mut Vec<Work>, work: Work) -> bool
    ensures added { result ≡ true → HasMore (λ a t. part_at a t work) works.old.items works.new.items }
    ensures same { result ≡ false → works.new.items ≡ works.old.items }
{
    let Some(last) = works.len().checked_sub(1) else {
        return false;
    };
    let Some(joined) = works[last].joined(work) else {
        return false;
    };
    works[last] = joined;
    true
}
