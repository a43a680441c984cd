//! What the wakes that a job begins with add to the counts.
ghost use Rattle.std.specs.Prelude.{◌≡◌, ◌++◌, ◌<◌, ℕ, List, OnOk};
ghost use Rattle.mp_model.specs.Tables.{table_of};
ghost use Rattle.mp_rows.specs.Opening.{AreWakesOf, IsFirstOwner, wake_entries};

use crate::{Change, Pointstamp};
use mp_job::{Job, Query, Time};
use mp_names::Loc;
use std::alloc::AllocError;

/// Adds the wakes that the job begins with, of the bins whose first owner is the worker. `AllocError`: no memory.
pub fn add_wakes<Q: Query>(
    job: &Job<Q>,
    worker: u32,
    entries: &mut Vec<Change>,
) -> Result<(), AllocError>
    ensures { let bins = job.now.shape.bins in OnOk result ((wakes : List (ℕ × ℕ))
        × AreWakesOf (table_of Q.facts job.now) bins (λ b. (b < bins) × IsFirstOwner job.now worker b) wakes
        × (entries.new.items ≡ entries.old.items ++ wake_entries wakes)) }
{
    for bin in 0..job.shape().bins {
        add_each(own_wakes(job, worker, bin), entries)?;
    }
    Ok(())
}

// The wakes that a bin of the first stage begins with, if the worker is its first owner; else none.
fn own_wakes<Q: Query>(job: &Job<Q>, worker: u32, bin: u32) -> &[(Time, u64)]
    ensures { AreWakesOf (table_of Q.facts job.now) job.now.shape.bins (λ b. (b ≡ bin) × IsFirstOwner job.now worker b) result.now }
{
    if job.first_owner(0, bin) == worker {
        job.opening_wakes(0, bin)
    } else {
        &[]
    }
}

// Adds each of these wakes at its time.
fn add_each(wakes: &[(Time, u64)], entries: &mut Vec<Change>) -> Result<(), AllocError>
    ensures { OnOk result (entries.new.items ≡ entries.old.items ++ wake_entries wakes.now) }
{
    for wake in wakes {
        entries.push(Change {
            at: Pointstamp {
                loc: Loc::Host(0),
                time: wake.0,
            },
            by: 1,
        })?;
    }
    Ok(())
}
