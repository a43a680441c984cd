//! What stands on a board at first.
ghost use Rattle.std.specs.Prelude.{◌≡◌, ◌≤◌, ◌+◌, ◌^◌, IfOk, OnOk, map, replicate};
ghost use Rattle.mp_names.specs.Logs.{empty_log};
ghost use Rattle.mp_rows.specs.Below.{IsRunOf};
ghost use Rattle.mp_rows.specs.Below.{times_of};
ghost use Rattle.mp_rows.specs.Below.{outline_of};
ghost use Rattle.mp_board.specs.Opening.{AreOpened};
ghost use Rattle.mp_model.specs.Tables.{table_of};

use crate::totals::{add_all, add_records};
use mp_rows::{Job, Log, Naming, Outlined, Query, opening_entries};
use mp_stamps::Counts;
use std::alloc::{AllocError, Global};
use std::snapshot::Snapshot;

// How many entries and records the empty log of a worker may have. No memory holds so many.
const MOST_ENTRIES: u64 = 1 << 40;

/// The counts of the empty logs of all workers of a run of the job, over the times of the job. `AllocError`: no memory.
pub(crate) fn opening_counts<Q: Query, J: Naming>(
    alloc: Global,
    job: &Job<Q>,
) -> Result<Counts, AllocError>
    requires { IsRunOf job.now J.job }
    ensures opened { let o = outline_of (table_of Q.facts J.job) J.job in IfOk result (AreOpened o o.workers) }
    ensures stages { IfOk result (λ counts. counts.stages ≡ J.job.shape.stages) }
    ensures times { IfOk result (λ counts. counts.times ≡ times_of (table_of Q.facts J.job) J.job.events J.job.controls) }
{
    let shape = job.shape();
    let mut counts = Counts::over(alloc, shape.stages, job.times())?;
    for worker in 0..shape.workers {
        let entries = opening_entries(alloc, job, worker)?;
        let share = job.share(worker);
        check_number(entries.len(), share.len())?;
        add_all(&mut counts, &entries);
        add_records(&mut counts, job.events(), share);
    }
    Ok(counts)
}

// `AllocError`: there are too many entries and records.
fn check_number(entries: usize, records: usize) -> Result<(), AllocError>
    ensures { OnOk result (entries + records ≤ 2 ^ 40) }
{
    if entries.saturating_add(records) as u64 > MOST_ENTRIES {
        return Err(AllocError);
    }
    Ok(())
}

/// The empty logs of so many workers. `AllocError`: no memory.
pub(crate) fn empty_logs<O: Outlined>(
    alloc: Global,
    workers: u32,
) -> Result<Vec<Snapshot<Log<O>>>, AllocError>
    ensures { IfOk result (λ logs. map (λ l. l.value.log) logs.items ≡ replicate workers empty_log) }
{
    let mut logs = Vec::new(alloc);
    for worker in 0..workers {
        let log = Log::<O>::open(alloc, worker);
        logs.push(Snapshot::of(&log))?;
    }
    Ok(logs)
}
