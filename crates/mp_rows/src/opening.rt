//! What the empty log of a worker adds to the counts.
ghost use Rattle.std.specs.Prelude.{◌≡◌, ◌++◌, ◌<◌, IfOk, OnOk};
ghost use Rattle.mp_names.specs.Logs.{empty_log};
ghost use Rattle.mp_job.specs.Records.{share_of};
ghost use Rattle.mp_job.specs.Runs.{IsRunOf};
ghost use Rattle.mp_model.specs.Facts.{JobFacts};
ghost use Rattle.mp_outline.specs.JobOutline.{outline_of};
ghost use Rattle.mp_rows.specs.Entries.{AreContributions};
ghost use Rattle.mp_rows.specs.Opening.{control_entries, source_entries};
ghost use Rattle.mp_model.specs.Tables.{table_of};

use crate::waking::add_wakes;
use crate::{Change, Pointstamp};
use mp_job::{Control, Job, Query};
use mp_names::Loc;
use std::alloc::{AllocError, Global};

/// The contributions of the empty log of a worker, whether the job runs paced or not, but for the records of its share, of
/// which each counts once at its time: on worker 0 the control records that it has to send to each worker; and the wakes that
/// the job begins with, of the bins whose first owner the worker is. `AllocError`: no memory.
pub fn opening_entries<Q: Query>(
    alloc: Global,
    job: &Job<Q>,
    worker: u32,
) -> Result<Vec<Change>, AllocError>
    requires { worker < job.now.shape.workers }
    ensures { (run : JobFacts) → IsRunOf job.now run → let o = outline_of (table_of Q.facts run) run in
        let share = share_of (table_of Q.facts run) run.events run.shape.workers worker in
        IfOk result (λ v. AreContributions o worker empty_log (v.items ++ source_entries run.events share)) }
{
    let shape = job.shape();
    let mut entries = Vec::new(alloc);
    add_controls(job.controls(), shape.workers, worker, &mut entries)?;
    add_wakes(job, worker, &mut entries)?;
    Ok(entries)
}

// Adds the control records, if the worker is the one that sends them.
fn add_controls(
    controls: &[Control],
    workers: u32,
    worker: u32,
    entries: &mut Vec<Change>,
) -> Result<(), AllocError>
    ensures { OnOk result (entries.new.items ≡ entries.old.items ++ control_entries workers worker controls.now) }
{
    if worker != 0 {
        return Ok(());
    }
    let receivers = i64::from(workers);
    for control in controls {
        entries.push(Change {
            at: Pointstamp {
                loc: Loc::Ctl,
                time: control.time,
            },
            by: receivers,
        })?;
    }
    Ok(())
}
