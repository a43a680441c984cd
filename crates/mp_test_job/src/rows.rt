//! Of a worker's log: its opening entries and its growth, each call that takes memory with ample memory.
ghost use Rattle.std.specs.Prelude.{◌≡◌, ◌<◌, IfOk};
ghost use Rattle.mp_rows.specs.Entries.{change_at};
ghost use Rattle.mp_samples.specs.Jobs.{three_workers};

use mp_model::Tag;
use mp_rows::{
    Change, Job, Loc, Log, LogList, Name, Naming, OutlineOf, Pointstamp, Time, opening_entries,
};
use mp_samples::{WakingBids, job_of_events};
use std::alloc::{AllocError, Global};
use std::marker::Brand;
use std::process::Abort;

// So much is added to the count of a location and time.
fn change(loc: Loc, time: Time, by: i64) -> Change
    ensures { result ≡ change_at loc time by }
{
    Change {
        at: Pointstamp { loc, time },
        by,
    }
}

// Four events, of which that at 8 makes no record, and control records at 100 and 15.
fn small_job(alloc: Global) -> Result<Job<WakingBids>, AllocError>
    ensures { IfOk result (λ job. job.shape ≡ three_workers) }
{
    let table = [(30, true), (5, true), (8, false), (20, true)];
    job_of_events(alloc, &table, &[100, 15])
}

fn opens_with(
    rt: &impl Abort,
    alloc: Global,
    job: &Job<WakingBids>,
    worker: u32,
    entries: &[Change],
) -> Result<(), AllocError>
    requires shape { job.now.shape ≡ three_workers }
    requires worker { worker < 3 }
{
    let found = opening_entries(alloc, job, worker)?;
    assert!(rt; found.as_slice() == entries);
    Ok(())
}

#[test]
fn opening_contributions(rt: HostRuntime) -> Result<(), AllocError> {
    let job = small_job(rt.alloc())?;
    let entries = [change(Loc::Ctl, 100, 3), change(Loc::Ctl, 15, 3)];
    opens_with(&rt, rt.alloc(), &job, 0, &entries)?;
    opens_with(&rt, rt.alloc(), &job, 1, &[])
}

// Takes the first answer row of auction 7 at a time.
fn take_row<J: Naming>(
    log: &mut Log<OutlineOf<WakingBids, J>>,
    time: Time,
) -> Result<(), AllocError> {
    let row = Name::Row {
        time,
        tag: Tag(7, 0),
    };
    log.push(LogList::Took, row, &[change(Loc::OutMail, time, -1)])
}

fn take_three<J: Naming>(log: &mut Log<OutlineOf<WakingBids, J>>) -> Result<(), AllocError> {
    take_row(log, 40)?;
    log.make_room(2)?;
    take_row(log, 50)?;
    take_row(log, 40)
}

// The changes of the three rows, which are gone once they are posted.
fn shows_changes<J: Naming>(rt: &impl Abort, log: &mut Log<OutlineOf<WakingBids, J>>) {
    let entries = [change(Loc::OutMail, 40, -2), change(Loc::OutMail, 50, -1)];
    assert!(rt; log.changes() == entries.as_slice());
    log.post();
    assert!(rt; log.changes().is_empty());
}

fn room_is_refused<J: Naming>(rt: &impl Abort, log: &mut Log<OutlineOf<WakingBids, J>>) {
    assert!(rt; log.make_room(u64::MAX).is_err());
}

fn logs_grow<J: Naming>(
    rt: &impl Abort,
    alloc: Global,
    job: &Job<WakingBids>,
) -> Result<(), AllocError>
    requires { job.now ≡ J.job }
{
    let _ = job;
    let mut log = Log::<OutlineOf<WakingBids, J>>::open(alloc, 2);
    room_is_refused(rt, &mut log);
    take_three(&mut log)?;
    shows_changes(rt, &mut log);
    Ok(())
}

#[test]
fn pushes_with_their_changes(rt: HostRuntime) -> Result<(), AllocError> {
    let job = small_job(rt.alloc())?;
    logs_grow::<Brand>(&rt, rt.alloc(), &job)
}
