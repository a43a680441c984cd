//! Of a job that stops at 30: what it has, each call that allocates once with ample memory.
ghost use Rattle.std.specs.Prelude.{◌≡◌, IfOk};
ghost use Rattle.mp_samples.specs.Jobs.{three_workers};

use mp_job::{Job, JobInputs};
use mp_model::Control;
use mp_samples::{THREE_WORKERS, WakingBids, controls_at, events_of, job_of_events};
use std::alloc::{AllocError, Global};
use std::process::Abort;

// Bids below, at and above the stop time, and an auction at 8, which makes no record; and control records. Each bid posts a
// time ten later.
fn job_until_30(alloc: Global) -> Result<Job<WakingBids>, AllocError>
    ensures { IfOk result (λ job. job.shape ≡ three_workers) }
{
    let table = [(30, true), (5, true), (29, true), (8, false), (31, true)];
    let inputs = JobInputs {
        events: events_of(alloc, &table)?,
        controls: controls_at(alloc, &[30, 29, 7, 100])?,
        firsts: Vec::new(alloc),
    };
    Job::until(alloc, WakingBids {}, inputs, THREE_WORKERS, 30)
}

#[test]
fn stops_at_30(rt: HostRuntime) -> Result<(), AllocError> {
    let job = job_until_30(rt.alloc())?;
    assert!(rt; job.stop_time() == Some(30));
    assert!(rt; job.is_before_stop(29));
    assert!(rt; !job.is_before_stop(30));
    Ok(())
}

#[test]
fn another_job_never_stops(rt: HostRuntime) -> Result<(), AllocError> {
    let job = job_of_events(rt.alloc(), &[(30, true)], &[])?;
    assert!(rt; job.stop_time().is_none());
    assert!(rt; job.is_before_stop(1_000_000_000));
    Ok(())
}

fn are_at_29_and_7(rt: &impl Abort, controls: &[Control]) {
    assert!(rt; controls.len() == 2);
    assert!(rt; controls[0].time == 29 && controls[1].time == 7);
}

#[test]
fn has_earlier_control_records(rt: HostRuntime) -> Result<(), AllocError> {
    let job = job_until_30(rt.alloc())?;
    are_at_29_and_7(&rt, job.controls());
    Ok(())
}

// Of the first worker's events one is at 30, and one is the auction.
#[test]
fn has_earlier_records(rt: HostRuntime) -> Result<(), AllocError> {
    let job = job_until_30(rt.alloc())?;
    assert!(rt; job.share(0).is_empty());
    assert!(rt; job.share(1) == [1].as_slice());
    assert!(rt; job.share(2) == [2].as_slice());
    Ok(())
}

#[test]
fn has_their_times_and_posts(rt: HostRuntime) -> Result<(), AllocError> {
    let job = job_until_30(rt.alloc())?;
    assert!(rt; job.times() == [5, 7, 15, 29, 39].as_slice());
    assert!(rt; job.count_of_post_times() == 2);
    Ok(())
}
