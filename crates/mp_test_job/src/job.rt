//! Of a job: its shares, its times and its records, each call that allocates once with ample memory.
ghost use Rattle.std.specs.Prelude.{◌<◌};

use mp_job::{Job, Rec};
use mp_model::{Tag, Value};
use mp_samples::{WakingBids, job_of_events};
use std::alloc::{AllocError, Global};
use std::process::Abort;

// The records that a worker takes in.
fn recs_of(alloc: Global, job: &Job<WakingBids>, worker: u32) -> Result<Vec<Rec>, AllocError>
    requires { worker < job.now.shape.workers }
{
    let mut recs = Vec::new(alloc);
    for index in job.share(worker) {
        recs.push(job.rec_at(*index)?)?;
    }
    Ok(recs)
}

// Of these five events that at 8 makes no record. Each record posts a time ten later.
fn small_job(alloc: Global) -> Result<Job<WakingBids>, AllocError> {
    let table = [(30, true), (5, true), (8, false), (5, true), (20, true)];
    job_of_events(alloc, &table, &[100, 15, 2])
}

#[test]
fn times_of_records_posts_and_controls(rt: HostRuntime) -> Result<(), AllocError> {
    let job = small_job(rt.alloc())?;
    assert!(rt; job.times() == [2, 5, 15, 20, 30, 40, 100].as_slice());
    Ok(())
}

fn is_fourth_bid(rt: &impl Abort, rec: &Rec) {
    assert!(rt; rec.time == 5 && rec.key == 7 && rec.tag == Tag(0, 3));
    assert!(rt; matches!(&rec.value, Value::Bid { price: 100, .. }));
}

fn are_first_share(rt: &impl Abort, recs: &[Rec]) {
    assert!(rt; recs.len() == 2);
    is_fourth_bid(rt, &recs[1]);
}

#[test]
fn shares_by_index(rt: HostRuntime) -> Result<(), AllocError> {
    let table = [(30, true), (20, true), (8, false), (5, true)];
    let job = job_of_events(rt.alloc(), &table, &[])?;
    let recs = recs_of(rt.alloc(), &job, 0)?;
    are_first_share(&rt, recs.as_slice());
    Ok(())
}
