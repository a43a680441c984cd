//! Jobs of the tests' query.
ghost use Rattle.std.specs.Prelude.{◌≡◌, ◌≤◌, [], IfOk, length};
ghost use Rattle.mp_names.specs.Limits.{most_controls, most_events};
ghost use Rattle.mp_job.specs.Legal.{ShapeIsLegal};
ghost use Rattle.mp_samples.specs.Jobs.{one_bid, one_move, three_workers};

use crate::{
    AnsweringBids, StarvedBids, WakingBids, bid_at, bids_at, controls_at, events_of, to_worker_two,
};
use mp_job::{Job, Shape};
use std::alloc::{AllocError, Global};

/// Three workers with four bins.
pub const THREE_WORKERS: Shape = Shape {
    workers: 3,
    bins: 4,
    stages: 1,
};

/// A job of bids on auction 7, each at its time, with no control records. `AllocError`: no memory.
pub fn job_of_bids(
    alloc: Global,
    times: &[u32],
    shape: Shape,
) -> Result<Job<WakingBids>, AllocError>
    requires times { length times.now ≤ most_events }
    requires shape { ShapeIsLegal shape }
    requires stages { shape.stages ≡ 1 }
    ensures shape { IfOk result (λ job. job.shape ≡ shape) }
    ensures controls { IfOk result (λ job. job.controls ≡ []) }
{
    let events = bids_at(alloc, times)?;
    Job::new(alloc, WakingBids {}, events, Vec::new(alloc), shape)
}

/// A job of bids and auctions, each at its time, of three workers with four bins; its control records give bin 3 to worker
/// 2, each at its time. `AllocError`: no memory.
pub fn job_of_events(
    alloc: Global,
    table: &[(u32, bool)],
    control_times: &[u32],
) -> Result<Job<WakingBids>, AllocError>
    requires events { length table.now ≤ most_events }
    requires controls { length control_times.now ≤ most_controls }
    ensures { IfOk result (λ job. job.shape ≡ three_workers) }
{
    let events = events_of(alloc, table)?;
    let controls = controls_at(alloc, control_times)?;
    Job::new(alloc, WakingBids {}, events, controls, THREE_WORKERS)
}

/// A job of a bid on auction 7 at 5, of three workers with four bins, where the bin of the auction goes to worker 2 at 10.
/// `AllocError`: no memory.
pub fn one_move(alloc: Global) -> Result<Job<AnsweringBids>, AllocError>
    ensures { IfOk result (λ job. job ≡ one_move) }
{
    let mut events = Vec::new(alloc);
    events.push(bid_at(5))?;
    let mut controls = Vec::new(alloc);
    controls.push(to_worker_two())?;
    Job::new(alloc, AnsweringBids {}, events, controls, THREE_WORKERS)
}

/// A job of a bid on auction 7 at 5, of three workers with four bins, whose groups find no memory. The bin of the auction is
/// worker 1's. `AllocError`: no memory.
pub fn starved_job(alloc: Global) -> Result<Job<StarvedBids>, AllocError>
    ensures { IfOk result (λ job. job ≡ one_bid) }
{
    let mut events = Vec::new(alloc);
    events.push(bid_at(5))?;
    Job::new(
        alloc,
        StarvedBids {},
        events,
        Vec::new(alloc),
        THREE_WORKERS,
    )
}
