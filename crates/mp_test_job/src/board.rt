//! Of the board: what it tells of the posted logs, and its cause of stopping, each call that takes memory with ample memory.
ghost use Rattle.std.specs.Prelude.{◌≡◌, IfOk};
ghost use Rattle.mp_job.specs.Runs.{IsRunOf};

use mp_board::{Board, Cause, Frontier, Hub, HubStop, Job, Loc, Log, Naming, OutlineOf};
use mp_job::Shape;
use mp_samples::{WakingBids, job_of_bids};
use std::alloc::{AllocError, Global};
use std::marker::Brand;
use std::process::Abort;

const SHAPE: Shape = Shape {
    workers: 2,
    bins: 1,
    stages: 1,
};

// Bids at 30 and 20, the first in the share of worker 0, the second in that of worker 1.
fn two_bids(alloc: Global) -> Result<Job<WakingBids>, AllocError>
    ensures { IfOk result (λ job. job.shape ≡ SHAPE) }
{
    job_of_bids(alloc, &[30, 20], SHAPE)
}

// Posts the empty log of worker 1 once more.
fn empty_log_again<J: Naming>(
    rt: &impl Abort,
    alloc: Global,
    job: &Job<WakingBids>,
) -> Result<(), AllocError>
    requires job { IsRunOf job.now J.job }
    requires shape { job.now.shape ≡ SHAPE }
{
    let mut board = Board::<OutlineOf<WakingBids, J>>::open(alloc, job)?;
    let mut log = Log::<OutlineOf<WakingBids, J>>::open(alloc, 1);
    let seen = board.exchange(1, &mut log);
    assert!(rt; seen.frontier(Loc::OutMail) == Frontier::At(20));
    assert!(rt; seen.frontier(Loc::Ctl) == Frontier::Done);
    Ok(())
}

#[test]
fn shows_all_shares(rt: HostRuntime) -> Result<(), AllocError> {
    let job = two_bids(rt.alloc())?;
    empty_log_again::<Brand>(&rt, rt.alloc(), &job)
}

// Stops twice, and asks for an exchange then.
fn first_cause<J: Naming>(
    rt: &impl Abort,
    alloc: Global,
    job: &Job<WakingBids>,
) -> Result<(), AllocError>
    requires job { IsRunOf job.now J.job }
    requires shape { job.now.shape ≡ SHAPE }
{
    let mut board = Board::<OutlineOf<WakingBids, J>>::open(alloc, job)?;
    let mut log = Log::<OutlineOf<WakingBids, J>>::open(alloc, 1);
    board.stop(Cause::Memory);
    board.stop(Cause::Write);
    let refused = Hub::exchange(&mut board, 1, &mut log).err();
    assert!(rt; refused == Some(HubStop::Other(Cause::Memory)));
    Ok(())
}

#[test]
fn keeps_the_first_cause(rt: HostRuntime) -> Result<(), AllocError> {
    let job = two_bids(rt.alloc())?;
    first_cause::<Brand>(&rt, rt.alloc(), &job)
}
