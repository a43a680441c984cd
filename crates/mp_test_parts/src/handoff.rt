//! Of movers: a bin goes from worker 0 to worker 1 at 10 and back at 20, with ample memory.
ghost use Rattle.std.specs.Prelude.{◌≡◌, ◌<◌, [], IfOk};
ghost use Rattle.mp_outline.specs.JobOutline.{layout_of};
ghost use Rattle.mp_test_parts.specs.Quiet.{quiet, two_workers};

use crate::seen::seen_with;
use mp_bins::{Control, Move, Owners, Shape};
use mp_handoff::{Movers, movers_stay};
use mp_model::{Naming, Time};
use mp_samples::WakingBids;
use mp_stamps::{Loc, Seen};
use std::alloc::{AllocError, Global};
use std::marker::Brand;
use std::process::Abort;

const SHAPE: Shape = Shape {
    workers: 2,
    bins: 1,
    stages: 1,
};

const TO_WORKER_1: Move = Move {
    time: 10,
    stage: 0,
    bin: 0,
    from: 0,
    to: 1,
};

const BACK: Move = Move {
    time: 20,
    stage: 0,
    bin: 0,
    from: 1,
    to: 0,
};

fn to_worker(worker: u32, time: Time) -> Control
    ensures { result ≡ record { time = time; stage = 0; bin = 0; worker = worker } }
{
    Control {
        time,
        stage: 0,
        bin: 0,
        worker,
    }
}

// Both control records are noted, whether or not the stream has passed them.
fn both_noted(alloc: Global) -> Result<Owners, AllocError>
    ensures { IfOk result (λ o. o.layout ≡ record { shape = two_workers; firsts = [] }) }
{
    let mut owners = Owners::new(alloc, SHAPE)?;
    owners.note(0, to_worker(1, 10))?;
    owners.note(1, to_worker(0, 20))?;
    Ok(owners)
}

// Both times are noted, one of them twice.
fn note_both<J: Naming>(movers: &mut Movers<WakingBids, J>) -> Result<(), AllocError> {
    movers.make_room(3)?;
    movers.note(20)?;
    movers.note(10)?;
    movers.note(20)
}

// The movers of a worker that has noted both times.
fn noted<J: Naming>(alloc: Global, worker: u32) -> Result<Movers<WakingBids, J>, AllocError>
    requires job { J.job ≡ quiet }
    requires worker { worker < 2 }
{
    let mut movers = Movers::<WakingBids, J>::new(alloc, 0, worker);
    note_both(&mut movers)?;
    Ok(movers)
}

fn due_is<J: Naming>(
    rt: &impl Abort,
    movers: &Movers<WakingBids, J>,
    seen: &Seen,
    owners: &Owners,
    moved: Option<Move>,
)
    requires { owners.now.layout ≡ layout_of J.job }
{
    assert!(rt; movers.due(seen, owners) == moved);
}

fn settled_is<J: Naming>(
    rt: &impl Abort,
    movers: &mut Movers<WakingBids, J>,
    seen: &Seen,
    owners: &Owners,
    time: Option<Time>,
)
    requires { owners.now.layout ≡ layout_of J.job }
{
    assert!(rt; movers.settle(seen, owners) == time);
}

// Sends a bin, which has no keys.
fn send<J: Naming>(movers: &mut Movers<WakingBids, J>, moved: Move) -> Result<(), AllocError>
    requires { J.job ≡ quiet }
{
    movers.make_room_for_sent()?;
    movers.sent(moved, 0);
    Ok(())
}

// Worker 0 sends the bin at 10, and has nothing to send at 20.
fn hand_off<J: Naming>(
    rt: &impl Abort,
    movers: &mut Movers<WakingBids, J>,
    at_ten: &Seen,
    done: &Seen,
    owners: &Owners,
) -> Result<(), AllocError>
    requires owners { owners.now.layout ≡ layout_of J.job }
    requires job { J.job ≡ quiet }
{
    due_is(rt, movers, at_ten, owners, Some(TO_WORKER_1));
    send(movers, TO_WORKER_1)?;
    due_is(rt, movers, done, owners, None);
    settled_is(rt, movers, at_ten, owners, Some(10));
    settled_is(rt, movers, done, owners, Some(20));
    Ok(())
}

fn first_owner_hands_off<J: Naming>(
    rt: &impl Abort,
    alloc: Global,
    owners: &Owners,
) -> Result<(), AllocError>
    requires owners { owners.now.layout ≡ layout_of J.job }
    requires job { J.job ≡ quiet }
{
    let mut movers = noted::<J>(alloc, 0)?;
    let at_ten = seen_with(alloc, &[(Loc::CtlMail, 15), (Loc::Host(0), 10)])?;
    let done = seen_with(alloc, &[])?;
    hand_off(rt, &mut movers, &at_ten, &done, owners)
}

// Worker 1 has nothing to send at 10, and sends the bin back at 20.
fn hand_back<J: Naming>(
    rt: &impl Abort,
    movers: &mut Movers<WakingBids, J>,
    waits: &Seen,
    done: &Seen,
    owners: &Owners,
) -> Result<(), AllocError>
    requires owners { owners.now.layout ≡ layout_of J.job }
    requires job { J.job ≡ quiet }
{
    settled_is(rt, movers, waits, owners, Some(10));
    settled_is(rt, movers, done, owners, None);
    due_is(rt, movers, done, owners, Some(BACK));
    send(movers, BACK)?;
    settled_is(rt, movers, done, owners, Some(20));
    Ok(())
}

fn second_owner_hands_back<J: Naming>(
    rt: &impl Abort,
    alloc: Global,
    owners: &Owners,
) -> Result<(), AllocError>
    requires owners { owners.now.layout ≡ layout_of J.job }
    requires job { J.job ≡ quiet }
{
    let mut movers = noted::<J>(alloc, 1)?;
    let waits = seen_with(alloc, &[(Loc::Host(0), 19)])?;
    let done = seen_with(alloc, &[])?;
    hand_back(rt, &mut movers, &waits, &done, owners)
}

fn bin_goes_and_comes_back<J: Naming>(rt: &impl Abort, alloc: Global) -> Result<(), AllocError>
    requires { J.job ≡ quiet }
{
    movers_stay();
    let owners = both_noted(alloc)?;
    first_owner_hands_off::<J>(rt, alloc, &owners)?;
    second_owner_hands_back::<J>(rt, alloc, &owners)
}

#[test]
fn bins_leave_in_turn(rt: HostRuntime) -> Result<(), AllocError> {
    bin_goes_and_comes_back::<Brand>(&rt, rt.alloc())
}
