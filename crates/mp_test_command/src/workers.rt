//! That the answer comes of the workers: a gate and a depot see what they do.
use crate::fixture::{End, Holds, Seen, ends, files};
use mp_meet::Meet;
use mp_outside::MemDepot;
use std::alloc::AllocError;
use std::process::Abort;
use std::sync::Wait;
use std::sync::atomic::Ordering;
use std::thread::Threads;

/// Two bids of one time: the first belongs to worker 1, the second to worker 2.
const TWO_BIDS: &[u8] = b"B|5|4|1|100\nB|5|1|1|200\n";

const RUN: &str = "megaphone run --query q1 --events e --config c --out o --workers 3 --bins 4";

const REPLAY: &str =
    "megaphone replay --query q1 --events e --config c --out o --workers 3 --bins 4";

/// Three workers answer, of whom a gate holds these back.
fn answers<R: Threads + Wait + Sync + AllocGlobal + Abort>(
    rt: &R,
    line: &str,
    holds: Holds<'_>,
    seen: &Seen,
) -> Result<(), AllocError> {
    let mut memory = files(rt.alloc(), TWO_BIDS)?;
    ends(rt, &mut memory, seen, line, holds, End::of(0, b""))?;
    are_there(rt, &memory);
    Ok(())
}

fn are_there(rt: &impl Abort, memory: &MemDepot) {
    assert!(rt; memory.get("o") == Some(b"5|1|1|178\n5|4|1|89\n".as_slice()));
}

/// Two workers that meet answer.
fn meet_and_answer<R: Threads + Wait + Sync + AllocGlobal + Abort>(
    rt: &R,
    meet: &Meet,
) -> Result<(), AllocError> {
    let seen = Seen::nothing();
    answers(rt, RUN, Holds::Two(meet), &seen)
}

// Workers 1 and 2 wait for each other, each before its first step of kind Apply. On one thread the first of them would
// give up.
#[test]
fn two_threads_meet(rt: HostRuntime) -> Result<(), AllocError> {
    let meet = Meet::new(1, 2, 1_000_000);
    meet_and_answer(&rt, &meet)?;
    assert!(rt; !meet.missed());
    Ok(())
}

fn worked(rt: &impl Abort, seen: &Seen) {
    assert!(rt; seen.first_applies.load(Ordering::SeqCst));
    assert!(rt; seen.second_applies.load(Ordering::SeqCst));
    assert!(rt; !seen.strayed.load(Ordering::SeqCst));
}

/// The workers answer, and their steps are seen.
fn are_seen<R: Threads + Wait + Sync + AllocGlobal + Abort>(
    rt: &R,
    line: &str,
) -> Result<(), AllocError> {
    let seen = Seen::nothing();
    answers(rt, line, Holds::Nobody, &seen)?;
    worked(rt, &seen);
    Ok(())
}

// An answer that is computed beside the workers is appended while worker 0 is at no write, and workers for show alone apply
// no group.
#[test]
fn answers_without_workers(rt: HostRuntime) -> Result<(), AllocError> {
    are_seen(&rt, RUN)?;
    are_seen(&rt, REPLAY)
}
