//! That a worker which stops tells the others: an append fails while a worker still has all of its work before it.
use crate::fixture::{End, Holds, Seen, ends, failing_files};
use mp_outside::Op;
use std::alloc::AllocError;
use std::process::Abort;
use std::sync::Wait;
use std::sync::atomic::Ordering;
use std::thread::Threads;

/// Two bids at 5 on an auction of worker 1, and a bid at 9, which worker 2 reads.
const BIDS: &[u8] = b"B|5|4|1|100\nB|5|4|2|200\nB|9|4|3|300\n";

const IN_THREE: &str =
    "megaphone run --query q1 --events e --config c --out o --workers 3 --bins 4";

/// The first append fails, and worker 2 is held back until then.
fn fails<R: Threads + Wait + Sync + AllocGlobal + Abort>(
    rt: &R,
    seen: &Seen,
) -> Result<(), AllocError> {
    let mut memory = failing_files(rt.alloc(), BIDS, Op::Append, 1)?;
    let end = End::of(7, b"write fault\n");
    ends(rt, &mut memory, seen, IN_THREE, Holds::Second, end)
}

// The lines of time 5 are appended while worker 2 has read no event, so it can't have come to its end. If nobody told it that
// worker 0 has stopped, it would wait for worker 0 to write the line of time 9, and the run wouldn't end.
#[test]
fn a_failed_append_stops_a_worker_that_is_behind(rt: HostRuntime) -> Result<(), AllocError> {
    let seen = Seen::nothing();
    fails(&rt, &seen)?;
    assert!(rt; !seen.missed.load(Ordering::SeqCst));
    Ok(())
}
