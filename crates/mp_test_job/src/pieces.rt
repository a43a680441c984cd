//! An event file of some 400 KB that is read in pieces, on threads.
use mp_events::{EventReading, EventsReason, EventsRefused};
use mp_events_threads::OnThreads;
use mp_text::put_number;
use std::alloc::{AllocError, Global};
use std::process::Abort;
use std::thread::Threads;

const LINES: u64 = 20_000;

// Bids, one of each time from 0 on, with another line in place of that of one time.
fn bids_but(alloc: Global, time: u64, line: &[u8]) -> Result<Vec<u8>, AllocError> {
    let mut text = Vec::new(alloc);
    for now in 0..LINES {
        if now == time {
            text.extend_from_slice(line)?;
        } else {
            put_bid(&mut text, now)?;
        }
    }
    Ok(text)
}

fn put_bid(text: &mut Vec<u8>, time: u64) -> Result<(), AllocError> {
    text.extend_from_slice(b"B|")?;
    put_number(text, time)?;
    text.extend_from_slice(b"|1000|2000|3000\n")
}

// The events of all lines come, in the order of the lines.
fn reads_all<R: Threads + Abort>(rt: &R, alloc: Global, text: &[u8]) -> Result<(), EventsRefused> {
    let events = OnThreads::new(rt, 4).read_events(alloc, text)?;
    assert!(rt; events.len() as u64 == LINES);
    for (place, event) in events.iter().enumerate() {
        assert!(rt; event.time == place as u64);
    }
    Ok(())
}

#[test]
fn pieces_are_joined(rt: HostRuntime) -> Result<(), EventsRefused> {
    let text = bids_but(rt.alloc(), 0, b"B|0|1|2|3\n")?;
    reads_all(&rt, rt.alloc(), text.as_slice())
}

// A carriage return ends the line, so what is behind it is read line by line.
#[test]
fn lines_behind_a_piece_are_read(rt: HostRuntime) -> Result<(), EventsRefused> {
    let text = bids_but(rt.alloc(), 11_000, b"B|11000|1|2|3\r\n")?;
    reads_all(&rt, rt.alloc(), text.as_slice())
}

#[test]
fn bad_lines_have_their_numbers(rt: HostRuntime) -> Result<(), AllocError> {
    let text = bids_but(rt.alloc(), 15_000, b"B|15000|1|x|3\n")?;
    let read = OnThreads::new(&rt, 4).read_events(rt.alloc(), text.as_slice());
    let Err(EventsRefused::BadLine { line, why }) = read else {
        return Err(AllocError);
    };
    assert!(rt; line == 15_001 && why == EventsReason::Number);
    Ok(())
}
