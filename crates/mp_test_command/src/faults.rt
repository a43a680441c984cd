//! What comes of faults: which come first, and what then stands in the files.
ghost use Rattle.std.specs.Prelude.{◌<◌};

use crate::fixture::{End, failing_files, files, just_ends};
use mp_outside::{MemDepot, Op};
use std::alloc::{AllocError, Global};
use std::process::Abort;
use std::sync::Wait;
use std::thread::Threads;

const THREE_BIDS: &[u8] = b"B|5|7|2|100\nB|3|7|1|250\nB|5|2|9|99\n";

/// Two auctions of a category, one of which closes at 40 and one at 70.
const TWO_LOTS: &[u8] = b"A|0|1|9|10|0|40\nA|0|2|9|10|0|70\nB|20|1|2|60\nB|65|2|3|90\n";

/// What the auctions leave at 70.
const SAVED: &[u8] =
    b"K|1|q4|70\nc|0|1|1|9|10|0|40|1|60\nc|0|2|1|9|10|0|70|1|90\nw|0|2|70\nc|1|10|60|1\nE|4\n";

/// What a file that is written holds before.
const OLD: &[u8] = b"old";

const Q1: &str = "megaphone run --query q1 --events e --config c --out o";

const CHECK: &str = "megaphone check --query q1 --events e --config c";

/// What a run does with a file.
enum Use {
    /// It reads these bytes.
    Reads(&'static [u8]),
    /// It appends these pieces.
    Writes(&'static [&'static [u8]]),
}

/// The name of a file, and what a run does with it.
type File = (&'static str, Use);

const BIDS: File = ("e", Use::Reads(THREE_BIDS));

const LOTS: File = ("e", Use::Reads(TWO_LOTS));

/// The sums of the prices of each bidder.
const SUMMING: File = ("p", Use::Reads(b"on|B\nsum|2|3|0|any|0\n"));

const EMPTY: File = ("c", Use::Reads(b""));

/// The lines of each time are one piece.
const ANSWER: File = ("o", Use::Writes(&[b"3|7|1|222\n", b"5|2|9|88\n5|7|2|89\n"]));

const SUMS: File = ("o", Use::Writes(&[b"3|1|250\n", b"5|2|100\n5|9|99\n"]));

/// The report of three workers with one bin.
const REPORT: File = (
    "r",
    Use::Writes(&[b"worker 0 3\n", b"worker 1 0\n", b"worker 2 0\n"]),
);

const FIRST_SALE: File = ("o", Use::Writes(&[b"40|10|60\n"]));

/// Four groups of auctions and one of a sale are below 70, and the wake at 40.
const FIRST_REPORT: File = (
    "r",
    Use::Writes(&[b"worker 0 6\n", b"worker 1 0\n", b"worker 2 0\n"]),
);

/// A line is one piece.
const SAVES: File = (
    "s",
    Use::Writes(&[
        b"K|1|q4|70\n",
        b"c|0|1|1|9|10|0|40|1|60\n",
        b"c|0|2|1|9|10|0|70|1|90\n",
        b"w|0|2|70\n",
        b"c|1|10|60|1\n",
        b"E|4\n",
    ]),
);

const GOES_ON: File = ("s", Use::Reads(SAVED));

const SECOND_SALE: File = ("o", Use::Writes(&[b"70|10|75\n"]));

/// The wake at 70 and the sale.
const SECOND_REPORT: File = (
    "r",
    Use::Writes(&[b"worker 0 2\n", b"worker 1 0\n", b"worker 2 0\n"]),
);

/// A run: its words, and its files in the order in which it comes to them.
struct Asked {
    line: &'static str,
    files: &'static [File],
}

const LINES: [Asked; 10] = [
    Asked {
        line: "megaphone run --query q1 --events e --config c --out o --workers 3",
        files: &[BIDS, EMPTY, ANSWER],
    },
    Asked {
        line: "megaphone run --query q1 --events e --config c --out o --workers 3 --bins 1 --report r",
        files: &[BIDS, EMPTY, ANSWER, REPORT],
    },
    Asked {
        line: "megaphone replay --query q1 --events e --config c --out o",
        files: &[BIDS, EMPTY, ANSWER],
    },
    Asked {
        line: "megaphone replay --query q1 --events e --config c --out o --workers 3 --bins 1 --seed 7 --report r",
        files: &[BIDS, EMPTY, ANSWER, REPORT],
    },
    Asked {
        line: "megaphone run --query pipe --pipe p --events e --config c --out o --workers 3",
        files: &[BIDS, SUMMING, EMPTY, SUMS],
    },
    Asked {
        line: "megaphone replay --query pipe --pipe p --events e --config c --out o --workers 3 --bins 1 --report r",
        files: &[BIDS, SUMMING, EMPTY, SUMS, REPORT],
    },
    Asked {
        line: "megaphone run --query q4 --events e --config c --out o --workers 3 --bins 1 --report r --until 70 --save s",
        files: &[LOTS, EMPTY, FIRST_SALE, FIRST_REPORT, SAVES],
    },
    Asked {
        line: "megaphone replay --query q4 --events e --config c --out o --until 70 --save s",
        files: &[LOTS, EMPTY, FIRST_SALE, SAVES],
    },
    Asked {
        line: "megaphone run --query q4 --events e --config c --out o --workers 3 --from s",
        files: &[LOTS, EMPTY, GOES_ON, SECOND_SALE],
    },
    Asked {
        line: "megaphone replay --query q4 --events e --config c --out o --workers 3 --bins 1 --report r --from s",
        files: &[LOTS, EMPTY, GOES_ON, SECOND_SALE, SECOND_REPORT],
    },
];

/// What a file holds before a run.
fn before(what: &Use) -> &'static [u8] {
    match what {
        Use::Reads(bytes) => bytes,
        Use::Writes(_) => OLD,
    }
}

/// A call of the depot: the method, the name, and the bytes that it puts there.
#[derive(Clone, Copy)]
struct Call {
    op: Op,
    name: &'static str,
    bytes: &'static [u8],
}

/// The calls that a run makes for its files, of a depot which gives and takes so many bytes at most.
fn calls_of(alloc: Global, portion: usize, files: &[File]) -> Result<Vec<Call>, AllocError>
    requires { 0 < portion }
{
    let mut calls = Vec::new(alloc);
    for (name, what) in files {
        match what {
            Use::Reads(bytes) => reads(&mut calls, name, bytes, portion)?,
            Use::Writes(pieces) => writes(&mut calls, name, pieces, portion)?,
        }
    }
    Ok(calls)
}

fn note(
    calls: &mut Vec<Call>,
    op: Op,
    name: &'static str,
    bytes: &'static [u8],
) -> Result<(), AllocError> {
    calls.push(Call { op, name, bytes })?;
    Ok(())
}

/// A file is found and read to its end.
fn reads(
    calls: &mut Vec<Call>,
    name: &'static str,
    bytes: &'static [u8],
    portion: usize,
) -> Result<(), AllocError>
    requires { 0 < portion }
{
    note(calls, Op::Find, name, b"")?;
    for _ in bytes.chunks(portion) {
        note(calls, Op::Read, name, b"")?;
    }
    note(calls, Op::Read, name, b"")
}

/// A file is begun, and pieces are put into it.
fn writes(
    calls: &mut Vec<Call>,
    name: &'static str,
    pieces: &'static [&'static [u8]],
    portion: usize,
) -> Result<(), AllocError>
    requires { 0 < portion }
{
    note(calls, Op::Begin, name, b"")?;
    for piece in pieces {
        puts(calls, name, piece, portion)?;
    }
    Ok(())
}

/// A piece is put into a file.
fn puts(
    calls: &mut Vec<Call>,
    name: &'static str,
    piece: &'static [u8],
    portion: usize,
) -> Result<(), AllocError>
    requires { 0 < portion }
{
    for bytes in piece.chunks(portion) {
        note(calls, Op::Append, name, bytes)?;
    }
    Ok(())
}

/// What a file that held these bytes holds after these calls.
fn held(alloc: Global, calls: &[Call], name: &str, old: &[u8]) -> Result<Vec<u8>, AllocError> {
    let mut bytes = Vec::from_slice(alloc, old)?;
    for call in calls {
        if call.name == name {
            if call.op == Op::Begin {
                bytes.clear();
            }
            bytes.extend_from_slice(call.bytes)?;
        }
    }
    Ok(bytes)
}

/// Each file of a run holds what these calls put there.
fn hold(
    rt: &impl Abort,
    alloc: Global,
    depot: &MemDepot,
    files: &[File],
    calls: &[Call],
) -> Result<(), AllocError> {
    for (name, what) in files {
        let wanted = held(alloc, calls, name, before(what))?;
        assert!(rt; depot.get(name) == Some(wanted.as_slice()), "{name}");
    }
    Ok(())
}

/// How many of these calls are of this method.
fn count(calls: &[Call], op: Op) -> u64 {
    let mut count: u64 = 0;
    for call in calls {
        if call.op == op {
            count = count.saturating_add(1);
        }
    }
    count
}

/// The files of a run, of whose calls the one after these fails.
fn prepare(depot: &mut MemDepot, files: &[File], calls: &[Call], op: Op) -> Result<(), AllocError> {
    for (name, what) in files {
        depot.put(name, before(what))?;
    }
    depot.fail(op, count(calls, op).saturating_add(1))
}

/// A depot that has these, and gives and takes so many bytes at most.
fn failing_after(
    alloc: Global,
    asked: &Asked,
    portion: u64,
    calls: &[Call],
    op: Op,
) -> Result<MemDepot, AllocError>
    requires { 0 < portion }
{
    let mut memory = MemDepot::new(alloc);
    prepare(&mut memory, asked.files, calls, op)?;
    memory.take_at_most(portion);
    Ok(memory)
}

/// Does a run where the call after these fails, and compares its end.
fn fails_after<R: Threads + Wait + Sync + AllocGlobal + Abort>(
    rt: &R,
    asked: &Asked,
    portion: u64,
    calls: &[Call],
    op: Op,
    end: End<'_>,
) -> Result<(), AllocError>
    requires { 0 < portion }
{
    let mut memory = failing_after(rt.alloc(), asked, portion, calls, op)?;
    ends_so(rt, &mut memory, asked, calls, end)
}

fn ends_so<R: Threads + Wait + Sync + AllocGlobal + Abort>(
    rt: &R,
    memory: &mut MemDepot,
    asked: &Asked,
    calls: &[Call],
    end: End<'_>,
) -> Result<(), AllocError> {
    just_ends(rt, memory, asked.line, end)?;
    hold(rt, rt.alloc(), memory, asked.files, calls)
}

fn end_of(op: Op) -> End<'static> {
    match op {
        Op::Find | Op::Read => End::of(6, b"read fault\n"),
        _ => End::of(7, b"write fault\n"),
    }
}

/// Each of these calls fails once.
fn each_fails<R: Threads + Wait + Sync + AllocGlobal + Abort>(
    rt: &R,
    asked: &Asked,
    portion: u64,
    calls: &[Call],
) -> Result<(), AllocError>
    requires { 0 < portion }
{
    for (at, call) in calls.iter().enumerate() {
        let op = call.op;
        fails_after(rt, asked, portion, &calls[..at], op, end_of(op))?;
    }
    Ok(())
}

/// No call comes after these.
fn all_are_made<R: Threads + Wait + Sync + AllocGlobal + Abort>(
    rt: &R,
    asked: &Asked,
    portion: u64,
    calls: &[Call],
) -> Result<(), AllocError>
    requires { 0 < portion }
{
    for op in &[Op::Find, Op::Read, Op::Begin, Op::Append] {
        fails_after(rt, asked, portion, calls, *op, End::of(0, b""))?;
    }
    Ok(())
}

/// Each of these calls fails once, and no call comes after them.
fn fails_at<R: Threads + Wait + Sync + AllocGlobal + Abort>(
    rt: &R,
    asked: &Asked,
    portion: u64,
    calls: &[Call],
) -> Result<(), AllocError>
    requires { 0 < portion }
{
    each_fails(rt, asked, portion, calls)?;
    all_are_made(rt, asked, portion, calls)
}

fn fails_in_portions<R: Threads + Wait + Sync + AllocGlobal + Abort>(
    rt: &R,
    asked: &Asked,
    portion: usize,
) -> Result<(), AllocError>
    requires { 0 < portion }
{
    let calls = calls_of(rt.alloc(), portion, asked.files)?;
    fails_at(rt, asked, portion as u64, calls.as_slice())
}

#[test]
fn failing_calls(rt: HostRuntime) -> Result<(), AllocError> {
    for asked in &LINES {
        fails_in_portions(&rt, asked, 1)?;
        fails_in_portions(&rt, asked, 7)?;
        fails_in_portions(&rt, asked, 64)?;
    }
    Ok(())
}

/// Runs q1 on a bad event file, where this find fails, and compares its end.
fn finds<R: Threads + Wait + Sync + AllocGlobal + Abort>(
    rt: &R,
    nth: u64,
    end: End<'_>,
) -> Result<(), AllocError> {
    let mut memory = failing_files(rt.alloc(), b"x", Op::Find, nth)?;
    just_ends(rt, &mut memory, Q1, end)
}

#[test]
fn faults_and_bad_lines(rt: HostRuntime) -> Result<(), AllocError> {
    finds(&rt, 1, End::of(6, b"read fault\n"))?;
    finds(&rt, 2, End::of(3, b"events line 1: kind\n"))
}

/// Does what a line says on these events, and compares its end.
fn says_first<R: Threads + Wait + Sync + AllocGlobal + Abort>(
    rt: &R,
    line: &str,
    events: &[u8],
    end: End<'_>,
) -> Result<(), AllocError> {
    let mut memory = files(rt.alloc(), events)?;
    just_ends(rt, &mut memory, line, end)
}

/// The output fails at each of the bytes, and at none.
fn fails_at_each<R: Threads + Wait + Sync + AllocGlobal + Abort>(
    rt: &R,
    said: &Said,
) -> Result<(), AllocError> {
    for taken in 0..said.says.len() {
        let end = End {
            status: said.fault,
            says: &said.says[..taken],
            taken: taken as u64,
        };
        says_first(rt, said.line, said.events, end)?;
    }
    says_first(rt, said.line, said.events, End::of(said.whole, said.says))
}

/// The words, the events, what is said, and the status where the output fails and where it doesn't.
struct Said {
    line: &'static str,
    events: &'static [u8],
    says: &'static [u8],
    fault: u8,
    whole: u8,
}

const SAID: [Said; 2] = [
    Said {
        line: Q1,
        events: b"x",
        says: b"events line 1: kind\n",
        fault: 3,
        whole: 3,
    },
    Said {
        line: CHECK,
        events: THREE_BIDS,
        says: b"ok 3 events 0 controls\n",
        fault: 7,
        whole: 0,
    },
];

#[test]
fn output_that_fails(rt: HostRuntime) -> Result<(), AllocError> {
    for said in &SAID {
        fails_at_each(&rt, said)?;
    }
    Ok(())
}
