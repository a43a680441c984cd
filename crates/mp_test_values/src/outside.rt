//! Files and output: of the system, and in memory, where calls fail by plan.
ghost use Rattle.std.specs.Prelude.{◌≡◌, ◌≤◌, OnOk};
ghost use Rattle.mp_outside.specs.Files.{with_file};

use mp_buffered::{Buffered, room};
use mp_outside::{
    Depot, Fault, HostDepot, MemDepot, MemSink, NeverFails, Op, ReadRefused, Sink, append_piece,
    read_all, write_piece,
};
use std::alloc::{AllocError, Global};
use std::env::Env;
use std::fs::Files;
use std::path::PathBuf;
use std::process::Abort;
use std::test::Fail;
use std::{env, fs, process};

/// Makes a name with these bytes, by the calls of any depot.
fn make<D: Depot>(depot: &mut D, name: &str, bytes: &[u8]) -> Result<(), Fault>
    ensures { OnOk result (D.files depot.new ≡ with_file (D.files depot.old) name.now bytes.now) }
{
    depot.begin(name)?;
    append_piece(depot, name, bytes)?;
    Ok(())
}

/// Makes a name twice: its bytes are those of the second time.
fn makes_twice<D: Depot>(
    rt: &impl Abort,
    alloc: Global,
    depot: &mut D,
    name: &str,
) -> Result<(), ReadRefused> {
    make(depot, name, b"longer")?;
    make(depot, name, b"xyz")?;
    let read = read_all(alloc, depot, name, 3)?;
    assert!(rt; read.as_slice() == b"xyz".as_slice());
    Ok(())
}

#[test]
fn depots_in_memory(rt: HostRuntime) -> Result<(), ReadRefused> {
    makes_twice(&rt, rt.alloc(), &mut MemDepot::new(rt.alloc()), "made")?;
    makes_twice(&rt, rt.alloc(), &mut NeverFails::new(rt.alloc()), "made")
}

/// A depot with one file, whose first read and third find fail.
fn faulty(alloc: Global) -> Result<MemDepot, AllocError> {
    let mut depot = MemDepot::new(alloc);
    depot.put("abc", b"abc")?;
    depot.fail(Op::Read, 1)?;
    depot.fail(Op::Find, 3)?;
    Ok(depot)
}

/// A name is read with at most so many bytes, or refused for this reason.
fn reads(
    rt: &impl Abort,
    alloc: Global,
    depot: &mut MemDepot,
    name: &str,
    most: u64,
    why: Option<ReadRefused>,
)
    requires { most ≤ 1000 }
{
    let refused = read_all(alloc, depot, name, most).err();
    assert!(rt; refused == why, "{name}, {most}");
}

#[test]
fn files_missing_or_unreadable(rt: HostRuntime) -> Result<(), AllocError> {
    let mut depot = faulty(rt.alloc())?;
    let alloc = rt.alloc();
    reads(&rt, alloc, &mut depot, "abc", 3, Some(ReadRefused::Failed));
    reads(&rt, alloc, &mut depot, "abc", 3, None);
    reads(&rt, alloc, &mut depot, "abc", 3, Some(ReadRefused::Failed));
    reads(
        &rt,
        alloc,
        &mut depot,
        "abc",
        2,
        Some(ReadRefused::TooLarge),
    );
    reads(
        &rt,
        alloc,
        &mut depot,
        "abd",
        3,
        Some(ReadRefused::NotThere),
    );
    Ok(())
}

/// A sink of which one write fails.
fn faulty_sink(alloc: Global, write: u64) -> Result<MemSink, AllocError> {
    let mut sink = MemSink::new(alloc);
    sink.fail(Op::Write, write)?;
    Ok(sink)
}

fn takes<S: Sink>(rt: &impl Abort, sink: &mut S, piece: &[u8], is_taken: bool) {
    assert!(rt; write_piece(sink, piece).is_ok() == is_taken);
}

#[test]
fn sinks_in_memory(rt: HostRuntime) -> Result<(), AllocError> {
    let mut sink = faulty_sink(rt.alloc(), 2)?;
    takes(&rt, &mut sink, b"first", true);
    takes(&rt, &mut sink, b"lost", false);
    takes(&rt, &mut sink, b", last", true);
    assert!(rt; sink.bytes() == b"first, last".as_slice());
    Ok(())
}

/// The pieces, one after the other.
fn joined(alloc: Global, pieces: [&[u8]; 3]) -> Result<Vec<u8>, AllocError> {
    let mut bytes = Vec::new(alloc);
    for piece in pieces {
        bytes.extend_from_slice(piece)?;
    }
    Ok(bytes)
}

/// 4 KiB go straight on, two bytes a write, and the next pieces wait. A long piece hands them on: two bytes are taken, and the
/// write behind these fails, so it is refused.
fn goes_through(rt: &impl Abort, buffered: &mut Buffered<'_, MemSink>, first: &[u8], long: &[u8]) {
    takes(rt, buffered, first, true);
    takes(rt, buffered, b"waits", true);
    takes(rt, buffered, long, false);
    takes(rt, buffered, b", last", true);
    takes(rt, buffered, long, true);
    assert!(rt; buffered.flush().is_ok());
}

fn has_pieces(
    rt: &impl Abort,
    alloc: Global,
    sink: &MemSink,
    pieces: [&[u8]; 3],
) -> Result<(), AllocError> {
    let wanted = joined(alloc, pieces)?;
    assert!(rt; sink.bytes() == wanted.as_slice());
    Ok(())
}

/// All but the refused piece arrive, in order.
fn arrive(rt: &impl Abort, alloc: Global, first: &[u8], long: &[u8]) -> Result<(), AllocError> {
    let mut room = room(alloc)?;
    let mut sink = faulty_sink(alloc, 2_050)?;
    sink.take_at_most(2);
    goes_through(rt, &mut Buffered::new(&mut sink, &mut room), first, long);
    has_pieces(rt, alloc, &sink, [first, b"waits, last", long])
}

#[test]
fn sink_behind_a_buffer(rt: HostRuntime) -> Result<(), AllocError> {
    let first = vec![in rt.alloc(); b'.'; 4_096]?;
    let long = vec![in rt.alloc(); b'-'; 65_537]?;
    arrive(&rt, rt.alloc(), first.as_slice(), long.as_slice())
}

#[test]
fn sink_that_never_fails(rt: HostRuntime) -> Result<(), Fault> {
    let mut never = NeverFails::new(rt.alloc());
    write_piece(&mut never, b"all")?;
    never.put("file", b"bytes")?;
    assert!(rt; never.bytes() == b"all".as_slice());
    assert!(rt; never.get("file").unwrap_or(b"".as_slice()) == b"bytes".as_slice());
    Ok(())
}

fn own_name(alloc: Global, id: u32) -> Result<String, AllocError> {
    format!(in alloc; "mp_outside_{id}")
}

/// A name in the folder for files that may go.
fn own_path<R: Env + AllocGlobal>(rt: &R, own: &str) -> Result<PathBuf, Fail> {
    let mut path = env::temp_dir(rt)?;
    path.push(own)?;
    Ok(path)
}

fn makes_twice_there<R: Files + AllocGlobal + Abort>(
    rt: &R,
    path: &str,
) -> Result<(), ReadRefused> {
    makes_twice(rt, rt.alloc(), &mut HostDepot::new(rt), path)
}

fn has_no_end<R: Files + AllocGlobal + Abort>(rt: &R, path: &str) {
    assert!(rt; HostDepot::new(rt).append(path, b"more").is_err());
}

/// A file of the system is made twice. Once it is gone nothing can be put behind it.
fn comes_and_goes<R: Files + AllocGlobal + Abort>(rt: &R, path: &str) -> Result<(), Fail> {
    makes_twice_there(rt, path)?;
    fs::remove_file(rt, path)?;
    has_no_end(rt, path);
    Ok(())
}

#[test]
fn host_depot(rt: HostRuntime) -> Result<(), Fail> {
    let own = own_name(rt.alloc(), process::id(rt.process()))?;
    let path = own_path(&rt, own.as_str())?;
    comes_and_goes(&rt, path.as_str())
}
