//! What the tests share: a depot and a gate that see what workers do, and a call of the command.
ghost use Rattle.std.specs.Prelude.{⊤};
ghost use Rattle.mp_outside.specs.Memory.{depot_files, depot_read_faults, depot_write_faults};

use mp_cli::run;
use mp_gate::{Gate, Kind};
use mp_meet::Meet;
use mp_outside::{Depot, Fault, MemDepot, MemSink, Op};
use std::alloc::{AllocError, Global};
use std::process::Abort;
use std::sync::Wait;
use std::sync::atomic::{AtomicBool, Ordering};
use std::thread;
use std::thread::Threads;

/// How often worker 2 asks at most whether an append failed.
const TURNS: u32 = 1_000_000;

/// What a gate and a depot have seen.
#[derive(Drop)]
pub struct Seen {
    /// Worker 1 passed the gate with Apply.
    pub first_applies: AtomicBool,
    /// Worker 2 did.
    pub second_applies: AtomicBool,
    /// The last pass of worker 0 was with Write.
    writes: AtomicBool,
    /// An append to the answer came while it wasn't.
    pub strayed: AtomicBool,
    /// The last append failed.
    failed: AtomicBool,
    /// Worker 2 waited for that in vain.
    pub missed: AtomicBool,
}

impl Seen {
    /// Nothing is seen yet.
    pub fn nothing() -> Seen {
        Seen {
            first_applies: AtomicBool::new(false),
            second_applies: AtomicBool::new(false),
            writes: AtomicBool::new(false),
            strayed: AtomicBool::new(false),
            failed: AtomicBool::new(false),
            missed: AtomicBool::new(false),
        }
    }

    /// A worker passes the gate.
    fn note(&self, worker: u32, kind: Kind) {
        match (worker, kind) {
            (0, _) => self.writes.store(kind == Kind::Write, Ordering::SeqCst),
            (1, Kind::Apply(_)) => self.first_applies.store(true, Ordering::SeqCst),
            (2, Kind::Apply(_)) => self.second_applies.store(true, Ordering::SeqCst),
            _ => {}
        }
    }

    /// Waits until an append has failed, but only once in vain.
    fn await_failure(&self) {
        if self.missed.load(Ordering::SeqCst) {
            return;
        }
        for _ in 0..TURNS {
            if self.failed.load(Ordering::SeqCst) {
                return;
            }
            thread::yield_now();
        }
        self.missed.store(true, Ordering::SeqCst);
    }
}

/// Whom a gate holds back.
#[derive(Clone, Copy)]
pub enum Holds<'s> {
    Nobody,
    /// Worker 2, until an append has failed.
    Second,
    /// Two workers, until they meet.
    Two(&'s Meet),
}

/// A gate that tells who passes it, and holds workers back.
#[derive(Drop)]
struct SeeingGate<'s> {
    seen: &'s Seen,
    holds: Holds<'s>,
}

impl<'s> Gate for SeeingGate<'s> {
    fn pass(&self, worker: u32, kind: Kind) {
        self.seen.note(worker, kind);
        match self.holds {
            Holds::Nobody => {}
            Holds::Second => {
                if worker == 2 {
                    self.seen.await_failure();
                }
            }
            Holds::Two(meet) => meet.pass(worker, kind),
        }
    }
}

/// A depot in memory that tells of appends. It is lent both, so that nothing is let go with it.
#[derive(Drop)]
struct SeeingDepot<'s> {
    memory: &'s mut MemDepot,
    seen: &'s Seen,
}

impl<'s> Depot for SeeingDepot<'s> {
    ghost files = { λ d. depot_files d.memory.now };

    ghost read_faults = { λ d. depot_read_faults d.memory.now };

    ghost write_faults = { λ d. depot_write_faults d.memory.now };

    ghost found = { λ before name there after. ⊤ };

    fn find(&mut self, name: &str) -> Result<bool, Fault> {
        self.memory.find(name)
    }

    fn read(&mut self, name: &str, at: u64, into: &mut [u8]) -> Result<usize, Fault> {
        self.memory.read(name, at, into)
    }

    fn begin(&mut self, name: &str) -> Result<(), Fault> {
        self.memory.begin(name)
    }

    fn append(&mut self, name: &str, piece: &[u8]) -> Result<usize, Fault> {
        if name == "o" && !self.seen.writes.load(Ordering::SeqCst) {
            self.seen.strayed.store(true, Ordering::SeqCst);
        }
        let took = self.memory.append(name, piece);
        self.seen.failed.store(took.is_err(), Ordering::SeqCst);
        took
    }
}

/// An event file `e` and an empty configuration `c`.
fn put_files(memory: &mut MemDepot, events: &[u8]) -> Result<(), AllocError> {
    memory.put("e", events)?;
    memory.put("c", b"")
}

/// A depot with an event file `e` and an empty configuration `c`.
pub fn files(alloc: Global, events: &[u8]) -> Result<MemDepot, AllocError> {
    let mut memory = MemDepot::new(alloc);
    put_files(&mut memory, events)?;
    Ok(memory)
}

/// Such a depot, where one call fails.
pub fn failing_files(
    alloc: Global,
    events: &[u8],
    op: Op,
    nth: u64,
) -> Result<MemDepot, AllocError> {
    let mut memory = files(alloc, events)?;
    memory.fail(op, nth)?;
    Ok(memory)
}

fn push(alloc: Global, words: &mut Vec<String>, word: &str) -> Result<(), AllocError> {
    let word = String::from_str(alloc, word)?;
    words.push(word)?;
    Ok(())
}

/// The words of a line, cut at blanks.
fn cut(alloc: Global, line: &str) -> Result<Vec<String>, AllocError> {
    let mut words = Vec::new(alloc);
    for word in line.split(' ') {
        push(alloc, &mut words, word)?;
    }
    Ok(words)
}

/// Does what the words say on the files of a depot, with a gate: the status. One kind of depot and one of gate serve all tests, so
/// that the command is compiled once.
fn code_of<R: Threads + Wait + Sync + AllocGlobal>(
    rt: &R,
    memory: &mut MemDepot,
    seen: &Seen,
    said: &mut MemSink,
    words: &[String],
    holds: Holds<'_>,
) -> u8 {
    let gate = SeeingGate { seen, holds };
    let mut depot = SeeingDepot { memory, seen };
    run(rt, words, &mut depot, said, &gate).code
}

/// How a command ends: the status, and what it says, by an output that takes so many bytes one by one and then fails.
#[derive(Clone, Copy)]
pub struct End<'a> {
    pub status: u8,
    pub says: &'a [u8],
    pub taken: u64,
}

impl<'a> End<'a> {
    /// With an output that doesn't fail.
    pub fn of(status: u8, says: &'a [u8]) -> End<'a> {
        End {
            status,
            says,
            taken: u64::MAX,
        }
    }
}

/// Does what a line says on the files of a depot, with a gate, and compares its end.
pub fn ends<R: Threads + Wait + Sync + AllocGlobal + Abort>(
    rt: &R,
    memory: &mut MemDepot,
    seen: &Seen,
    line: &str,
    holds: Holds<'_>,
    end: End<'_>,
) -> Result<(), AllocError> {
    let words = cut(rt.alloc(), line)?;
    let mut said = output(rt.alloc(), end.taken)?;
    let code = code_of(rt, memory, seen, &mut said, words.as_slice(), holds);
    assert!(rt; code == end.status && said.bytes() == end.says, "{line}");
    Ok(())
}

/// The same, where nobody is held back, and nobody looks at what is seen.
pub fn just_ends<R: Threads + Wait + Sync + AllocGlobal + Abort>(
    rt: &R,
    memory: &mut MemDepot,
    line: &str,
    end: End<'_>,
) -> Result<(), AllocError> {
    let seen = Seen::nothing();
    ends(rt, memory, &seen, line, Holds::Nobody, end)
}

/// An output that takes so many bytes one by one and then fails.
fn output(alloc: Global, taken: u64) -> Result<MemSink, AllocError> {
    let mut said = MemSink::new(alloc);
    said.take_at_most(1);
    said.fail(Op::Write, taken.saturating_add(1))?;
    Ok(said)
}
