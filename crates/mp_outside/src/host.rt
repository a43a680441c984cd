// The edge to the system: files by their paths, and standard output. What these hold isn't told; the
// answers of the system are trusted, and each of its errors is counted.
ghost use Rattle.std.specs.Prelude.{◌≡◌, ◌<◌, ◌≤◌, ⊤, None, length, IfOk};
ghost use Rattle.mp_outside.specs.Fault.{Rose};
ghost use Rattle.mp_outside.specs.declared.fault.Fault.TheVariants.{Failed, NoMemory};

use crate::{Depot, Fault, Sink};
use std::fs::{self, OpenOptions};
use std::io::{self, ErrorKind, Read, Seek, SeekFrom, Write};
use std::rt::Files;

/// The files of the system, by their paths. Each error of the system is answered `Failed`, but that
/// `find` answers false where the system says that there is no such file, and that want of memory is
/// `NoMemory`. The file that was read last and the one that was appended to last are kept open, until
/// the next `find` or `begin`.
#[derive(Drop)]
pub struct HostDepot<'a, R: Files + AllocGlobal> {
    rt: &'a R,
    reading: Option<KeptOpen<R::File>>,
    appending: Option<KeptOpen<R::File>>,
    read_faults: u64,
    write_faults: u64,
}

// A file that is kept open, and the name that it was opened by.
#[derive(Drop)]
struct KeptOpen<F> {
    name: String,
    file: F,
}

impl<'a, R: Files + AllocGlobal> HostDepot<'a, R> {
    /// The files that this runtime reaches.
    pub fn new(rt: &'a R) -> HostDepot<'a, R>
        ensures reads { ⟦<HostDepot<'a, R> as Depot>⟧.read_faults result ≡ 0 }
        ensures writes { ⟦<HostDepot<'a, R> as Depot>⟧.write_faults result ≡ 0 }
    {
        HostDepot {
            rt,
            reading: None,
            appending: None,
            read_faults: 0,
            write_faults: 0,
        }
    }
}

// What an error of the system is answered. A failure is counted, as far as the count goes.
fn refused(error: io::Error, faults: &mut u64) -> Fault
    ensures failed { result ≡ Failed → Rose faults.old faults.new }
    ensures memory { result ≡ NoMemory → faults.new ≡ faults.old }
    ensures never_falls { faults.old ≤ faults.new }
{
    if error.kind() == ErrorKind::OutOfMemory {
        return Fault::NoMemory;
    }
    *faults = faults.saturating_add(1);
    Fault::Failed
}

// The file of this name: the one that was kept open, if it is that, or else opened so.
fn opened<R: Files + AllocGlobal>(
    rt: &R,
    kept: Option<KeptOpen<R::File>>,
    name: &str,
    options: &OpenOptions,
) -> io::Result<KeptOpen<R::File>> {
    match kept {
        Some(kept) if kept.name.as_str() == name => Ok(kept),
        _ => Ok(KeptOpen {
            name: String::from_str(rt.alloc(), name)?,
            file: options.open(rt, name)?,
        }),
    }
}

// A file that failed isn't kept open.
fn read_at<R: Files + AllocGlobal>(
    rt: &R,
    kept: &mut Option<KeptOpen<R::File>>,
    name: &str,
    at: u64,
    into: &mut [u8],
) -> io::Result<usize>
    ensures { IfOk result (λ n. n ≤ length into.old) }
{
    let mut reading = opened(rt, kept.take(), name, OpenOptions::new().read(true))?;
    reading.file.seek(SeekFrom::Start(at))?;
    let taken = reading.file.read(into)?;
    *kept = Some(reading);
    Ok(taken)
}

// What takes nothing of a piece that isn't empty has failed.
fn write_some<W: Write>(to: &mut W, piece: &[u8]) -> io::Result<usize>
    ensures within { IfOk result (λ n. n ≤ length piece.now) }
    ensures some { IfOk result (λ n. 0 < length piece.now → 0 < n) }
{
    let taken = to.write(piece)?;
    if taken == 0 && !piece.is_empty() {
        return Err(ErrorKind::WriteZero.into());
    }
    Ok(taken)
}

fn create<R: Files>(rt: &R, name: &str) -> io::Result<()> {
    fs::create(rt, name)?;
    Ok(())
}

// A file that failed isn't kept open.
fn append_some<R: Files + AllocGlobal>(
    rt: &R,
    kept: &mut Option<KeptOpen<R::File>>,
    name: &str,
    piece: &[u8],
) -> io::Result<usize>
    ensures within { IfOk result (λ n. n ≤ length piece.now) }
    ensures some { IfOk result (λ n. 0 < length piece.now → 0 < n) }
{
    let mut appending = opened(rt, kept.take(), name, OpenOptions::new().append(true))?;
    let taken = write_some(&mut appending.file, piece)?;
    *kept = Some(appending);
    Ok(taken)
}

impl<'a, R: Files + AllocGlobal> Depot for HostDepot<'a, R> {
    ghost files = { λ _. None };

    ghost read_faults = { λ depot. depot.read_faults };

    ghost write_faults = { λ depot. depot.write_faults };

    ghost found = { λ before name there after. ⊤ };

    fn find(&mut self, name: &str) -> Result<bool, Fault> {
        self.reading = None;
        self.appending = None;
        match fs::metadata(self.rt, name) {
            Ok(_) => Ok(true),
            Err(error) if error.kind() == ErrorKind::NotFound => Ok(false),
            Err(error) => Err(refused(error, &mut self.read_faults)),
        }
    }

    fn read(&mut self, name: &str, at: u64, into: &mut [u8]) -> Result<usize, Fault> {
        match read_at(self.rt, &mut self.reading, name, at, into) {
            Ok(read) => Ok(read),
            Err(error) => Err(refused(error, &mut self.read_faults)),
        }
    }

    #[tactic(auto, unfolding(crate::specs::Files::with_file))]
    fn begin(&mut self, name: &str) -> Result<(), Fault> {
        self.reading = None;
        self.appending = None;
        match create(self.rt, name) {
            Ok(()) => Ok(()),
            Err(error) => Err(refused(error, &mut self.write_faults)),
        }
    }

    #[tactic(auto, unfolding(crate::specs::Files::with_more))]
    fn append(&mut self, name: &str, piece: &[u8]) -> Result<usize, Fault> {
        match append_some(self.rt, &mut self.appending, name, piece) {
            Ok(taken) => Ok(taken),
            Err(error) => Err(refused(error, &mut self.write_faults)),
        }
    }
}

/// Standard output. Each error of the system is answered `Failed`, but want of memory.
#[derive(Drop)]
pub struct HostOut<'a, R: Print> {
    rt: &'a R,
    faults: u64,
}

impl<'a, R: Print> HostOut<'a, R> {
    /// The output that this runtime prints to.
    pub fn new(rt: &'a R) -> HostOut<'a, R>
        ensures { ⟦<HostOut<'a, R> as Sink>⟧.faults result ≡ 0 }
    {
        HostOut { rt, faults: 0 }
    }
}

impl<'a, R: Print> Sink for HostOut<'a, R> {
    ghost written = { λ _. None };

    ghost faults = { λ out. out.faults };

    #[tactic(auto, unfolding(crate::specs::Sink::grown))]
    fn write(&mut self, piece: &[u8]) -> Result<usize, Fault> {
        match write_some(&mut io::writer(self.rt), piece) {
            Ok(taken) => Ok(taken),
            Err(error) => Err(refused(error, &mut self.faults)),
        }
    }
}
