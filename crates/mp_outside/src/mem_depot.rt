// A depot in memory, whose calls can be told to fail.
ghost use Rattle.std.specs.Prelude.{◌≡◌, ◌≢◌, ◌+◌, ◌-◌, ◌^◌, ◌<◌, ◌≤◌, [], Some, None, is_some, option_copied, length, min, take, drop, IfOk, IfSome, OnErr, OnOk};
ghost use Rattle.mp_outside.specs.Calls.{faults_of, no_calls, with_failure};
ghost use Rattle.mp_outside.specs.Depot.{OnlyReads, OnlyWrites};
ghost use Rattle.mp_outside.specs.Failures.{MakesCall};
ghost use Rattle.mp_outside.specs.Fault.{HasCause};
ghost use Rattle.mp_outside.specs.declared.op.Op.TheVariants.{Find, Read, Begin, Append};
ghost use Rattle.mp_outside.specs.Files.{IsThere, file_at, with_file, with_more};
ghost use Rattle.mp_outside.specs.Memory.{depot_files, depot_calls, depot_portion, depot_read_faults, depot_write_faults};
ghost use Rattle.mp_outside.specs.declared.op.Op.{Op as Method};

use crate::failures::Failures;
use crate::portion::Portion;
use crate::shelf::Shelf;
use crate::{Depot, Fault, Op};
use std::alloc::{AllocError, Global};

/// A depot in memory. It tells its files, gives and takes all that it is asked for at once unless it was told to
/// take less, and fails only where it was told to.
pub struct MemDepot {
    shelf: Shelf,
    failures: Failures,
    portion: Portion,
}

// By hand, so that crates above call it and don't write out the drop of each field.
impl Drop for MemDepot {
    fn drop(self) {
        let MemDepot {
            shelf: _,
            failures: _,
            portion: _,
        } = self;
    }
}

impl MemDepot {
    /// A depot with no files, none of whose calls fails or takes less than it is asked for.
    pub fn new(alloc: Global) -> MemDepot
        ensures files { depot_files result ≡ Some (λ _. None) }
        ensures calls { (op : Method) → depot_calls result op ≡ no_calls }
        ensures portion { depot_portion result ≡ 2 ^ 64 - 1 }
    {
        MemDepot {
            shelf: Shelf::new(alloc),
            failures: Failures::new(alloc),
            portion: Portion::whole(),
        }
    }

    /// Gives the depot a file of this name with these bytes, whether the name was there or not. It
    /// is no call of `begin` or `append`. `AllocError`: no memory, and the depot stays as it was.
    pub fn put(&mut self, name: &str, bytes: &[u8]) -> Result<(), AllocError>
        ensures ok { OnOk result
            (depot_files self.new ≡ with_file (depot_files self.old) name.now bytes.now) }
        ensures unchanged { OnErr result (depot_files self.new ≡ depot_files self.old) }
        ensures calls { (op : Method) → depot_calls self.new op ≡ depot_calls self.old op }
        ensures portion { depot_portion self.new ≡ depot_portion self.old }
    {
        self.shelf.put(name, bytes)
    }

    /// The bytes of a name, or None where it isn't there.
    pub fn get(&self, name: &str) -> Option<&[u8]>
        ensures { option_copied result ≡ file_at (depot_files self.now) name.now }
    {
        self.shelf.get(name)
    }

    /// Makes the nth call of this method fail with `Failed`. Calls are counted from 1, from the
    /// first that was ever made of that method on this depot; one that was made already stays as it
    /// was. Several may be told to fail. `AllocError`: no memory, and nothing changes.
    pub fn fail(&mut self, op: Op, nth: u64) -> Result<(), AllocError>
        ensures planned { OnOk result
            (depot_calls self.new op ≡ with_failure (depot_calls self.old op) nth) }
        ensures others { (other : Method) → other ≢ op →
            depot_calls self.new other ≡ depot_calls self.old other }
        ensures unchanged { OnErr result (depot_calls self.new op ≡ depot_calls self.old op) }

        ensures files { depot_files self.new ≡ depot_files self.old }
        ensures reads { depot_read_faults self.new ≡ depot_read_faults self.old }
        ensures writes { depot_write_faults self.new ≡ depot_write_faults self.old }
        ensures portion { depot_portion self.new ≡ depot_portion self.old }
    {
        self.failures.fail(op, nth)
    }

    /// Makes each `read` give and each `append` take at most so many bytes from here on.
    pub fn take_at_most(&mut self, most: u64)
        requires { 0 < most }
        ensures portion { depot_portion self.new ≡ most }
        ensures files { depot_files self.new ≡ depot_files self.old }
        ensures calls { (op : Method) → depot_calls self.new op ≡ depot_calls self.old op }
    {
        self.portion = Portion::at_most(most);
    }
}

impl Depot for MemDepot {
    ghost files = { depot_files };

    ghost read_faults = { depot_read_faults };

    ghost write_faults = { depot_write_faults };

    ghost found = { λ before name there after.
        there ≡ is_some (file_at (depot_files before) name) };

    fn find(&mut self, name: &str) -> Result<bool, Fault>
        ensures planned { MakesCall (depot_calls self.old) (depot_calls self.new) Find result }
        ensures same_portion { depot_portion self.new ≡ depot_portion self.old }
        ensures found { IfOk result (λ there. there ≡ is_some (file_at (depot_files self.old) name.now)) }
        ensures reads_only { OnlyReads depot_files depot_read_faults depot_write_faults self.old self.new }
        ensures cause { HasCause (depot_read_faults self.old) (depot_read_faults self.new) result }
    {
        if self.failures.find.count() {
            return Err(Fault::Failed);
        }
        Ok(self.shelf.get(name).is_some())
    }

    fn read(&mut self, name: &str, at: u64, into: &mut [u8]) -> Result<usize, Fault>
        requires { IsThere (depot_files self.old) name.now }
        ensures planned { MakesCall (depot_calls self.old) (depot_calls self.new) Read result }
        ensures same_portion { depot_portion self.new ≡ depot_portion self.old }
        ensures portion { IfOk result (λ n. n ≤ depot_portion self.old) }
        ensures within { IfOk result (λ n. n ≤ length into.old) }
        ensures next { IfOk result (λ n. IfSome (file_at (depot_files self.old) name.now)
            (λ bytes. take n into.new ≡ take n (drop at bytes))) }
        ensures end { IfOk result (λ n. n ≡ 0 → 0 < length into.old →
            IfSome (file_at (depot_files self.old) name.now) (λ bytes. length bytes ≤ at)) }
        ensures reads_only { OnlyReads depot_files depot_read_faults depot_write_faults self.old self.new }
        ensures cause { HasCause (depot_read_faults self.old) (depot_read_faults self.new) result }
    {
        if self.failures.read.count() {
            return Err(Fault::Failed);
        }
        let part = self.portion.of(into.len());
        Ok(self.shelf.read(name, at, &mut into[..part]))
    }

    fn begin(&mut self, name: &str) -> Result<(), Fault>
        ensures planned { MakesCall (depot_calls self.old) (depot_calls self.new) Begin result }
        ensures same_portion { depot_portion self.new ≡ depot_portion self.old }
        ensures begun { OnOk result (depot_files self.new ≡ with_file (depot_files self.old) name.now []) }
        ensures unchanged { OnErr result (depot_files self.new ≡ depot_files self.old) }
        ensures writes_only { OnlyWrites depot_read_faults depot_write_faults self.old self.new }
        ensures cause { HasCause (depot_write_faults self.old) (depot_write_faults self.new) result }
    {
        if self.failures.begin.count() {
            return Err(Fault::Failed);
        }
        self.shelf.put(name, &[])?;
        Ok(())
    }

    fn append(&mut self, name: &str, piece: &[u8]) -> Result<usize, Fault>
        requires { IsThere (depot_files self.old) name.now }
        ensures planned { MakesCall (depot_calls self.old) (depot_calls self.new) Append result }
        ensures same_portion { depot_portion self.new ≡ depot_portion self.old }
        ensures taken { IfOk result (λ n. n ≡ min (length piece.now) (depot_portion self.old)) }
        ensures within { IfOk result (λ n. n ≤ length piece.now) }
        ensures some { IfOk result (λ n. 0 < length piece.now → 0 < n) }
        ensures appended { IfOk result (λ n.
            depot_files self.new ≡ with_more (depot_files self.old) name.now (take n piece.now)) }
        ensures unchanged { OnErr result (depot_files self.new ≡ depot_files self.old) }
        ensures writes_only { OnlyWrites depot_read_faults depot_write_faults self.old self.new }
        ensures cause { HasCause (depot_write_faults self.old) (depot_write_faults self.new) result }
    {
        if self.failures.append.count() {
            return Err(Fault::Failed);
        }
        let part = self.portion.of(piece.len());
        self.shelf.append(name, &piece[..part])?;
        Ok(part)
    }
}
