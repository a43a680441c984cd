// A depot and a sink in memory that never fail.
ghost use Rattle.std.specs.Prelude.{◌≡◌, [], Some, None, is_some, option_copied, OnErr, OnOk};
ghost use Rattle.mp_outside.specs.Files.{file_at, with_file};
ghost use Rattle.mp_outside.specs.Memory.{unfailing_files, unfailing_bytes};
ghost use Rattle.mp_outside.specs.Sink.{nothing_beside};

use crate::shelf::Shelf;
use crate::{Depot, Fault, Sink};
use std::alloc::{AllocError, Global};

/// A depot and a sink in memory whose counts of faults are 0 for ever: a call is refused for want of
/// memory alone.
pub struct NeverFails {
    shelf: Shelf,
    bytes: Vec<u8>,
}

// By hand, so that crates above call it and don't write out the drop of each field.
impl Drop for NeverFails {
    fn drop(self) {
        let NeverFails { shelf: _, bytes: _ } = self;
    }
}

impl NeverFails {
    /// No files, and nothing written.
    pub fn new(alloc: Global) -> NeverFails
        ensures files { unfailing_files result ≡ Some (λ _. None) }
        ensures bytes { unfailing_bytes result ≡ [] }
    {
        NeverFails {
            shelf: Shelf::new(alloc),
            bytes: Vec::new(alloc),
        }
    }

    /// Gives the depot a file of this name with these bytes, whether the name was there or not.
    /// `AllocError`: no memory, and the files stay as they were.
    pub fn put(&mut self, name: &str, bytes: &[u8]) -> Result<(), AllocError>
        ensures ok { OnOk result
            (unfailing_files self.new ≡ with_file (unfailing_files self.old) name.now bytes.now) }
        ensures unchanged { OnErr result (unfailing_files self.new ≡ unfailing_files self.old) }
        ensures bytes { unfailing_bytes self.new ≡ unfailing_bytes self.old }
    {
        self.shelf.put(name, bytes)
    }

    /// The bytes of a name, or None where it isn't there.
    pub fn get(&self, name: &str) -> Option<&[u8]>
        ensures { option_copied result ≡ file_at (unfailing_files self.now) name.now }
    {
        self.shelf.get(name)
    }

    /// The bytes written so far.
    pub fn bytes(&self) -> &[u8]
        ensures { result.now ≡ unfailing_bytes self.now }
    {
        self.bytes.as_slice()
    }
}

impl Depot for NeverFails {
    ghost files = { unfailing_files };

    ghost read_faults = { λ _. 0 };

    ghost write_faults = { λ _. 0 };

    ghost frame = { λ outside. Some (unfailing_bytes outside) };

    ghost found = { λ before name there after.
        there ≡ is_some (file_at (unfailing_files before) name) };

    fn find(&mut self, name: &str) -> Result<bool, Fault> {
        Ok(self.shelf.get(name).is_some())
    }

    fn read(&mut self, name: &str, at: u64, into: &mut [u8]) -> Result<usize, Fault> {
        Ok(self.shelf.read(name, at, into))
    }

    fn begin(&mut self, name: &str) -> Result<(), Fault> {
        self.shelf.put(name, &[])?;
        Ok(())
    }

    fn append(&mut self, name: &str, piece: &[u8]) -> Result<usize, Fault> {
        self.shelf.append(name, piece)?;
        Ok(piece.len())
    }
}

impl Sink for NeverFails {
    ghost written = { λ outside. Some (unfailing_bytes outside) };

    ghost faults = { λ _. 0 };

    ghost frame = { λ outside. record nothing_beside { others = unfailing_files outside } };

    #[tactic(auto, unfolding(crate::specs::Sink::grown))]
    fn write(&mut self, piece: &[u8]) -> Result<usize, Fault> {
        self.bytes.extend_from_slice(piece)?;
        Ok(piece.len())
    }
}
