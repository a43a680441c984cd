//! Files in memory.
ghost use Rattle.std.specs.Prelude.{◌≡◌, ◌≤◌, ◌<◌, [], Some, None, length, take, drop, is_some, option_copied, IfOk, IfSome, OnErr, OnOk};
ghost use Rattle.mp_outside.specs.Files.{file_at, IsThere, with_file, with_more};
ghost use Rattle.mp_outside.specs.Shelf.{files_on};

use std::alloc::{AllocError, Global};
use std::collections::BTreeMap;

/// Files in memory, by name.
#[derive(Drop)]
pub struct Shelf {
    alloc: Global,
    files: BTreeMap<String, Vec<u8>>,
}

impl Shelf {
    /// No files.
    pub fn new(alloc: Global) -> Shelf
        ensures { files_on result ≡ Some (λ _. None) }
    {
        Shelf {
            alloc,
            files: BTreeMap::new(alloc),
        }
    }

    /// Gives the file of this name these bytes, whether it was there or not. `AllocError`: no memory, and the files stay as
    /// they were.
    pub fn put(&mut self, name: &str, bytes: &[u8]) -> Result<(), AllocError>
        ensures ok { OnOk result
            (files_on self.new ≡ with_file (files_on self.old) name.now bytes.now) }
        ensures unchanged { OnErr result (files_on self.new ≡ files_on self.old) }
    {
        let held = bytes.to_vec(self.alloc)?;
        self.files
            .insert(String::from_str(self.alloc, name)?, held)?;
        Ok(())
    }

    /// The bytes of the file of this name; `None` exactly where it isn't there.
    pub fn get(&self, name: &str) -> Option<&[u8]>
        ensures { option_copied result ≡ file_at (files_on self.now) name.now }
    {
        self.files.get(name).map(|bytes| bytes.as_slice())
    }

    /// Puts what the file has from byte `at` on into the front of `into`, as much as there is room for, and answers how many
    /// bytes that is.
    pub fn read(&self, name: &str, at: u64, into: &mut [u8]) -> usize
        requires { IsThere (files_on self.now) name.now }
        ensures within { result ≤ length into.old }
        ensures next { IfSome (file_at (files_on self.now) name.now)
            (λ bytes. take result into.new ≡ take result (drop at bytes)) }
        ensures end { result ≡ 0 → 0 < length into.old →
            IfSome (file_at (files_on self.now) name.now) (λ bytes. length bytes ≤ at) }
    {
        let bytes = self.get(name).unwrap_or(&[]);
        let rest = bytes.get(at as usize..).unwrap_or(&[]);
        let taken = rest.len().min(into.len());
        into[..taken].copy_from_slice(&rest[..taken]);
        taken
    }

    /// Adds these bytes at the end of the file of this name. `AllocError`: no memory, and the files stay as they were.
    pub fn append(&mut self, name: &str, piece: &[u8]) -> Result<(), AllocError>
        requires { IsThere (files_on self.old) name.now }
        ensures ok { OnOk result
            (files_on self.new ≡ with_more (files_on self.old) name.now piece.now) }
        ensures unchanged { OnErr result (files_on self.new ≡ files_on self.old) }
    {
        if let Some(bytes) = self.files.get_mut(name) {
            bytes.extend_from_slice(piece)?;
        }
        Ok(())
    }
}
