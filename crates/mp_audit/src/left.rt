//! What is left of a journal.
ghost use Rattle.std.specs.Prelude.{◌≡◌, ◌<◌, ◌↔◌, IfOk, IsTrue, length, map, slice_get};
ghost use Rattle.mp_journal_laws.specs.Journals.{is_exchange as exchanges, next_version as version_of_next};
ghost use Rattle.mp_journal_laws.specs.Searches.{AllAreTaken};
ghost use Rattle.mp_audit.specs.Lists.{IsAlone, IsLater, list_of, one_taken};

use mp_names::{Kept, Kind};
use std::alloc::{AllocError, Global};
use std::marker::Model;

/// The steps of a journal that are left, by worker. Contracts see a list for each worker.
#[derive(Drop)]
pub struct Left<'a> {
    rest: Vec<&'a [Kept]>,
    // By worker the version of its next exchange.
    nexts: Vec<Option<u64>>,
}

impl<'a> Model for Left<'a> {
    ghost use Rattle.std.specs.Prelude.{◌≡◌, List, map};
    ghost use Rattle.mp_names.specs.declared.kinds.Kept.{Kept};
    ghost use Rattle.mp_journal_laws.specs.Journals.{next_version};

    ghost Value = { List (List Kept) };

    ghost view = { λ l. map (λ s. s.now) l.rest.items };

    ghost invariant = { λ l. l.nexts.items ≡ map next_version (map (λ s. s.now) l.rest.items) };
}

impl<'a> Left<'a> {
    /// All of a journal. `AllocError`: no memory.
    pub fn all(alloc: Global, journal: &'a [Vec<Kept>]) -> Result<Left<'a>, AllocError>
        ensures { IfOk result (λ left. left ≡ map (λ v. v.items) journal.now) }
    {
        let mut rest = Vec::new(alloc);
        let mut nexts = Vec::new(alloc);
        for list in journal {
            rest.push(list.as_slice())?;
            nexts.push(next_version(list.as_slice()))?;
        }
        Ok(Left { rest, nexts })
    }

    /// How many workers there are.
    pub fn workers(&self) -> usize
        ensures { result ≡ length self.now }
    {
        self.rest.len()
    }

    /// How many steps of a worker are left.
    pub fn count(&self, worker: usize) -> usize
        requires { worker < length self.now }
        ensures { result ≡ length (list_of self.now worker) }
    {
        self.rest[worker].len()
    }

    /// The next step of a worker, if one is left.
    pub fn next(&self, worker: usize) -> Option<Kept>
        requires { worker < length self.now }
        ensures { result ≡ slice_get (list_of self.now worker) 0 }
    {
        match self.rest[worker] {
            [step, ..] => Some(*step),
            [] => None,
        }
    }

    /// Takes the next step of a worker.
    pub fn take(&mut self, worker: usize)
        requires worker { worker < length self.old }
        requires some { 0 < length (list_of self.old worker) }
        ensures { self.new ≡ one_taken self.old worker }
    {
        let list = self.rest[worker];
        let rest = &list[1..];
        self.rest[worker] = rest;
        if is_exchange(list[0].kind) {
            self.nexts[worker] = next_version(rest);
        }
    }

    /// Whether each other worker's next exchange carries a later version than this.
    pub fn is_alone(&self, worker: usize, version: u64) -> bool
        ensures { IsTrue result ↔ IsAlone (list_of self.now) worker version }
    {
        for other in 0..self.nexts.len() {
            if other != worker && !is_later(self.nexts[other], version) {
                return false;
            }
        }
        true
    }

    /// Whether no step is left.
    pub fn is_empty(&self) -> bool
        ensures { IsTrue result ↔ AllAreTaken (list_of self.now) }
    {
        for worker in 0..self.rest.len() {
            if !self.rest[worker].is_empty() {
                return false;
            }
        }
        true
    }
}

/// Whether it is an exchange.
pub fn is_exchange(kind: Kind) -> bool
    ensures { result ≡ exchanges kind }
{
    matches!(kind, Kind::Exchange)
}

// The version of the first exchange.
fn next_version(steps: &[Kept]) -> Option<u64>
    ensures { result ≡ version_of_next steps.now }
{
    for step in steps {
        if is_exchange(step.kind) {
            return Some(step.version);
        }
    }
    None
}

// Whether the version of a next exchange, if there is one, is later than this.
fn is_later(next: Option<u64>, version: u64) -> bool
    ensures { IsTrue result ↔ IsLater next version }
{
    match next {
        Some(next) => version < next,
        None => true,
    }
}
