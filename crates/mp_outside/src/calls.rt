//! The calls of one method of a fake, counted, and the numbers of those that fail.
ghost use Rattle.std.specs.Prelude.{◌≡◌, ◌+◌, ◌-◌, ◌^◌, ◌<◌, true, false, OnErr, OnOk};
ghost use Rattle.mp_outside.specs.Calls.{faults_of, next_fails, no_calls, with_call, with_failure};

use std::alloc::{AllocError, Global};
use std::marker::Model;

/// How many calls of a method were made, and which are to fail.
#[derive(Drop)]
pub struct Calls {
    made: u64,
    failing: Vec<u64>,
}

impl Model for Calls {
    ghost use Rattle.mp_outside.specs.Calls.{CallPlan};

    ghost Value = { CallPlan };

    ghost view = { λ calls. record { made = calls.made; failing = calls.failing.items } };
}

impl Calls {
    /// No call made, and none to fail.
    pub fn new(alloc: Global) -> Calls
        ensures { result ≡ no_calls }
    {
        Calls {
            made: 0,
            failing: Vec::new(alloc),
        }
    }

    /// Makes the call of this number, from 1, fail. One that was made already stays as it was. `AllocError`: no memory, and
    /// nothing changes.
    pub fn fail(&mut self, nth: u64) -> Result<(), AllocError>
        ensures ok { OnOk result (self.new ≡ with_failure self.old nth) }
        ensures unchanged { OnErr result (self.new ≡ self.old) }
        ensures faults { faults_of self.new ≡ faults_of self.old }
    {
        if nth > self.made {
            self.failing.push(nth)?;
        }
        Ok(())
    }

    /// Counts a call, and tells whether it fails. Calls past number 2^64 - 1 aren't told apart, and none of them fails.
    pub fn count(&mut self) -> bool
        ensures fails { result ≡ true → faults_of self.new ≡ faults_of self.old + 1 }
        ensures serves { result ≡ false → faults_of self.new ≡ faults_of self.old }
        ensures planned { result ≡ next_fails self.old }
        ensures counted { self.new ≡ with_call self.old }
    {
        if self.made == u64::MAX {
            return false;
        }
        self.made += 1;
        self.failing.contains(&self.made)
    }
}
