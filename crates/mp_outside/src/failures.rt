//! Which calls of a fake fail, for each of its methods.
ghost use Rattle.std.specs.Prelude.{◌≡◌, ◌≢◌, OnErr, OnOk};
ghost use Rattle.mp_outside.specs.Calls.{faults_of, no_calls, with_failure};
ghost use Rattle.mp_outside.specs.Failures.{calls_for};
ghost use Rattle.mp_outside.specs.declared.op.Op.{Op as Method};

use crate::Op;
use crate::calls::Calls;
use std::alloc::{AllocError, Global};

/// The calls of each method of a fake.
#[derive(Drop)]
pub struct Failures {
    /// Of `Depot::find`.
    pub find: Calls,
    /// Of `Depot::read`.
    pub read: Calls,
    /// Of `Depot::begin`.
    pub begin: Calls,
    /// Of `Depot::append`.
    pub append: Calls,
    /// Of `Sink::write`.
    pub write: Calls,
}

impl Failures {
    /// No call made, and none to fail.
    pub fn new(alloc: Global) -> Failures
        ensures { (op : Method) → calls_for result op ≡ no_calls }
    {
        Failures {
            find: Calls::new(alloc),
            read: Calls::new(alloc),
            begin: Calls::new(alloc),
            append: Calls::new(alloc),
            write: Calls::new(alloc),
        }
    }

    /// Makes the nth call of the method, from 1, fail, if it has yet to come. `AllocError`: no memory, and nothing changes.
    pub fn fail(&mut self, op: Op, nth: u64) -> Result<(), AllocError>
        ensures planned { OnOk result (calls_for self.new op ≡ with_failure (calls_for self.old op) nth) }
        ensures others { (other : Method) → other ≢ op →
            calls_for self.new other ≡ calls_for self.old other }
        ensures unchanged { OnErr result (calls_for self.new op ≡ calls_for self.old op) }
        ensures faults { (any : Method) →
            faults_of (calls_for self.new any) ≡ faults_of (calls_for self.old any) }
    {
        match op {
            Op::Find => self.find.fail(nth),
            Op::Read => self.read.fail(nth),
            Op::Begin => self.begin.fail(nth),
            Op::Append => self.append.fail(nth),
            Op::Write => self.write.fail(nth),
        }
    }
}
