// A sink in memory, whose writes can be told to fail.
ghost use Rattle.std.specs.Prelude.{◌≡◌, ◌≢◌, ◌-◌, ◌^◌, ◌<◌, ◌≤◌, [], Some, length, min, take, IfOk, OnErr, OnOk};
ghost use Rattle.mp_outside.specs.Calls.{no_calls, with_failure};
ghost use Rattle.mp_outside.specs.Failures.{MakesCall};
ghost use Rattle.mp_outside.specs.Fault.{HasCause};
ghost use Rattle.mp_outside.specs.Memory.{sink_bytes, sink_calls, sink_faults, sink_portion};
ghost use Rattle.mp_outside.specs.Sink.{grown};
ghost use Rattle.mp_outside.specs.declared.op.Op.{Op as Method};
ghost use Rattle.mp_outside.specs.declared.op.Op.TheVariants.{Write};

use crate::failures::Failures;
use crate::portion::Portion;
use crate::{Fault, Op, Sink};
use std::alloc::{AllocError, Global};

/// A sink in memory. It tells its bytes, takes a whole piece at once unless it was told to take less, and fails
/// only where it was told to.
pub struct MemSink {
    bytes: Vec<u8>,
    failures: Failures,
    portion: Portion,
}

// By hand, so that crates above call it and don't write out the drop of each field.
impl Drop for MemSink {
    fn drop(self) {
        let MemSink {
            bytes: _,
            failures: _,
            portion: _,
        } = self;
    }
}

impl MemSink {
    /// A sink to which nothing was written, none of whose calls fails or takes less than it is asked for.
    pub fn new(alloc: Global) -> MemSink
        ensures bytes { sink_bytes result ≡ [] }
        ensures calls { (op : Method) → sink_calls result op ≡ no_calls }
        ensures portion { sink_portion result ≡ 2 ^ 64 - 1 }
    {
        MemSink {
            bytes: Vec::new(alloc),
            failures: Failures::new(alloc),
            portion: Portion::whole(),
        }
    }

    /// The bytes written so far.
    pub fn bytes(&self) -> &[u8]
        ensures { result.now ≡ sink_bytes self.now }
    {
        self.bytes.as_slice()
    }

    /// Makes the nth call of this method fail with `Failed`. Calls are counted from 1, from the
    /// first that was ever made of that method on this sink; one that was made already stays as it
    /// was. Several may be told to fail. A sink has the method `Write` alone.
    /// `AllocError`: no memory, and nothing changes.
    pub fn fail(&mut self, op: Op, nth: u64) -> Result<(), AllocError>
        ensures planned { OnOk result
            (sink_calls self.new op ≡ with_failure (sink_calls self.old op) nth) }
        ensures others { (other : Method) → other ≢ op →
            sink_calls self.new other ≡ sink_calls self.old other }
        ensures unchanged { OnErr result (sink_calls self.new op ≡ sink_calls self.old op) }

        ensures bytes { sink_bytes self.new ≡ sink_bytes self.old }
        ensures writes { sink_faults self.new ≡ sink_faults self.old }
        ensures portion { sink_portion self.new ≡ sink_portion self.old }
    {
        self.failures.fail(op, nth)
    }

    /// Makes each `write` take at most so many bytes from here on.
    pub fn take_at_most(&mut self, most: u64)
        requires { 0 < most }
        ensures portion { sink_portion self.new ≡ most }
        ensures bytes { sink_bytes self.new ≡ sink_bytes self.old }
        ensures calls { (op : Method) → sink_calls self.new op ≡ sink_calls self.old op }
    {
        self.portion = Portion::at_most(most);
    }
}

impl Sink for MemSink {
    ghost written = { λ sink. Some (sink_bytes sink) };

    ghost faults = { sink_faults };

    #[tactic(auto, unfolding(crate::specs::Sink::grown))]
    fn write(&mut self, piece: &[u8]) -> Result<usize, Fault>
        ensures planned { MakesCall (sink_calls self.old) (sink_calls self.new) Write result }
        ensures same_portion { sink_portion self.new ≡ sink_portion self.old }
        ensures taken { IfOk result (λ n. n ≡ min (length piece.now) (sink_portion self.old)) }
        ensures within { IfOk result (λ n. n ≤ length piece.now) }
        ensures some { IfOk result (λ n. 0 < length piece.now → 0 < n) }
        ensures grew { IfOk result (λ n.
            Some (sink_bytes self.new) ≡ grown (Some (sink_bytes self.old)) (take n piece.now)) }
        ensures unchanged { OnErr result (sink_bytes self.new ≡ sink_bytes self.old) }
        ensures faults_grow { sink_faults self.old ≤ sink_faults self.new }
        ensures cause { HasCause (sink_faults self.old) (sink_faults self.new) result }
    {
        if self.failures.write.count() {
            return Err(Fault::Failed);
        }
        let part = self.portion.of(piece.len());
        self.bytes.extend_from_slice(&piece[..part])?;
        Ok(part)
    }
}
