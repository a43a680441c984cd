// A sink for those who write nothing.
ghost use Rattle.std.specs.Prelude.{◌≡◌, ◌-◌, ◌^◌, [], Some};
ghost use Rattle.mp_outside.specs.declared.fault.Fault.TheVariants.{Failed};

use crate::{Fault, Sink};

/// A sink for those who write nothing, as every worker but the first. It takes no call: each is
/// answered `Failed`, nothing is ever written, and its count stands at its last value.
#[derive(Clone, Copy, Default)]
pub struct NoSink;

impl Sink for NoSink {
    ghost written = { λ _. Some [] };

    ghost faults = { λ _. 2 ^ 64 - 1 };

    fn write(&mut self, _piece: &[u8]) -> Result<usize, Fault>
        ensures refused { result ≡ Err Failed }
        ensures same { self.new ≡ self.old }
    {
        Err(Fault::Failed)
    }
}
