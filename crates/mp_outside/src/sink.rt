// A place that bytes are written to: what it means, and what a write does to that.
ghost use Rattle.std.specs.Prelude.{◌≡◌, ◌≤◌, ◌<◌, ℕ, List, Option, length, take, IfOk, OnErr};
ghost use Rattle.mp_outside.specs.Fault.{HasCause};
ghost use Rattle.mp_outside.specs.Sink.{Beside, OnlyAppends, nothing_beside, grown};

use crate::Fault;

/// A place that bytes are written to. Contracts see the bytes written so far, where the sink tells
/// them, and a count of faults. `Failed` comes only where the count rose in the call or stands at its
/// last value, 2^64 - 1; any other answer counts no fault. A call that is refused, for that or for an
/// allocation failure, writes nothing.
pub trait Sink {
    /// The bytes written so far. None where the sink doesn't tell, as the system's output.
    ghost written: { Self → Option (List ℕ) };

    /// How often a `write` has failed.
    ghost faults: { Self → ℕ };

    /// What else is known of the sink, none of which a write changes: for a depot's name seen as a
    /// sink the depot's other files.
    ghost frame: { Self → Beside } = { λ _. nothing_beside };

    /// Writes a part of the piece, from its front, and answers its length: at least one byte of a
    /// piece that isn't empty.
    fn write(&mut self, piece: &[u8]) -> Result<usize, Fault>
        ensures within { IfOk result (λ n. n ≤ length piece.now) }
        ensures some { IfOk result (λ n. 0 < length piece.now → 0 < n) }
        ensures grew { IfOk result (λ n. written self.new ≡ grown (written self.old) (take n piece.now)) }
        ensures unchanged { OnErr result (written self.new ≡ written self.old) }

        ensures appends_only { OnlyAppends frame faults self.old self.new }
        ensures cause { HasCause (faults self.old) (faults self.new) result };
}
