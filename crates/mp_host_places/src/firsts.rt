//! The first wakes of bins, each kept as the states of its bin change.
ghost use Rattle.std.specs.Prelude.{◌≡◌, ◌≢◌, ◌<◌, ℕ, false, IfOk, List, length};
ghost use Rattle.mp_host_laws.specs.declared.held.Held.{Held as HeldOf};
ghost use Rattle.mp_host_laws.specs.Hosted.{first_wake_of};
ghost use Rattle.mp_host_places.specs.FirstWakes.{AreFirsts, of_bin};
ghost use Rattle.mp_host_places.specs.Spans.{AreSpans, IsSpanOf, bins_of};

use crate::spans::{Span, Spans};
use mp_host_laws::Held;
use mp_model::Time;
use mp_tournament::{Firsts, earlier_of};
use std::alloc::{AllocError, Global};

/// The first wakes of states, of so many bins. Takes n log n comparisons of n bins where each has one state. `AllocError`:
/// no memory.
pub fn firsts_of<C: Drop>(
    alloc: Global,
    bins: u32,
    held: &[Held<C>],
    spans: &Spans,
) -> Result<Firsts, AllocError>
    requires some { 0 < bins }
    requires spans { AreSpans spans.now (bins_of held.now) }
    ensures { IfOk result (λ firsts. AreFirsts bins firsts held.now) }
{
    let mut firsts = Firsts::new(alloc, bins as usize)?;
    for bin in 0..bins {
        firsts.set(bin as usize, first_wake(held, spans.of(bin), bin));
    }
    Ok(firsts)
}

/// Brings the first wake of a bin in line with the states in hand; those of the others are as they were.
pub fn renew<C: Drop>(firsts: &mut Firsts, held: &[Held<C>], spans: &Spans, bin: u32)
    requires spans { AreSpans spans.now (bins_of held.now) }
    requires bin { bin < length firsts.old }
    ensures { (bins : ℕ) (was : List (HeldOf C)) → AreFirsts bins firsts.old was
        → ((b : ℕ) → b ≢ bin → first_wake_of (of_bin b held.now) ≡ first_wake_of (of_bin b was)) → AreFirsts bins firsts.new held.now }
{
    firsts.set(bin as usize, first_wake(held, spans.of(bin), bin));
}

/// The same where the wakes of the bin's states may have changed; else its first wake is as it was too.
pub fn renew_where<C: Drop>(
    changes: bool,
    firsts: &mut Firsts,
    held: &[Held<C>],
    spans: &Spans,
    bin: u32,
)
    requires spans { AreSpans spans.now (bins_of held.now) }
    requires bin { bin < length firsts.old }
    ensures { (bins : ℕ) (was : List (HeldOf C)) → AreFirsts bins firsts.old was
        → ((b : ℕ) → (b ≡ bin → changes ≡ false) → first_wake_of (of_bin b held.now) ≡ first_wake_of (of_bin b was)) → AreFirsts bins firsts.new held.now }
{
    if changes {
        renew(firsts, held, spans, bin);
    }
}

// The first wake, by time and then by key, of the states of a bin whose span is this.
fn first_wake<C: Drop>(held: &[Held<C>], span: Span, bin: u32) -> Option<(Time, u64)>
    requires { IsSpanOf span bin (bins_of held.now) }
    ensures { result ≡ first_wake_of (of_bin bin held.now) }
{
    let part = span.among(held.len());
    first_of_bin(&held[part.from..part.to], bin)
}

// The same over all of some states.
fn first_of_bin<C: Drop>(held: &[Held<C>], bin: u32) -> Option<(Time, u64)>
    ensures { result ≡ first_wake_of (of_bin bin held.now) }
{
    let mut first = None;
    for one in held {
        if one.bin == bin {
            first = earlier_of(first, one.state.wakes.least());
        }
    }
    first
}
