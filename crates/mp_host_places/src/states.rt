//! Which of the states in hand a bin has at a time, and which wakes they have.
ghost use Rattle.std.specs.Prelude.{◌≡◌, ◌==◌, ◌&&◌, position};
ghost use Rattle.std.specs.List.{list_any};
ghost use Rattle.mp_host_laws.specs.Hosted.{began_before, has_wake_in, is_held_before, is_wake};
ghost use Rattle.mp_host_places.specs.Spans.{IsSpanOf, bins_of};

use crate::spans::Span;
use mp_host_laws::Held;
use mp_model::Time;
use mp_postdated::Wakes;

/// Where the first state of a bin, whose span is this, stands that began before a time.
pub fn place_before<C: Drop>(held: &[Held<C>], span: Span, bin: u32, time: u128) -> Option<usize>
    requires { IsSpanOf span bin (bins_of held.now) }
    ensures { result ≡ position (is_held_before bin time) held.now }
{
    let part = span.among(held.len());
    match first_before(&held[part.from..part.to], bin, time) {
        Some(place) => Some(part.from + place),
        None => None,
    }
}

// The same over all of some states.
fn first_before<C: Drop>(held: &[Held<C>], bin: u32, time: u128) -> Option<usize>
    ensures { result ≡ position (is_held_before bin time) held.now }
{
    held.iter()
        .position(|one| one.bin == bin && began_before(one.since, time))
}

// Whether the packet that brought a state, if one did, is of an earlier time.
fn began_before(since: Option<Time>, time: u128) -> bool
    ensures { result ≡ began_before time since }
{
    match since {
        Some(since) => u128::from(since) < time,
        None => true,
    }
}

/// Whether a state of this bin, whose span is this, has the wake of a key at a time.
pub fn has_wake<C: Drop>(held: &[Held<C>], span: Span, bin: u32, time: Time, key: u64) -> bool
    requires { IsSpanOf span bin (bins_of held.now) }
    ensures { result ≡ list_any (λ s. s.bin == bin && has_wake_in time key s) held.now }
{
    let part = span.among(held.len());
    any_has_wake(&held[part.from..part.to], bin, time, key)
}

// The same over all of some states.
fn any_has_wake<C: Drop>(held: &[Held<C>], bin: u32, time: Time, key: u64) -> bool
    ensures { result ≡ list_any (λ s. s.bin == bin && has_wake_in time key s) held.now }
{
    held.iter().any(|one| has_wake_of(one, bin, time, key))
}

// Whether a state is of this bin and has the wake of a key at a time.
fn has_wake_of<C: Drop>(one: &Held<C>, bin: u32, time: Time, key: u64) -> bool
    ensures { result ≡ (one.now.bin == bin && has_wake_in time key one.now) }
{
    one.bin == bin && is_woken(&one.state.wakes, time, key)
}

/// Whether a key has a wake at a time.
pub fn is_woken(wakes: &Wakes, time: Time, key: u64) -> bool
    ensures { result ≡ list_any (is_wake time key) wakes.now.wakes }
{
    wakes.has(time, key)
}
