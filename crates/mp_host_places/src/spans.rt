//! Where the states of each bin stand: a span of places for each, so that no walk has to go over all states.
ghost use Rattle.std.specs.Prelude.{◌≡◌, ◌≢◌, ◌≤◌, ◌<◌, ◌+◌, ◌++◌, ◌∷◌, [], ℕ, All, IfOk, List, Some, drop, length, slice_get, slice_index_or};
ghost use Rattle.mp_host_places.specs.Spans.{AreSpans, IsSpanOf, bins_of, nowhere, without};

use mp_host_laws::Held;
use std::alloc::{AllocError, Global};
use std::marker::Model;

/// The places from `from` on, and before `to`.
#[derive(Drop, Clone, Copy)]
pub struct Span {
    /// From 0.
    pub from: usize,
    /// No place where it is no greater than `from`.
    pub to: usize,
}

impl Span {
    /// Its part among so many places: a range of them.
    pub fn among(self, count: usize) -> Span
        ensures from { result.from ≤ result.to }
        ensures to { result.to ≤ count }
        ensures same { (b : ℕ) (bins : List ℕ) → length bins ≡ count → IsSpanOf self b bins → IsSpanOf result b bins }
    {
        let to = self.to.min(count);
        Span {
            from: self.from.min(to),
            to,
        }
    }

    /// The span as it is counted from a place on.
    pub fn behind(self, place: usize) -> Span
        ensures { (b : ℕ) (bins : List ℕ) → IsSpanOf self b bins → IsSpanOf result b (drop place bins) }
    {
        Span {
            from: self.from.saturating_sub(place),
            to: self.to.saturating_sub(place),
        }
    }

    // The span without a place, where that is at an end of it.
    fn narrowed(self, place: usize) -> Span
        ensures { (p : ℕ) → p ≢ place → self.from ≤ p → p < self.to → (result.from ≤ p) × (p < result.to) }
    {
        if place < self.from || self.to <= place {
            self
        } else if self.from == place {
            Span {
                from: place + 1,
                to: self.to,
            }
        } else if self.to - 1 == place {
            Span {
                from: self.from,
                to: place,
            }
        } else {
            self
        }
    }

    // The span with a place.
    fn widened(self, place: usize) -> Span
        requires { place < usize.MAX }
        ensures place { (result.from ≤ place) × (place < result.to) }
        ensures others { (p : ℕ) → self.from ≤ p → p < self.to → (result.from ≤ p) × (p < result.to) }
    {
        if self.from < self.to {
            Span {
                from: self.from.min(place),
                to: self.to.max(place + 1),
            }
        } else {
            Span {
                from: place,
                to: place + 1,
            }
        }
    }
}

/// A span for each bin. Contracts see the list of them.
#[derive(Drop)]
pub struct Spans {
    spans: Vec<Span>,
}

impl Model for Spans {
    ghost use Rattle.std.specs.Prelude.{List};
    ghost use Rattle.mp_host_places.specs.declared.spans.Span.{Span};

    ghost Value = { List Span };

    ghost view = { λ s. s.spans.items };
}

impl Spans {
    // Spans without places, of so many bins. `AllocError`: no memory.
    fn empty(alloc: Global, bins: u32) -> Result<Spans, AllocError>
        ensures { IfOk result (λ s. length s ≡ bins) }
    {
        let mut spans = Vec::new(alloc);
        for _bin in 0..bins {
            spans.push(Span { from: 0, to: 0 })?;
        }
        Ok(Spans { spans })
    }

    /// The span of a bin, which has no places where there is none.
    pub fn of(&self, bin: u32) -> Span
        ensures { result ≡ slice_index_or self.now bin nowhere }
    {
        match self.spans.get(bin as usize) {
            Some(span) => *span,
            None => Span { from: 0, to: 0 },
        }
    }

    /// Counts a place of a bin, behind all others.
    pub fn widen(&mut self, bin: u32, place: usize)
        requires bin { bin < length self.old }
        requires place { place < usize.MAX }
        ensures spans { (bins : List ℕ) → length bins ≡ place → AreSpans self.old bins → AreSpans self.new (bins ++ bin ∷ []) }
        ensures length { length self.new ≡ length self.old }
    {
        let span = self.spans[bin as usize].widened(place);
        self.spans[bin as usize] = span;
    }

    /// Forgets a place of the bin `out`, which the last of all places, of the bin `moved`, takes.
    pub fn fill(&mut self, place: usize, out: u32, last: usize, moved: u32)
        requires bins { (out < length self.old) × (moved < length self.old) }
        requires places { (place ≤ last) × (last < usize.MAX) }
        ensures spans { (bins : List ℕ) → length bins ≡ last + 1 → slice_get bins place ≡ Some out → slice_get bins last ≡ Some moved
            → AreSpans self.old bins → AreSpans self.new (without place bins) }
        ensures length { length self.new ≡ length self.old }
    {
        let span = self.spans[out as usize].narrowed(place);
        self.spans[out as usize] = span;
        if place < last {
            let span = self.spans[moved as usize].narrowed(last).widened(place);
            self.spans[moved as usize] = span;
        }
    }
}

/// The spans of the bins of states, all below a number. `AllocError`: no memory.
pub fn spans_of<C: Drop>(alloc: Global, bins: u32, held: &[Held<C>]) -> Result<Spans, AllocError>
    requires { All (λ s. s.bin < bins) held.now }
    ensures spans { IfOk result (λ s. AreSpans s (bins_of held.now)) }
    ensures length { IfOk result (λ s. length s ≡ bins) }
{
    let mut spans = Spans::empty(alloc, bins)?;
    for (at, one) in held.iter().enumerate() {
        spans.widen(one.bin, at);
    }
    Ok(spans)
}
