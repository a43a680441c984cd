//! Where counts other than 0 stand.
ghost use Rattle.std.specs.Prelude.{◌≡◌, ◌<◌, ◌+◌, ◌-◌, ◌^◌, max, min};

/// The index of the first count other than 0, or the number of counts, and an index from which on there is none.
#[derive(Clone, Copy)]
pub(crate) struct Span {
    pub(crate) first: usize,
    pub(crate) end: usize,
}

/// The span of so many counts that are all 0.
pub(crate) fn no_span(counts: usize) -> Span
    ensures first { result.first ≡ counts }
    ensures end { result.end ≡ 0 }
{
    Span {
        first: counts,
        end: 0,
    }
}

/// The span, once the count at an index is other than 0.
pub(crate) fn span_with(span: Span, index: usize) -> Span
    requires { index < 2 ^ 64 - 1 }
    ensures first { result.first ≡ min span.first index }
    ensures end { result.end ≡ max span.end (index + 1) }
{
    Span {
        first: span.first.min(index),
        end: span.end.max(index + 1),
    }
}
