//! What a seat knows.
use std::collections::LinkedList;

/// How many seats there are, the rows that the seat owns as they were put last, which are those from
/// the place `first` on, the version that it has seen, and while it holds the value all rows as it took
/// them. No value of it is made.
pub struct SeatView<R> {
    /// How many seats there are.
    pub seats: u64,
    /// The first row that the seat owns.
    pub first: u64,
    /// Its rows as they were put last.
    pub own: LinkedList<R>,
    /// The version that it has seen.
    pub version: u64,
    /// While it holds the value, all rows as it took them.
    pub taken: Option<LinkedList<R>>,
}
