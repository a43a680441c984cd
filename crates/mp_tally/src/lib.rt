//! Layer: a worker.
//!
//! What a worker tells of what it has done: its tally, and what that is once the worker has done all.
#![tactic(auto)]

mod tally;

pub use tally::{Moved, Tally, moved_so_far};
