//! Layer: a worker.
//!
//! The kind of step in which a worker applies a group, and where what it gives goes.
#![tactic(auto)]

mod applying;
mod onward;

pub use applying::apply;
