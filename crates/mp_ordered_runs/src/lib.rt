//! Layer: text, files and collections.
//!
//! Items kept in the order of their ranks, the first ones of a kind together.
#![tactic(auto)]

mod place;
mod runs;

pub use runs::{Kinds, OrderedRuns};
