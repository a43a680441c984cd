//! Layer: text, files and collections.
//!
//! Draws from a seed: a schedule and made events take their choices from them.
#![tactic(auto)]

mod draws;

pub use draws::Draws;
