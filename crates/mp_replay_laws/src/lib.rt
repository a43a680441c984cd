//! Layer: the audit of a journal.
//!
//! That what the workers of a replay keep is a legal journal.
#![tactic(auto)]

mod laws;

pub use laws::kept_replays_are_legal;
