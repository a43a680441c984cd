//! Layer: a worker.
//!
//! What a step of a worker answers, what the worker keeps of the steps that it made, and whether all that it saw has ended.
#![tactic(auto)]

mod finished;
mod keeping;
mod turn;

pub use finished::all_have_ended;
pub use keeping::{keep, kept_at_first};
pub use turn::{Stop, Turn, turn_of};
