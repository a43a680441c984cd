//! Layer: a worker.
//!
//! That what worker 0 writes, one time after the other, is the one-thread answer.
#![tactic(auto)]

mod laws;

pub use laws::{answers_go_by_times, lines_follow_steps};
