//! Layer: a worker.
//!
//! One worker of a running dataflow: how it begins, the ten kinds of step that it makes, each as the machine has it, and what
//! it tells of itself.
#![tactic(auto)]

mod exchange;
mod finished;
mod keeping;
mod kinds;
mod known;
mod last;
mod plan;
mod start;
mod step;
mod tally;
mod worker;
mod workers;

pub use kinds::{count_of_kinds, kind_at};
pub use last::last_states;
pub use mp_turns::{Stop, Turn};
pub use plan::RunPlan;
pub use worker::Worker;
pub use workers::new_workers;
