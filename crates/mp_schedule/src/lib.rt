//! Layer: runs.
//!
//! Workers driven on one thread by the seeded schedule, until each of them knows that all is over.
#![tactic(auto)]

mod seed;

pub use mp_draws::Draws;
pub use mp_plain::{Plain, RunPlan, Tally};
pub use seed::drive_seed;
