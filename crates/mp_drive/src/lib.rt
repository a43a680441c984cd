//! Layer: runs.
//!
//! Whole runs of a job on one thread: each is a run of the machine by the seeded schedule, and what a finished run wrote is
//! the one-thread answer.
#![tactic(auto)]

mod run;
mod states;

pub use mp_schedule::{Draws, Plain, RunPlan, drive_seed};
pub use run::{Replayed, replay, replay_with_tallies};
pub use states::{ReplayedStates, replay_with_states};
