//! Layer: runs.
//!
//! The workers of a job as a crew: made for threads, and what they tell once they are finished.
#![tactic(auto)]

mod crew;
mod states;
mod tallies;

pub use crew::Crew;
pub use states::{EndedStates, states_told_by};
pub use tallies::{Ended, told_by};
