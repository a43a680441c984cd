//! Layer: runs.
//!
//! The workers of a job on one thread, with their board and the mailboxes between them: how they begin, the steps that they
//! make one by one, and what they keep and tell.
#![tactic(auto)]

mod journals;
mod list;
mod ownership;
mod pacing;
mod places;
mod plain;
mod tallies;
mod trying;

pub use mp_tally::Tally;
pub use mp_worker::{RunPlan, Turn, kind_at};
pub use places::{Place, count_of_places, place_after, place_at};
pub use plain::Plain;
