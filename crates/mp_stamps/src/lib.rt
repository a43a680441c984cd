//! Layer: progress.
//!
//! Counts of outstanding work by location and time, the frontiers that they show, and what a worker saw of
//! them.
#![tactic(auto)]

mod counts;
mod flow;
mod frontiers;
mod hints;
mod least;
mod near;
mod piece;
mod pieces;
mod place;
mod reaching;
mod row;
mod seen;
mod span;
mod stamps;

pub use counts::Counts;
pub use frontiers::passed;
pub use hints::Hints;
pub use mp_names::{Frontier, Loc};
pub use place::{loc_at, place_of};
pub use reaching::reaches;
pub use seen::Seen;
pub use stamps::is_stamp;
