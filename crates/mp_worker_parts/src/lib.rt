//! Layer: a worker.
//!
//! The parts of a worker as one value: how they begin and end, what they tell of it, and how it posts its log.
#![tactic(auto)]

mod changes;
mod exchange;
mod known;
mod last;
mod lists;
mod parts;
mod start;

pub use changes::{many_less, many_more, one_less, one_more, push_more};
pub use exchange::Exchanged;
pub use lists::ChangeLists;
pub use mp_tally::Tally;
pub use parts::Parts;
