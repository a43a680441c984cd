//! Layer: the queries, and the answer on one thread.
//!
//! The queries on windows of time: q5, the auctions with the most bids in each window, and q7, the best bid of each
//! window.
#![tactic(auto)]

mod best;
mod counts;
mod laws;
mod outputs;
mod q5;
mod q7;
mod recent;
mod windows;

pub use best::{Best, Offer};
pub use laws::counts_have_keys;
pub use q5::Q5;
pub use q7::Q7;
pub use recent::Recent;
