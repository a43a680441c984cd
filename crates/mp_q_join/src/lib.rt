//! Layer: the queries, and the answer on one thread.
//!
//! The queries that join persons with their auctions: q3, the auctions of sellers of three states, and q8, the persons
//! who sell on the day on which they came.
#![tactic(auto)]

mod home;
mod joining;
mod keys;
mod names;
mod q3;
mod q8;
mod selling;

pub use home::Home;
pub use joining::Joining;
pub use q3::Q3;
pub use q8::Q8;
pub use selling::Selling;
