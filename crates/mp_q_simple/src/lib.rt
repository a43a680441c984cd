//! Layer: the queries, and the answer on one thread.
//!
//! The queries that keep nothing of a key: q1, each bid with its price in euros, and q2, the bids on the
//! multiples of a number.
#![tactic(auto)]

mod bids;
mod q1;
mod q2;

pub use bids::{Bids, Nothing, RowOf};
pub use q1::{InEuros, Q1};
pub use q2::{OnMultiples, Q2};
