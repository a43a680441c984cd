//! Layer: the queries, and the answer on one thread.
//!
//! Closed auctions: what is kept of an auction until it closes, and the table of a query that makes something of the
//! sales. What it makes of them is a rule, a type with `Sales`.
#![tactic(auto)]

mod bidding;
mod closed;
mod laws;
mod sales;

pub use bidding::{Bidding, Lot};
pub use closed::{AuctionCell, Closed};
pub use laws::{auctions_sell_once, sales_have_keys};
pub use sales::Sales;
