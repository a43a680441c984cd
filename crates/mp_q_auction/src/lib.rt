//! Layer: the queries, and the answer on one thread.
//!
//! The queries on closed auctions: q4, the average price of each category, and q6, the average of the last prices of
//! each seller.
#![tactic(auto)]

mod q4;
mod q6;

pub use mp_auctions::{
    AuctionCell, Bidding, Closed, Lot, Sales, auctions_sell_once, sales_have_keys,
};
pub use q4::{AllPrices, Prices, Q4};
pub use q6::{LastPrices, Latest, Q6};
