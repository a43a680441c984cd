//! Layer: text, files and collections.
//!
//! Items kept in the order of their ranks.
#![tactic(auto)]

mod among;
mod block;
mod blocks;
mod cut;
mod front;
mod hinted;
mod order;
mod row;
mod search;

pub use blocks::OrderedBlocks;
pub use cut::Cut;
pub use hinted::Spot;
pub use order::Order;
pub use search::place_of;
