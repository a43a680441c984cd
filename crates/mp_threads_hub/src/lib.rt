//! Layer: runs.
//!
//! The board under a lock, and the way to it that each worker has: its seat.
#![tactic(auto)]

mod hub;
mod opening;
mod shared;

pub use hub::SeatHub;
pub use opening::open_hubs;
pub use shared::{PostedRow, Shared};
