//! Layer: between workers: mailboxes and the lock.
//!
//! A lock round one value that has a row for each seat: a seat changes its own row alone.
#![tactic(auto)]

mod lock;
mod rows;
mod rule;
mod seat;
mod view;

pub use lock::SeatLock;
pub use rows::Rows;
pub use seat::Seat;
