//! Layer: a worker.
//!
//! Which control record worker 0 sends next: in list order, or paced, so that the moves of a time are over before those of
//! the next time begin.
#![tactic(auto)]

mod controller;
mod cursor;
mod order;
mod pace;

pub use controller::Controller;
