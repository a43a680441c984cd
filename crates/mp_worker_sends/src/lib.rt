//! Layer: a worker.
//!
//! The kinds of step in which a worker sends a message: control records, records, bins and answer rows.
#![tactic(auto)]

mod bins;
mod controls;
mod leaving;
mod push;
mod records;
mod rows;

pub use bins::extract;
pub use controls::send_control;
pub use mp_worker_parts::{Exchanged, Parts, Tally};
pub use records::route;
pub use rows::send_row;
