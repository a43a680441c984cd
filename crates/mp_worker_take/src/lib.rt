//! Layer: a worker.
//!
//! The kind of step in which a worker takes a message: a control record, records, the state of a bin or an answer row.
#![tactic(auto)]

mod receiving;
mod room;
mod take;

pub use receiving::receive;
