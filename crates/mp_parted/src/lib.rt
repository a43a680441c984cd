//! Layer: the audit of a journal.
//!
//! Names of a job's outline, by the worker that sends them or that owns the group: with their time and their receiver, as the lists
//! of a chart hold them.
#![tactic(auto)]

mod edges;
mod parting;

pub use edges::{entry_of, owner_of, receiver_of, sender_of, time_of};
pub use parting::{By, parted};
