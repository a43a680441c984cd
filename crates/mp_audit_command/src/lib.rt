//! Layer: the command.
//!
//! The command `audit`: whether a journal is that of a run that writes an answer.
#![tactic(auto)]

mod auditing;
mod judging;
mod reading;

pub use auditing::audit;
