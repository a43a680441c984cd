//! Layer: the audit of a journal.
//!
//! The lists of a chart that go by groups: the groups that a worker applies, the answer rows that it sends, and the records that a
//! group gives.
#![tactic(auto)]

mod lists;
mod making;
mod moments;

pub use lists::GroupLists;
