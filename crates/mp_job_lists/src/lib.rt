//! Layer: the audit of a journal.
//!
//! The fields of the outline of a real job as data. The job is folded once, stage by stage, and all but the names is dropped.
#![tactic(auto)]

mod answer;
mod fold;
mod lists;
mod names;
mod posts;

pub use lists::JobLists;
