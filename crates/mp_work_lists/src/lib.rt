//! Layer: the audit of a journal.
//!
//! All work of a job by location and time, from the fields of its outline, and the times of it.
#![tactic(auto)]

mod gathering;
mod parts;
mod times;
mod work_lists;

pub use work_lists::WorkLists;
