//! Layer: the audit of a journal.
//!
//! What the workers of a job do with their steps that take in, send control records and packets, settle and write: by worker and
//! kind, in order; and what a control record of a paced job waits for.
#![tactic(auto)]

mod controls;
mod packets;
mod step_lists;
mod times;

pub use step_lists::StepLists;
