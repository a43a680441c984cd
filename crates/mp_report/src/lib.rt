//! Layer: runs.
//!
//! The report of a job: its moves, each with how many keys moved, and how many groups each worker owns. It is the same
//! whatever the schedule was. And the journal of a run: the steps that its workers kept.
#![tactic(auto)]

mod journal;
mod laws;
mod lines;
mod told;
mod writing;

pub use journal::write_journal;
pub use laws::reports_are_one;
pub use writing::write_report;
