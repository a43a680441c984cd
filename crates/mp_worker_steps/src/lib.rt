//! Layer: a worker.
//!
//! The kinds of step in which a worker takes in its share, settles a time of control records, and writes the answer.
#![tactic(auto)]

mod ingesting;
mod settling;
mod writing;

pub use ingesting::ingest;
pub use settling::settle;
pub use writing::write;
