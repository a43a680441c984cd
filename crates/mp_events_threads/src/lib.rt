//! Layer: a job.
//!
//! An event file that is read in pieces, each on a thread of its own where one can be made.
//!
//! There is at most one piece for each 65,536 bytes, so a small file is read on the thread of the caller. Where a file is cut changes
//! neither its events nor why it is refused.
#![tactic(auto)]

mod parts;
mod reading;

pub use reading::OnThreads;
