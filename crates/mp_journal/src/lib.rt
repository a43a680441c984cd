//! Layer: the audit of a journal.
//!
//! The journal of a run as a file: a line for each step that a worker kept, worker by worker, and the steps from such lines.
//!
//! A line is `s`, the worker and the letter of the kind of step, and behind some letters a number: the stage, the sending worker
//! or the version. Fields are checked from left to right, and the first check that fails is the reason why a file is refused. The
//! lines, their limits and the order of the checks are this project's profile.
#![tactic(auto)]

mod letters;
mod line;
mod reading;
mod refused;
mod writing;

pub use mp_names::{Kept, Shape};
pub use reading::read_journal;
pub use refused::{JournalReason, JournalRefused};
pub use writing::write_step;
