//! Layer: a worker.
//!
//! What contracts see of workers, of what their mailboxes stand for, and of workers that take turns; and that what a worker
//! says of its steps makes a run of the machine.
#![tactic(auto)]

mod laws;

pub use laws::{ends_are_known, openings_are_told, steps_are_turns, workers_begin_together};
