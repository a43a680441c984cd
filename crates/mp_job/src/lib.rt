//! Layer: a job.
//!
//! A job: a query with its events, its control records and its shape; which records each worker takes in; and the
//! times at which something happens. Nothing here applies a group.
#![tactic(auto)]

mod gather;
mod gathered;
mod inputs;
mod job;
mod records;
mod source;
mod times;

pub use inputs::JobInputs;
pub use job::Job;
pub use mp_model::{Control, Event, First, Query, Rec, Shape, Time};
pub use mp_opening::{Checkpoint, KeyCell, KeyWake};
pub use mp_shares::{put_in_order, shares_hold_each_record_once, times_are_ascending};
