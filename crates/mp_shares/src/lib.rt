//! Layer: a job.
//!
//! Which records each worker takes in, and the times at which something happens, as both are gathered from the events and the
//! control records of a job.
#![tactic(auto)]

mod laws;
mod posted;
mod shares;
mod times;

pub use laws::{shares_hold_each_record_once, times_are_ascending};
pub use mp_model::{Control, Query, Time};
pub use posted::{Posted, add_posts};
pub use shares::{Share, add_index, empty_shares};
pub use times::{add_control_times, add_first_of, add_time, before, put_in_order, since};
