//! Layer: runs.
//!
//! A worker with its ends of the mailboxes and its way to the board: what one thread has of a running dataflow, and how
//! it drives that.
#![tactic(auto)]

mod drive;
mod member;
mod pause;
mod step;

pub use drive::Round;
pub use member::Member;
pub use mp_worker::{RunPlan, Stop, Worker, last_states, new_workers};
pub use pause::Pause;
