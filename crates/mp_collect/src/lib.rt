//! Layer: saved states and restarts.
//!
//! The checkpoint of what all workers have at the end of a job that stops at a time; a job that goes on from it gives the
//! rest of the answer.
#![tactic(auto)]

mod gathered;
mod in_order;
mod laws;
mod whole;

pub use laws::saves_give_the_answer;
pub use whole::collect;
