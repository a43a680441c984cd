//! Layer: a job.
//!
//! Who owns the bins of a job when, and which of them move: all its control records noted.
#![tactic(auto)]

mod owners;

pub use owners::{moves_of, owners_of};
