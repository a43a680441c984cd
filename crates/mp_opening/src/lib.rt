//! Layer: a job.
//!
//! The checkpoint that a job goes on from, so that the cells and wakes of each bin are found without a look at the others.
#![tactic(auto)]

mod checkpoint;
mod opening;
mod places;
mod wakes;

pub use checkpoint::{Checkpoint, KeyCell, KeyWake};
pub use mp_layout::FirstOwners;
pub use mp_model::{Query, Time};
pub use opening::Opening;
