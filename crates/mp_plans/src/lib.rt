//! Layer: a job.
//!
//! Plans of migration: control records that hand the bins of a stage on, all at one time, one after the other, or in batches
//! (Megaphone's all-at-once, fluid and batched plans), or the bins of one worker to the others. Which records a plan appends is
//! this project's profile.
#![tactic(auto)]

mod drains;
mod pace;
mod plans;
mod refused;

pub use drains::{drain, owned_bins};
pub use mp_names::{Control, Shape, Time};
pub use plans::{all_at_once, batched, fluid};
pub use refused::PlanRefused;
