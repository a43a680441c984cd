//! Layer: the migrating operator: F and S.
//!
//! Post-dated wakes: at which times which keys are to be woken, as Megaphone's post-dated records.
#![tactic(auto)]

mod live;
mod queue;
mod wakes;

pub use mp_model::Time;
pub use wakes::Wakes;
