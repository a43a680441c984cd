//! Layer: the migrating operator: F and S.
//!
//! The hosting half of a stage, as in Megaphone: it keeps the cells of keys, the records whose group waits and the wakes,
//! and applies each group once all that belongs to it has come.
#![tactic(auto)]

mod applied;
mod applying;
mod counting;
mod groups;
mod host;
mod moving;
mod order;
mod reading;
mod ready;
mod receiving;
mod waiting;

pub use applied::Applied;
pub use host::Host;
pub use mp_bins::Owners;
pub use mp_host_laws::Held;
pub use mp_job::Job;
pub use mp_model::{Naming, Query, Rec, Time, Value};
pub use mp_stamps::Seen;
pub use ready::ReadyGroup;
