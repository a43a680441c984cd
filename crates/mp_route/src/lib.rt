//! Layer: the migrating operator: F and S.
//!
//! The routing half of a stage: a worker keeps the records that the stage is given until they are free to go, which
//! they are once every control record that decides who owns them has come.
#![tactic(auto)]

mod along;
mod by_tag;
mod laws;
mod router;

pub use laws::held_records_are_counted;
pub use router::Router;
