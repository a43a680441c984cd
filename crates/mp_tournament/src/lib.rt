//! Layer: the migrating operator: F and S.
//!
//! The first of many wakes, kept while they change.
#![tactic(auto)]

mod firsts;

pub use firsts::{Firsts, earlier_of};
pub use mp_model::Time;
