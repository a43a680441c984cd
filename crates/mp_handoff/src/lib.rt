//! Layer: the migrating operator: F and S.
//!
//! The handing off of bins: of a stage, which bins are due to leave a worker, and which times of control records it has
//! settled, since all that it had to hand off then is sent. And how many keys each bin had that left, and what a control record
//! that is taken changes at the counts.
#![tactic(auto)]

mod by_time;
mod changes;
mod laws;
mod movers;
mod sent;

pub use changes::ControlChanges;
pub use laws::movers_stay;
pub use movers::Movers;
pub use sent::{Sent, count_of_keys};
