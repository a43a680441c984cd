//! Layer: the migrating operator: F and S.
//!
//! What a host holds by its worker's log, and what becomes of it: definitions and their laws.
#![tactic(auto)]

mod held;
mod last;
mod laws;

pub use held::Held;
pub use last::last_states_are_held;
pub use laws::{
    bins_leave, groups_are_held, hosts_begin_with_the_opening, packets_are_held, records_are_held,
    waiting_groups_are_told,
};
