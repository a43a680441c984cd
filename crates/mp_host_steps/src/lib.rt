//! Layer: the migrating operator: F and S.
//!
//! The smallest steps of a host: whether all that a group waits for has come, which wakes a bin begins with and a group
//! leaves, and how the state of a bin is taken out of those in hand.
#![tactic(auto)]

mod arriving;
mod taking;
mod wakes;

pub use arriving::all_has_come;
pub use mp_host_laws::Held;
pub use mp_model::{Group, Time};
pub use mp_postdated::Wakes;
pub use mp_stamps::Seen;
pub use taking::take_out;
pub use wakes::{changes_wakes, make_room_for, step_wakes, wakes_of};
