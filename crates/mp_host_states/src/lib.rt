//! Layer: the migrating operator: F and S.
//!
//! The states of bins that a host has in hand, each found by its bin, what a bin begins with, and how the step of a group
//! changes one.
#![tactic(auto)]

mod cells;
mod in_hand;
mod numbers;
mod opening;
mod posts;
mod stepping;

pub use in_hand::{InHand, most_of_group, step_group};
pub use mp_host_laws::Held;
pub use mp_host_places::earlier_of;
pub use mp_host_steps::{Seen, all_has_come};
pub use mp_model::{Group, Query, Rec, Time, Value};
pub use numbers::add_one;
pub use opening::opening_state;
pub use posts::{add_posts, count_posts};
