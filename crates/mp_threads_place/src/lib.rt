//! Layer: runs.
//!
//! Where a worker of a job is: on a thread of its own, or with the caller who drives it; and how it comes back from there.
#![tactic(auto)]

mod back;
mod handle;
mod place;
mod start;

pub use back::Marked;
pub use handle::Handle;
pub use place::{Place, Placed, finish, finished, turn_here};
pub use start::settle;
