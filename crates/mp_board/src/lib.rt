//! Layer: progress.
//!
//! The board on which the workers post their logs, and what it tells each of them of all.
#![tactic(auto)]

mod board;
mod causes;
mod hub;
mod opening;
mod passing;
mod totals;

pub use board::Board;
pub use causes::{Answer, Cause, HubStop};
pub use hub::Hub;
pub use mp_rows::{Change, Job, Loc, Log, Name, Naming, OutlineOf, Outlined, Query, Time};
pub use mp_stamps::{Frontier, Seen};
