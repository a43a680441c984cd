//! Layer: progress.
//!
//! The log of one worker, with what it adds to the counts of outstanding work. Its names stand in proofs alone.
#![tactic(auto)]

mod lists;
mod log;
mod name_list;
mod names;
mod netting;
mod new_names;
mod opening;
mod outlined;
mod waking;

pub use lists::LogList;
pub use log::Log;
pub use mp_job::{Job, Query, Time};
pub use mp_model::Naming;
pub use mp_names::{Change, Loc, Name, Pointstamp};
pub use new_names::NewNames;
pub use opening::opening_entries;
pub use outlined::{OutlineOf, Outlined};
