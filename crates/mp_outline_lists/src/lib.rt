//! Layer: the audit of a journal.
//!
//! The fields of a job's outline as data: its records, its answer rows, its control records with the packets of their moves, and
//! who owns a bin when. A chart is made of these, so nothing of the workers is in it.
//!
//! And lists of names in rank order: any list, and the groups of a stage, also as times and keys.
#![tactic(auto)]

mod by_time;
mod groups;
mod lists;
mod moments;
mod once;
mod packed;
mod rank;
mod sorted;

pub use groups::due_groups;
pub use lists::OutlineLists;
pub use moments::{Moment, moments_at, moments_by_stage};
pub use sorted::{in_order, put_in_order};
