//! Layer: the protocol, on names.
//!
//! The theory at the bottom of the protocol: the names of a job's things, the outline of a job, the
//! logs of its workers, what their counts tell, and the theorem that frontiers are exact. It knows no
//! query, no cell and no value.
#![tactic(auto)]

mod controls;
mod kinds;
mod laws;
/// The limits of this version.
pub mod limits;
mod locations;
mod names;
mod pointstamps;

pub use controls::{Control, First, Move, Shape};
pub use kinds::{Kept, Kind};
pub use laws::{
    counts_may_cancel, frontiers_are_exact, least_group_is_whole, locations_reach_along_paths,
    logs_stay_legal, moves_hold_frontiers_back, names_are_counted, opening_wakes_are_in_hand,
    owners_follow_controls, sound_outlines_are_there, work_is_listed,
};
pub use locations::{Frontier, Loc};
pub use names::{Name, Tag};
pub use pointstamps::{Change, ControlCursor, Count, Pointstamp, TimedBin};

/// A time of an event, in the units of the event file.
pub type Time = u64;
