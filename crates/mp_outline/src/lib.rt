//! Layer: a job.
//!
//! The outline of a job: what the protocol is told of a query, its events and its control records. It is proved
//! sound, so all that is proved of the protocol over names holds for every legal job of a query.
#![tactic(auto)]

mod laws;

pub use laws::{
    groups_are_on_timelines, groups_hold_names, names_tell_records, outlines_are_sound,
};
