//! Layer: progress.
//!
//! Laws alone: what each step of a worker adds to the counts of outstanding work, for names: the changes that a name
//! brings at the end of a log's list.
#![tactic(auto)]

mod laws;

pub use laws::{
    a_step_is_there, applied_groups_are_counted, bundles_are_counted, controls_are_counted,
    ingested_events_are_counted, moved_groups_are_numbered, packets_are_counted,
    records_are_counted, rows_are_counted, times_are_counted,
};
