//! Layer: the protocol, on names.
//!
//! The machine of ten kinds of step, its runs, and what holds in every run: the protocol by which
//! workers route records, hand over bins and apply groups, on names alone.
#![tactic(auto)]

mod examples;
mod ownership;
mod progress;
mod runs;
mod steps;

pub use examples::{
    counts_cancel_in_a_run, handoff_is_gated, opening_wake_is_applied, paced_moves_wait,
    records_travel_together, stops_are_kept,
};
pub use ownership::{
    bins_are_in_one_place, groups_are_applied_once, moves_are_paced, opening_wakes_go_with_bins,
};
pub use progress::{finished_runs_are_full, never_stuck, steps_are_bounded};
pub use runs::{frontiers_go_on, logs_are_always_legal, mail_comes_in_order, runs_continue};
pub use steps::{
    closed_logs_are_full, latest_time_decides, places_are_listed, steps_keep_logs_legal,
    turns_tell_conditions,
};
