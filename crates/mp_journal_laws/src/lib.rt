//! Layer: the laws of journals.
//!
//! What a journal of steps is, when its workers' steps merge into one run of the machine, and that a search which takes any step
//! that may be taken finds such a merge exactly where there is one. And what workers keep of the steps of a run: that it merges
//! into that run, and what it tells of a worker's log.
#![tactic(auto)]

mod examples;
mod kept;
mod merges;

pub use examples::recorded_run_is_legal;
pub use kept::{finished_runs_are_legal, full_logs_are_told, kept_grow};
pub use merges::{any_step_serves, merges_end_alike, searches_decide, some_step_may_be_taken};
