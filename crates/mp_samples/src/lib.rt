//! Layer: tests.
//!
//! A query, events, jobs and a bin's state for tests: bids that wake the keys of their auctions, and jobs of a few of them.
#![tactic(auto)]

mod bids;
mod events;
mod jobs;
mod states;

pub use bids::{AnsweringBids, SampleBids, StarvedBids, WakingBids, fields_of};
pub use events::{bid_at, bids_at, controls_at, event_at, events_of, record_of_bid, to_worker_two};
pub use jobs::{THREE_WORKERS, job_of_bids, job_of_events, one_move, starved_job};
pub use states::state_of_bin;
