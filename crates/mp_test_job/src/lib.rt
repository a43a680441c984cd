//! Layer: tests.
//!
//! Tests of files and draws, of queries and of jobs. They stand here and not in the crates that they test, so that each of those is
//! proved once. A module tests the crate of its name; `pieces` tests mp_events_threads, `answers` mp_fold, `stops` mp_job.
//!
//! Files and draws: what the command doesn't show of files and words. Event files that are read in pieces on threads, the texts of
//! refusals, and the draws. What the command answers to files and words stands in examples/cases.toml.
//!
//! Queries: the answer on one thread. The queries' and the pipelines' worked examples, and the texts of rows, cells and checkpoints,
//! stand in examples/cases.toml.
//!
//! Jobs: a job, its outline, the log of a worker, the board and messages, on the queries and jobs of `mp_samples`. What an audit says
//! of journals stands in examples/cases.toml.
#![tactic(auto)]

#[cfg(test)]
mod answers;
#[cfg(test)]
mod board;
#[cfg(test)]
mod draws;
#[cfg(test)]
mod events;
#[cfg(test)]
mod job;
#[cfg(test)]
mod msg;
#[cfg(test)]
mod outline;
#[cfg(test)]
mod pieces;
#[cfg(test)]
mod rows;
#[cfg(test)]
mod stops;
#[cfg(test)]
mod words;
