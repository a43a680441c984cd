//! Layer: tests.
//!
//! Tests of what workers share: mailboxes, on one thread and between threads, the seat lock, and how they stop.
//!
//! A module tests the crate of its name. The tests stand here and not in their crates, so that each of those is proved once.
#![tactic(auto)]

#[cfg(test)]
mod mailbox;
#[cfg(test)]
mod thread_examples;
#[cfg(test)]
mod threads;
