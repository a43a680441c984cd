//! Layer: tests.
//!
//! Tests of whole runs: workers driven on one thread, step by step and by the seeded schedule, and paced ones: when their control
//! records go out, and how many packets are on their way at once. What they answer stands in examples/cases.toml.
#![tactic(auto)]

#[cfg(test)]
mod bundles;
#[cfg(test)]
mod handing;
#[cfg(test)]
mod jobs;
#[cfg(test)]
mod packets;
#[cfg(test)]
mod refused;
#[cfg(test)]
mod schedule;
#[cfg(test)]
mod script;
#[cfg(test)]
mod sends;
#[cfg(test)]
mod worked;
