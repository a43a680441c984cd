//! Layer: tests.
//!
//! Tests of the values of a dataflow, of what they are kept in, and of the outside: files, sinks and texts.
//!
//! A module tests the crate of its name. The tests stand here and not in their crates, so that each of those is proved once.
#![tactic(auto)]

#[cfg(test)]
mod bins;
#[cfg(test)]
mod blocks;
#[cfg(test)]
mod outside;
#[cfg(test)]
mod postdated;
#[cfg(test)]
mod runs;
#[cfg(test)]
mod stamps;
#[cfg(test)]
mod text;
