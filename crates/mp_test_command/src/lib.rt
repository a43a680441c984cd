//! Layer: tests.
//!
//! Tests of the command: that the answer comes of its workers, of workers on threads that they meet and stop, and where a file or an
//! output fails. What files of the system come to stands in examples/cases.toml.
#![tactic(auto)]

#[cfg(test)]
mod faults;
#[cfg(test)]
mod fixture;
#[cfg(test)]
mod stops;
#[cfg(test)]
mod workers;
