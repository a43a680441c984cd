//! Layer: tests.
//!
//! Tests of the parts of a worker: its routers, hosts and movers, the rows that it sends and writes, and the laws of them
//! all, on the queries and jobs of `mp_samples`: a module for each crate.
#![tactic(auto)]

#[cfg(test)]
mod firsts;
#[cfg(test)]
mod handoff;
#[cfg(test)]
mod host;
#[cfg(test)]
mod host_laws;
#[cfg(test)]
mod output;
#[cfg(test)]
mod route;
#[cfg(test)]
mod seen;
#[cfg(test)]
mod worker_invariant;
