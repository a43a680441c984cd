//! Layer: a job.
//!
//! Events that are made from a seed, and the summary of an answer. Both are this project's profile: NEXMark's own generator is
//! another one.
#![tactic(auto)]

mod choosing;
mod made;
mod summing;

pub use made::make_events;
pub use mp_model::Event;
pub use summing::summary;
