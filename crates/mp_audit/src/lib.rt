//! Layer: the audit of a journal.
//!
//! The search for a legal merge of a journal's steps, over anything that plays the machine.
#![tactic(auto)]

mod left;
mod playing;
mod searching;

pub use mp_names::Kept;
pub use playing::Play;
pub use searching::{AuditStop, search};
