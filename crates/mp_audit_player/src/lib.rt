//! Layer: the audit of a journal.
//!
//! The audit of a journal over a chart of its job: a player by counters begins where nothing is done and plays the machine for the
//! search, which so finds a legal merge exactly where there is one.
#![tactic(auto)]

mod auditing;
mod playing;
mod starting;

pub use auditing::audit;
pub use mp_audit::{AuditStop, Kept};
pub use playing::Player;
pub use starting::start;
