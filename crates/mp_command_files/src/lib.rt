//! Layer: the command.
//!
//! The files of the command one by one: how a call can end and what it says then, what is read from a file, and events that
//! are written to one.
#![tactic(auto)]

mod causes;
mod event_file;
mod reading;
mod refusal;

pub use event_file::events_to;
pub use reading::{config_in, events_in, pipe_in, read_named, steps_in};
pub use refusal::Refusal;
