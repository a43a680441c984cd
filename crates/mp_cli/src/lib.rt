//! Layer: the command.
//!
//! The command line of megaphone: what the words ask for, done on the files of a depot.
#![tactic(auto)]

mod serve;
mod top;

pub use mp_command::Status;
pub use top::run;
