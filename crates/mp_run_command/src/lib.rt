//! Layer: the command.
//!
//! The commands that run a job: `run` and `replay` on the files of a depot, and `demo` in memory.
#![tactic(auto)]

mod answering;
mod causes;
mod flushed;
mod in_memory;
mod resuming;
mod running;
mod stopping;
mod writing;

pub use answering::answer;
pub use in_memory::demo;
