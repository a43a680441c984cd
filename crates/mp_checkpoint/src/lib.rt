//! Layer: saved states and restarts.
//!
//! The file of a checkpoint, written and read, and which checkpoints a file may say.
#![tactic(auto)]

mod checkpoint;
mod first;
mod fitting;
mod item;
mod lines;
mod matching;
mod reading;
mod refused;
mod writing;

pub use checkpoint::read_checkpoint;
pub use fitting::fits;
pub use refused::CheckpointRefused;
pub use writing::write_checkpoint;
