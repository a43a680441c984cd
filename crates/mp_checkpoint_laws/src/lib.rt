//! Layer: saved states and restarts.
//!
//! The file of a checkpoint, as a definition: no beginning of such a file is one, and a file is that of one checkpoint.
#![tactic(auto)]

mod laws;

pub use laws::{cut_files_are_refused, files_tell_checkpoints};
