//! Layer: saved states and restarts.
//!
//! A job that stops at a time and one that goes on from what the first leaves there have, together, the one answer.
#![tactic(auto)]

mod laws;

pub use laws::{checkpoints_say_what_is_left, restarts_give_the_rest, stops_give_the_beginning};
