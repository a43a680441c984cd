//! Layer: text, files and collections.
//!
//! A sink in front of another one, that gathers what is written to it, so that the other gets few and long pieces.
#![tactic(auto)]

mod buffered;

pub use buffered::{Buffered, room};
