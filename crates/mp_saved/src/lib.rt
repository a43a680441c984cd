//! Layer: the queries, and the answer on one thread.
//!
//! Queries whose cells can be saved, each as a text.
#![tactic(auto)]

mod numbers;
mod refused;
mod saved;
mod values;
mod words;

pub use numbers::{put_more, put_numbers, read_numbers};
pub use refused::CellRefused;
pub use saved::Saved;
pub use values::ValueList;
pub use words::Words;
