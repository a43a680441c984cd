//! Layer: the queries, and the answer on one thread.
//!
//! The text of an answer row: one line for each row, its time and its fields.
//!
//! The form of a line is this project's profile; what it is stands with the answer, in `mp_model`.
#![tactic(auto)]

mod lines;

pub use lines::put_line;
