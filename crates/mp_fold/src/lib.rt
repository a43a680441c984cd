//! Layer: the queries, and the answer on one thread.
//!
//! The answer of any query to events, on one thread: each key is folded by itself, and the rows are put in order.
//!
//! Its contract is the definition of the answer. Each stage's records are sorted by key and time, so n records with their
//! posts take n log n steps. What stages, groups and rows are comes from Naiad and Megaphone; the order of rows is this
//! project's profile.
#![tactic(auto)]

mod answer;
mod folds;
mod pieces;
mod records;
mod runs;
mod stages;
mod timeline;

pub use answer::{Rows, answer_pieces, in_order};
pub use records::{input_records, output_records};
pub use stages::{answer_rows, stage_outputs, stage_records};
