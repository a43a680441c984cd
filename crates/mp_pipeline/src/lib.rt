//! Layer: the queries, and the answer on one thread.
//!
//! Pipelines: a query whose stages are said line by line. Each stage takes a key and a value from numbered fields of what goes in,
//! and passes, counts or sums the values of a key, or sums those of windows of time. The forms are this project's profile.
#![tactic(auto)]

mod groups;
mod kinds;
mod laws;
mod numbers;
mod pipe;
mod stage;

pub use kinds::EventKind;
pub use laws::{events_have_fields, numbers_say_the_pipe, outputs_are_rows, totals_are_sums};
pub use pipe::{Pipe, PipeCell};
pub use stage::{Form, StageLine, Test};
