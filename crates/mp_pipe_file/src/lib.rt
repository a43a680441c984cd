//! Layer: a job.
//!
//! The pipeline that a file says, line by line.
//!
//! The first line that isn't blank says the kind of the events that go in, as `on|B`; each of one to four more says a stage, as
//! `sum|1|3|3|ge|60`: its form, the fields of key and value, and a test that a field has to meet. Fields are checked from left to right, and
//! the first check that fails is the reason why a file is refused. The lines, their limits and the order of the checks are
//! this project's profile.
#![tactic(auto)]

mod fields;
mod kinds;
mod reading;
mod refused;
mod said;
mod stages;

pub use mp_pipeline::{EventKind, Form, Pipe, StageLine, Test};
pub use reading::read_pipe;
pub use refused::{PipeReason, PipeRefused};
