//! Layer: the migrating operator: F and S.
//!
//! Answer rows in the order of their places: each worker holds those that it has to send to worker 0, and worker 0 writes
//! those that it has received, time by time, once no more rows of that time can come.
#![tactic(auto)]

mod laws;
mod lines;
mod place;
mod refused;
mod rows;
mod unsent;

pub use laws::answer_rows_are_rows;
pub use mp_model::Time;
pub use refused::OutRefused;
pub use rows::{Rows, Wrote};
pub use unsent::Unsent;
