//! Layer: the audit of a journal.
//!
//! What a player of the machine may go by. The fixed order in which a worker makes its steps of each kind, but for those that route
//! records and receive messages: it is that of lists which are fixed for the job. So the frontiers that a worker saw and what it has
//! still to do of these lists decide its steps; what waits at it and what it has in hand needn't be known. What is left to do of a
//! job, by location and time: numbers that never rise and can't cancel, which show the frontiers.
//!
//! And what a player needs to know that keeps numbers alone: how far a worker is in each list of what it has to do, in numbers, tells
//! what it has done, and decides those steps; how the records that it holds to route change; and that a board of the work left shows
//! the frontiers.
#![tactic(auto)]

mod decisions;
mod frontiers;
mod laws;

pub use decisions::work_left_decides;
pub use frontiers::work_left_shows_frontiers;
pub use laws::{conditions_make_steps, exchanges_show_work, held_changes, numbers_decide};
