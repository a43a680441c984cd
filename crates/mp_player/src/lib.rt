//! Layer: the audit of a journal.
//!
//! A player of the machine over a chart, by counters: each kind of step is made exactly where the machine's condition is true, and
//! then the player stands for the world after it. The step that routes records sends out the least of a stage that a worker holds,
//! with those that travel with it in one message.
#![tactic(auto)]

mod along;
mod ending;
mod posting;
mod receiving;
mod routing;
mod state;

pub use along::go_along;
pub use ending::is_finished;
pub use posting::{exchange, is_posted};
pub use receiving::receive;
pub use routing::route;
pub use state::State;
