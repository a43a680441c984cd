//! Layer: between workers: mailboxes and the lock.
//!
//! Callers of the seat lock and of mailboxes, as a crate above writes them.
#![tactic(auto)]

mod clerk;
mod counts;
mod lines;
mod numbers;
mod posts;

pub use clerk::Clerk;
pub use counts::{Counts, close_two, count_in_two, open_two};
pub use lines::{pop_told, relay};
pub use numbers::{Number, receive, receive_all, send, send_all};
pub use posts::two_posts;
