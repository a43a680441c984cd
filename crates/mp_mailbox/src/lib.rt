//! Layer: between workers: mailboxes and the lock.
//!
//! Mailboxes between workers: the trait `Post`, and plain queues for one thread.
#![tactic(auto)]

mod plain;
mod post;

pub use plain::PlainPost;
pub use post::{Full, Named, Post};
