//! Layer: between workers: mailboxes and the lock.
//!
//! Mailboxes between threads: what a receiver popped is a prefix of what its sender pushed.
#![tactic(auto)]

mod deal;
mod ends;
mod note;
mod own;
mod post;
mod receiver;
mod rule;
mod sender;
mod view;

pub use deal::ruled_posts;
pub use ends::ends_between;
pub use note::Note;
pub use own::OwnQueue;
pub use post::RuledPost;
pub use receiver::ReceiverEnd;
pub use sender::SenderEnd;
