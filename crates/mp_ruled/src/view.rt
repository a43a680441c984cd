//! What an end of a queue knows.
use std::collections::LinkedList;

/// Whether the end pushes and whether it pops, the edge of its queue, how many messages that holds, and
/// a beginning of what was pushed and of what was popped: all of it where the end does so itself. No value
/// of it is made.
pub struct QueueView<M> {
    /// Whether the end pushes.
    pub pushes: bool,
    /// Whether the end pops.
    pub pops: bool,
    /// The worker that sends.
    pub from: u64,
    /// The worker that receives.
    pub to: u64,
    /// How many messages the queue holds.
    pub depth: u64,
    /// A beginning of what was pushed.
    pub sent: LinkedList<M>,
    /// A beginning of what was popped.
    pub got: LinkedList<M>,
}
