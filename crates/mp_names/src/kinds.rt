//! The kinds of step that a worker makes.

/// One of the ten kinds of step, in the order in which a worker's round tries them. A number is a
/// stage, but for `Receive`, where it is the sending worker.
#[derive(Clone, Copy, PartialEq, Eq)]
pub enum Kind {
    /// The next record of the share goes to the router of stage 0.
    Ingest,
    /// Worker 0 sends the next control record.
    SendControl,
    /// A record whose owner is known is sent to it.
    Route(u32),
    /// One message is taken.
    Receive(u32),
    /// The state of a bin that moves is sent to its new owner.
    Extract(u32),
    /// A time of control records is settled.
    Settle(u32),
    /// A whole group is applied.
    Apply(u32),
    /// An answer row is sent to worker 0.
    SendRow,
    /// Worker 0 writes the lines of a time.
    Write,
    /// The log is posted, and the frontiers are seen.
    Exchange,
}

/// A step that a worker kept: its kind, and of an exchange the version of the board after it, else 0.
#[derive(Clone, Copy)]
pub struct Kept {
    /// The kind of step.
    pub kind: Kind,
    /// The version.
    pub version: u64,
}
