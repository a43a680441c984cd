//! The five lists of names of a log.

/// One of a log's lists.
#[derive(Clone, Copy)]
pub enum LogList {
    /// The records of its share that a worker has ingested.
    Ingested,
    /// What it has sent.
    Sent,
    /// What it has taken.
    Took,
    /// The groups that it has applied.
    Applied,
    /// The times that it has settled, and on worker 0 those that it has written.
    Settled,
}
