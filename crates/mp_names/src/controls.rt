//! What a job is told of its workers and bins.
use crate::Time;

/// How many workers, bins and stages a job has, each at least 1.
#[derive(Clone, Copy)]
pub struct Shape {
    /// From 1 to 64.
    pub workers: u32,
    /// Of the keys of each stage: a power of two from 1 to 4096.
    pub bins: u32,
    /// Of the query, from 1 to 4.
    pub stages: u32,
}

/// A control record, as in Megaphone's control stream: from this time on the worker owns the bin of
/// the stage, until a later record says otherwise.
#[derive(Clone, Copy)]
pub struct Control {
    /// In units of the event file, at most 2^47.
    pub time: Time,
    /// From 0.
    pub stage: u32,
    /// From 0.
    pub bin: u32,
    /// The owner from this time on, from 0.
    pub worker: u32,
}

/// The first owner of a bin, as a configuration says it.
#[derive(Clone, Copy)]
pub struct First {
    /// From 0.
    pub stage: u32,
    /// From 0.
    pub bin: u32,
    /// The owner until a control record says otherwise, from 0.
    pub worker: u32,
}

/// A change of a bin's owner at a time. Moves are ordered by time, stage and bin, as a report lists
/// them.
#[derive(Clone, Copy, PartialEq, Eq, PartialOrd, Ord)]
pub struct Move {
    /// In units of the event file.
    pub time: Time,
    /// From 0.
    pub stage: u32,
    /// From 0.
    pub bin: u32,
    /// The owner just before the time.
    pub from: u32,
    /// The owner from the time on.
    pub to: u32,
}
