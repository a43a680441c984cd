//! Work that is counted by location and time, and the pairs by which a worker orders what it has to do.
use crate::{Loc, Time};

/// A time at a location of the dataflow, as in Naiad: outstanding work is counted by its pointstamp.
#[derive(Clone, Copy, PartialEq, Eq)]
pub struct Pointstamp {
    /// Where the work is.
    pub loc: Loc,
    /// In units of the event file.
    pub time: Time,
}

/// What is added to the count of a pointstamp, as in Naiad's progress updates.
#[derive(Clone, Copy, PartialEq, Eq)]
pub struct Change {
    /// Of which pointstamp.
    pub at: Pointstamp,
    /// By how much.
    pub by: i64,
}

/// How much work is outstanding at a pointstamp, as in Naiad's occurrence counts. It may be negative: what is taken may be
/// known before it is known to be sent.
#[derive(Clone, Copy)]
pub struct Count {
    /// Of which pointstamp.
    pub at: Pointstamp,
    /// How many are outstanding.
    pub count: i64,
}

/// A bin at the time of its move, as the packets of a stage are ordered: by time, then by bin.
#[derive(Clone, Copy)]
pub struct TimedBin {
    /// In units of the event file.
    pub time: Time,
    /// From 0.
    pub bin: u32,
}

/// The next control record that worker 0 sends: each goes to every worker in turn.
#[derive(Clone, Copy)]
pub struct ControlCursor {
    /// The place of the record in the list of control records, from 0.
    pub index: u32,
    /// The worker that it goes to next, from 0.
    pub receiver: u32,
}
