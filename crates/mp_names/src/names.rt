//! The names of what a job sends, takes, applies and writes.
use crate::Time;

/// What tells the records of one stage and time apart, and orders them. In stage 0 it is (0, the
/// event's index); later it is (the key of the group that gave the record, its place among that
/// group's outputs). This project's profile.
#[derive(Clone, Copy, PartialEq, Eq, PartialOrd, Ord)]
pub struct Tag(pub u64, pub u64);

/// What a thing of a job is called in the logs of its workers. Times are whole numbers of the
/// event file's own unit; stages, bins, workers and indices count from 0.
#[derive(Clone, Copy, PartialEq, Eq)]
pub enum Name {
    /// The control record at this index of the list, on its way to worker `to`.
    Ctrl {
        index: u32,
        to: u32,
    },
    /// A record of a stage.
    Rec {
        stage: u32,
        time: Time,
        key: u64,
        tag: Tag,
    },
    /// The state of a bin that moves at this time.
    Packet {
        stage: u32,
        bin: u32,
        time: Time,
    },
    /// An answer row.
    Row {
        time: Time,
        tag: Tag,
    },
    /// All that a stage has to do for a key at a time.
    Group {
        stage: u32,
        time: Time,
        key: u64,
    },
    /// A time of a stage's control records, once a worker has sent all that it has to move then.
    Settled {
        stage: u32,
        time: Time,
    },
    /// A time of answer rows, once its lines are written.
    Written {
        time: Time,
    },
}
