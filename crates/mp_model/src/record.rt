//! Events, the records that they make, and the outputs of groups.
ghost use Rattle.std.specs.Prelude.{◌≡◌};

use crate::{Tag, Time, Value};
use std::alloc::AllocError;

/// One event of the event file.
#[derive(Drop)]
pub struct Event {
    /// In units of the event file.
    pub time: Time,
    /// What it holds.
    pub value: Value,
}

/// A record of a key, as a stage takes it.
#[derive(Drop)]
pub struct Rec {
    /// In units of the event file.
    pub time: Time,
    /// The key of its group.
    pub key: u64,
    /// Tells apart, and orders, what has the same time.
    pub tag: Tag,
    /// What it holds.
    pub value: Value,
}

/// One output of a group, with the group's time.
#[derive(Drop)]
pub struct Output {
    /// In units of the event file.
    pub time: Time,
    /// The key of the group, and the output's place among those of the group.
    pub tag: Tag,
    /// What it holds.
    pub value: Value,
}

/// Where a row stands in the answer: rows ascend by time, and then by tag.
#[derive(Clone, Copy, PartialEq, Eq, PartialOrd, Ord)]
pub struct Place {
    /// In units of the event file.
    pub time: Time,
    /// Tells apart, and orders, what has the same time.
    pub tag: Tag,
}

impl Clone for Rec {
    ghost is_clone = { λ rec copy. copy ≡ rec };

    fn clone(&self) -> Result<Rec, AllocError> {
        Ok(Rec {
            time: self.time,
            key: self.key,
            tag: self.tag,
            value: self.value.clone()?,
        })
    }
}
