//! What a stage applies at once.
ghost use Rattle.std.specs.Prelude.{◌≡◌};
ghost use Rattle.mp_model.specs.Entry.{Entry};

use crate::{Rec, Time};
use std::marker::Model;

/// A key at a time: whether the key is woken then, and its records of that time in order of their tags. The records are
/// borrowed. Contracts see an `Entry`.
#[derive(Drop)]
pub struct Group<'a> {
    time: Time,
    key: u64,
    woken: bool,
    recs: &'a [Rec],
}

impl<'a> Model for Group<'a> {
    ghost use Rattle.mp_model.specs.Entry.{Entry};

    ghost Value = { Entry };

    ghost view = { λ g. record { time = g.time; key = g.key; woken = g.woken; recs = g.recs.now } };
}

impl<'a> Group<'a> {
    /// The group of this key at this time.
    pub fn new(time: Time, key: u64, woken: bool, recs: &'a [Rec]) -> Group<'a>
        ensures { result ≡ record { time = time; key = key; woken = woken; recs = recs.now } }
    {
        Group {
            time,
            key,
            woken,
            recs,
        }
    }

    /// Its time.
    pub fn time(&self) -> Time
        ensures { result ≡ self.now.time }
    {
        self.time
    }

    /// Its key.
    pub fn key(&self) -> u64
        ensures { result ≡ self.now.key }
    {
        self.key
    }

    /// Whether an earlier record of the key posted this time.
    pub fn is_woken(&self) -> bool
        ensures { result ≡ self.now.woken }
    {
        self.woken
    }

    /// Its records, in order of their tags.
    pub fn recs(&self) -> &'a [Rec]
        ensures { result.now ≡ self.now.recs }
    {
        self.recs
    }
}
