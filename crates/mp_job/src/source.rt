//! A query with the time at which its job stops, and the checkpoint that it goes on from.
ghost use Rattle.std.specs.Prelude.{◌≡◌, ◌≤◌, ◌↔◌, IsTrue, true};
ghost use Rattle.mp_names.specs.Limits.{last_time};
ghost use Rattle.mp_names.specs.Outlines.{IsBeforeStop};
ghost use Rattle.mp_model.specs.Tables.{is_after_saved};
ghost use Rattle.mp_job.specs.Parts.{saved_of, table_in};

use mp_model::{Event, Query, Time};
use mp_opening::Opening;

/// A query, the time at which its job stops, if it stops early, and what it goes on from, if it does. The job takes its
/// records from them.
#[derive(Drop)]
pub struct Source<Q: Query> {
    pub query: Q,
    pub stop: Option<Time>,
    pub opening: Option<Opening<Q>>,
}

impl<Q: Query> Source<Q> {
    /// Whether a time is before the stop time, where there is one.
    pub fn is_before_stop(&self, time: Time) -> bool
        ensures { IsTrue result ↔ IsBeforeStop self.now.stop time }
    {
        match self.stop {
            Some(stop) => time < stop,
            None => true,
        }
    }

    /// Whether a time isn't before that of the checkpoint, where there is one.
    pub fn is_after_start(&self, time: Time) -> bool
        ensures { IsTrue result ↔ (is_after_saved (saved_of Q.text_of self.now.opening) time ≡ true) }
    {
        match &self.opening {
            Some(opening) => opening.time() <= time,
            None => true,
        }
    }

    /// The key of an event in stage 0, if it makes a record: an event at the stop time or later, or before the time that
    /// the job goes on from, makes none.
    pub fn key(&self, event: &Event) -> Option<u64>
        requires { event.now.time ≤ last_time }
        ensures { result ≡ (table_in Q.facts Q.text_of (Q.values self.now.query) self.now.stop self.now.opening).key 0 event.now.time event.now.value }
    {
        if self.is_after_start(event.time) && self.is_before_stop(event.time) {
            self.query.key(0, event.time, &event.value)
        } else {
            None
        }
    }
}
