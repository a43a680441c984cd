//! How a worker posts its log.
ghost use Rattle.std.specs.Prelude.{ℕ};
ghost use Rattle.mp_worker_refinement.specs.Served.{IsAtHub};
ghost use Rattle.mp_worker_parts.specs.Exchanging.{PostsLog};

use crate::Parts;
use mp_board::{Answer, Hub, HubStop, OutlineOf};
use mp_model::{Naming, Query};
use std::snapshot::Snapshot;

/// What came of an exchange.
#[derive(Clone, Copy)]
pub enum Exchanged {
    /// The log was posted, or the board had changed: this version of the board was seen.
    Seen(u64),
    /// Nothing had changed since the worker's last exchange.
    NothingNew,
    /// Another worker held the board. Nothing changed.
    Busy,
}

impl<'a, Q: Query, J: Naming> Parts<'a, Q, J> {
    /// Posts the worker's log, and sees what all posted logs show then. `Seen`: the version of the board, which is not the
    /// one that the worker had seen. `NothingNew`: it is, so nothing had changed, and the log that was posted is what it
    /// posted last. `Busy`: only where the hub says so. `Other`: another worker stopped before. Only `Seen` changes the
    /// worker and what the hub has of it. It takes no memory, and has no other refusal.
    pub fn exchange<H: Hub<OutlineOf<Q, J>>>(&mut self, hub: &mut H) -> Result<Exchanged, HubStop>
        requires at_hub { IsAtHub H.serves H.posted H.version self.old.worker hub.old }
        ensures posts { PostsLog H.after H.kept H.shows H.goes_on H.was_stopped H.was_busy self.old.worker self.new.worker hub.old hub.new result }
        ensures at_hub { IsAtHub H.serves H.posted H.version self.new.worker hub.new }
        ensures still_serves { (w : ℕ) → H.serves hub.old w → H.serves hub.new w }
    {
        let number = self.log.worker();
        let seen = match hub.exchange(number, &mut self.log)? {
            Answer::Got(seen) => seen,
            Answer::Busy => return Ok(Exchanged::Busy),
        };
        let version = seen.version();
        if version == self.seen.version() {
            return Ok(Exchanged::NothingNew);
        }
        self.seen = seen;
        self.posted = Snapshot::of(&self.log);
        Ok(Exchanged::Seen(version))
    }
}
