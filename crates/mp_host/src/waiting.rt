//! Whether a group waits.
ghost use Rattle.std.specs.Prelude.{◌≡◌, ◌≤◌, ◌||◌, length};
ghost use Rattle.std.specs.List.{list_any};
ghost use Rattle.mp_names.specs.declared.names.Name.TheVariants.{Group as GroupName};
ghost use Rattle.mp_names.specs.Logs.{Log, LogIsLegal, is_pending};
ghost use Rattle.mp_outline.specs.JobOutline.{outline_of};
ghost use Rattle.mp_host_laws.specs.Hosted.{has_wake_at, is_of, waits_at};
ghost use Rattle.mp_host_laws.specs.HostOf.{IsHostOf};
ghost use Rattle.mp_host.specs.Hosts.{IsHosted};
ghost use Rattle.mp_host.specs.Waiting.{is_woken_beside};
ghost use Rattle.mp_model.specs.Tables.{table_of};

use crate::Host;
use crate::groups::has_group;
use mp_model::{Naming, Query, Time};

impl<'a, Q: Query, J: Naming> Host<'a, Q, J> {
    /// Whether the group of a key at a time waits: a record of it is here, or the key is to be woken then. Takes no
    /// memory.
    pub fn waits(&self, time: Time, key: u64) -> bool
        ensures here { result ≡ waits_at self.now time key }
        ensures told { let q = table_of Q.facts J.job in let o = outline_of q J.job in
            (log : Log) → IsHostOf q J.job log self.now → LogIsLegal o self.now.worker log
            → result ≡ is_pending o self.now.worker log (GroupName self.now.stage time key) }
    {
        self.has_record(time, key) || self.is_woken(time, key)
    }

    // Whether the group of a key waits at a time that a record of the key posts. Others often posted it before, so the wake is
    // asked for first.
    pub(crate) fn waits_at_post(&self, time: Time, key: u64) -> bool
        ensures { result ≡ waits_at self.now time key }
    {
        self.is_woken(time, key) || self.has_record(time, key)
    }

    pub(crate) fn has_record(&self, time: Time, key: u64) -> bool
        ensures here { result ≡ list_any (is_of time key) self.now.records }
        ensures hosted { IsHosted (table_of Q.facts J.job) J.job J.job self.now }
    {
        has_group(&self.records, time, key)
    }

    pub(crate) fn is_woken(&self, time: Time, key: u64) -> bool
        ensures { result ≡ has_wake_at self.now time key }
    {
        self.is_woken_beside(0, 0, time, key)
    }

    // Whether a state that stands in front of place `from`, or from place `to` on, has the wake of a key at a time.
    pub(crate) fn is_woken_beside(&self, from: usize, to: usize, time: Time, key: u64) -> bool
        requires from { from ≤ to }
        requires to { to ≤ length self.now.held }
        ensures { result ≡ is_woken_beside self.now from to time key }
    {
        let _ = &self.job;
        self.states.has_wake_beside(from, to, time, key)
    }
}
