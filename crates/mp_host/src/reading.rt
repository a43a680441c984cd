//! Which group may be applied.
ghost use Rattle.std.specs.Prelude.{◌≡◌, ◌==◌, ◌↔◌, ℕ, Some, IfNone, IfSome};
ghost use Rattle.mp_names.specs.Logs.{Log};
ghost use Rattle.mp_bins.specs.Bins.{bin_of_key};
ghost use Rattle.mp_bins.specs.Notes.{owner_at};
ghost use Rattle.mp_host_laws.specs.Hosted.{StandsInOrder, first_group, first_wake_of, has_wake_at};
ghost use Rattle.mp_host_laws.specs.HostOf.{HostMatchesLogAndSeen, IsReadyAt, OwnersAreCurrent};
ghost use Rattle.mp_host.specs.Hosts.{IsHosted};
ghost use Rattle.mp_host.specs.Ready.{IsReadyHere};
ghost use Rattle.mp_model.specs.Tables.{table_of};
ghost use Rattle.mp_outline.specs.JobOutline.{layout_of};

use crate::Host;
use mp_bins::{Owners, bin_of};
use mp_host_states::{all_has_come, earlier_of};
use mp_model::{Naming, Query, Time};
use mp_stamps::Seen;

impl<'a, Q: Query, J: Naming> Host<'a, Q, J> {
    /// The time and key of the group that may be applied, `None` exactly where there is none: the first that waits, once
    /// the frontiers of records and of packets have passed its time (as Naiad's notifications), where its bin is this
    /// worker's then and its time is before the job's stop time. From the stop time on groups wait for ever.
    pub fn ready(&self, seen: &Seen, owners: &Owners) -> Option<(Time, u64)>
        requires { owners.now.layout ≡ layout_of J.job }
        ensures some { IfSome result (λ g. IsReadyHere J.job seen.now owners.now self.now g.0 g.1) }
        ensures none { IfNone result ((t k : ℕ) → ¬ IsReadyHere J.job seen.now owners.now self.now t k) }
        ensures exact { let q = table_of Q.facts J.job in
            (log : Log) → HostMatchesLogAndSeen q J.job log seen.now self.now → OwnersAreCurrent q J.job owners.now seen.now self.now.stage
            → (t k : ℕ) → ((result ≡ Some (t, k)) ↔ IsReadyAt q J.job log seen.now self.now t k) }
    {
        self.first_ready(seen, owners)
    }

    // The same, by what the host itself has.
    pub(crate) fn first_ready(&self, seen: &Seen, owners: &Owners) -> Option<(Time, u64)>
        requires { owners.now.layout ≡ layout_of J.job }
        ensures some { IfSome result (λ g. IsReadyHere J.job seen.now owners.now self.now g.0 g.1) }
        ensures none { IfNone result ((t k : ℕ) → ¬ IsReadyHere J.job seen.now owners.now self.now t k) }
        ensures hosted { IsHosted (table_of Q.facts J.job) J.job J.job self.now }
    {
        let (time, key) = self.first()?;
        let is_ready = all_has_come(seen, self.stage, time)
            && self.owns(owners, time, key)
            && self.job.is_before_stop(time);
        if is_ready { Some((time, key)) } else { None }
    }

    // The first group that waits, by time and then by key.
    fn first(&self) -> Option<(Time, u64)>
        ensures first { result ≡ first_group self.now }
        ensures hosted { IsHosted (table_of Q.facts J.job) J.job J.job self.now }
    {
        let record = match self.records.first() {
            Some(rec) => Some((rec.time, rec.key)),
            None => None,
        };
        earlier_of(record, self.first_wake())
    }

    // Whether the key of the first group is to be woken at its time: the first wake is then that group's.
    pub(crate) fn is_first_woken(&self, time: Time, key: u64) -> bool
        requires { first_group self.now ≡ Some (time, key) }
        ensures { result ≡ has_wake_at self.now time key }
    {
        self.first_wake() == Some((time, key))
    }

    // The first wake of the states in hand, by time and then by key.
    fn first_wake(&self) -> Option<(Time, u64)>
        ensures first { result ≡ first_wake_of self.now.held }
        ensures denotes { StandsInOrder (table_of Q.facts J.job) J.job self.now }
    {
        self.states.first_wake()
    }

    // Whether the bin of a key is this worker's at a time, by what was noted.
    fn owns(&self, owners: &Owners, time: Time, key: u64) -> bool
        requires { owners.now.layout ≡ layout_of J.job }
        ensures { result ≡ (owner_at owners.now self.now.stage (bin_of_key key J.job.shape.bins) time == self.now.worker) }
    {
        let bin = bin_of(key, self.job.shape().bins);
        owners.owner(self.stage, bin, time) == self.worker
    }
}
