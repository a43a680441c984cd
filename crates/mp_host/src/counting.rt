//! How many groups wait at a time, and how much a group may give.
ghost use Rattle.std.specs.Prelude.{◌≡◌, ◌≤◌, ◌+◌, ◌<◌, ◌-◌, ◌^◌, ℕ, IfNone, IfSome, IsSome, Some, drop, length, min, option_map, true};
ghost use Rattle.mp_names.specs.Frontiers.{number_at};
ghost use Rattle.mp_names.specs.Logs.{Log, LogIsLegal, is_pending};
ghost use Rattle.mp_names.specs.Outlines.{groups_of};
ghost use Rattle.mp_bins.specs.Bins.{bin_of_key};
ghost use Rattle.mp_model.specs.Folds.{cell_before};
ghost use Rattle.mp_model.specs.Stages.{stage_records};
ghost use Rattle.mp_model.specs.Tables.{table_of};
ghost use Rattle.mp_outline.specs.JobOutline.{layout_of, outline_of};
ghost use Rattle.mp_outline.specs.Laws.{group_at};
ghost use Rattle.mp_host_laws.specs.Applying.{group_here, posts_here, woken_by};
ghost use Rattle.mp_host_laws.specs.Hosted.{cell_at, first_group, keys_at, state_at};
ghost use Rattle.mp_host_laws.specs.HostOf.{IsHostOf, IsReadyAt, HostMatchesLogAndSeen, OwnersAreCurrent};
ghost use Rattle.mp_host.specs.Hosts.{IsHosted};
ghost use Rattle.mp_host.specs.Ready.{IsReadyHere};
ghost use Rattle.mp_host.specs.Waiting.{begins_unwoken, is_new, new_keys, unwoken_keys, woken_keys};

use crate::groups::first_records;
use crate::{Host, ReadyGroup};
use mp_bins::Owners;
use mp_host_laws::Held;
use mp_host_states::{count_posts, most_of_group};
use mp_model::{Group, Naming, Query, Rec, Time};
use mp_stamps::Seen;
use std::alloc::Global;

impl<'a, Q: Query, J: Naming> Host<'a, Q, J> {
    /// How many groups wait at a time. Takes no memory.
    pub fn pending(&self, time: Time) -> u64
        ensures here { result ≡ length (keys_at self.now time) }
        ensures told { let q = table_of Q.facts J.job in let o = outline_of q J.job in
            (log : Log) → IsHostOf q J.job log self.now → LogIsLegal o self.now.worker log
            → result ≡ number_at o (is_pending o self.now.worker log) time (groups_of o self.now.stage) }
    {
        (self.count_woken(time) + self.count_unwoken(time)) as u64
    }

    // How many keys are to be woken at a time.
    fn count_woken(&self, time: Time) -> usize
        ensures keys { result ≡ length (woken_keys time self.now.held) }
        ensures few { result < 2 ^ 63 }
        ensures hosted { IsHosted (table_of Q.facts J.job) J.job J.job self.now }
    {
        let mut count = 0;
        for (at, one) in self.states.as_slice().iter().enumerate() {
            count += self.count_new(one, at + 1, time);
        }
        count
    }

    // How many keys of a state are to be woken at a time, but for those that a state from a place on has, too.
    fn count_new(&self, one: &Held<Q::Cell>, next: usize, time: Time) -> usize
        requires { next ≤ length self.now.held }
        ensures { result ≡ length (new_keys time one.now (drop next self.now.held)) }
    {
        let mut count = 0;
        for wake in one.state.wakes.iter() {
            if self.is_new(wake, next, time) {
                count += 1;
            }
        }
        count
    }

    // Whether a wake is of the time, and no state from a place on has it.
    fn is_new(&self, wake: &(Time, u64), next: usize, time: Time) -> bool
        requires { next ≤ length self.now.held }
        ensures { result ≡ is_new time (drop next self.now.held) wake.now }
    {
        wake.0 == time && !self.is_woken_beside(0, next, time, wake.1)
    }

    // How many keys of records of a time aren't to be woken then.
    fn count_unwoken(&self, time: Time) -> usize
        ensures keys { result ≡ length (unwoken_keys self.now time self.now.records) }
        ensures few { result < 2 ^ 63 }
    {
        let mut count = 0;
        let mut last = None;
        let mut at = 0;
        while let Some(rec) = self.records.get(at) {
            if self.begins_unwoken(time, last, rec) {
                count += 1;
            }
            last = Some(rec);
            at += 1;
        }
        count
    }

    // Whether a record, which follows another, is the first one of a group of this time whose key isn't woken.
    fn begins_unwoken(&self, time: Time, last: Option<&Rec>, rec: &Rec) -> bool
        ensures { result ≡ begins_unwoken self.now time (option_map (λ r. r.now) last.entry) rec.now }
    {
        if rec.time != time || self.is_woken(time, rec.key) {
            return false;
        }
        match last {
            Some(before) => before.time != time || before.key != rec.key,
            None => true,
        }
    }

    /// No fewer than the outputs and the new wakes of the group that may be applied, or 2^64 - 1 where that is greater: what
    /// the query says of its outputs, and the posts of its records. `None` exactly where no group may be applied (`ready`).
    /// The worker's log and the owners are as for `apply`. Takes no memory.
    pub fn most_if_ready(&self, alloc: Global, seen: &Seen, owners: &Owners) -> Option<u64>
        requires shape { owners.now.layout ≡ layout_of J.job }
        requires informed { let q = table_of Q.facts J.job in
            (log : Log) × HostMatchesLogAndSeen q J.job log seen.now self.now × OwnersAreCurrent q J.job owners.now seen.now self.now.stage }

        // Whether there is such a group.
        ensures some { IfSome result (λ _. (t : ℕ) × (k : ℕ) × IsReadyHere J.job seen.now owners.now self.now t k) }
        ensures none { IfNone result ((t k : ℕ) → ¬ IsReadyHere J.job seen.now owners.now self.now t k) }
        ensures none_by_log { let q = table_of Q.facts J.job in
            IfNone result ((log : Log) → HostMatchesLogAndSeen q J.job log seen.now self.now → OwnersAreCurrent q J.job owners.now seen.now self.now.stage
            → (t k : ℕ) → ¬ IsReadyAt q J.job log seen.now self.now t k) }

        // What it may give.
        ensures most { let q = table_of Q.facts J.job in let h = self.now in
            IfSome result (λ most. (t k : ℕ) → IsReadyHere J.job seen.now owners.now h t k
            → most ≡ min (q.most h.stage (cell_at (q.fresh h.stage) J.job.shape.bins h t k) (group_here h t k) + length (posts_here q h t k)) (2 ^ 64 - 1)) }
        ensures enough { let q = table_of Q.facts J.job in let h = self.now in let j = h.stage in
            IfSome result (λ most. (t k : ℕ) → IsReadyHere J.job seen.now owners.now h t k → most < 2 ^ 64 - 1
            → length (q.gives j (cell_before q j (stage_records q J.job.events j) k t) (group_at q J.job j t k)) + length (woken_by q h t k) ≤ most) }
    {
        let Some(group) = self.ready_group(alloc, seen, owners) else {
            return None;
        };
        Some(group.most)
    }

    /// The group that may be applied (`ready`), with how much it may give: what the query says of its outputs, and the posts
    /// of its records, or 2^64 - 1 where that is greater. `None` exactly where there is none. The worker's log and the owners
    /// are as for `apply`. Takes no memory.
    pub fn ready_group(&self, alloc: Global, seen: &Seen, owners: &Owners) -> Option<ReadyGroup>
        requires shape { owners.now.layout ≡ layout_of J.job }
        requires informed { let q = table_of Q.facts J.job in
            (log : Log) × HostMatchesLogAndSeen q J.job log seen.now self.now × OwnersAreCurrent q J.job owners.now seen.now self.now.stage }

        // Which group, if there is one.
        ensures some { IfSome result (λ g. IsReadyHere J.job seen.now owners.now self.now g.time g.key) }
        ensures none { IfNone result ((t k : ℕ) → ¬ IsReadyHere J.job seen.now owners.now self.now t k) }
        ensures none_by_log { let q = table_of Q.facts J.job in
            IfNone result ((log : Log) → HostMatchesLogAndSeen q J.job log seen.now self.now → OwnersAreCurrent q J.job owners.now seen.now self.now.stage
            → (t k : ℕ) → ¬ IsReadyAt q J.job log seen.now self.now t k) }

        // What it may give.
        ensures most { let q = table_of Q.facts J.job in let h = self.now in
            IfSome result (λ g. g.most
            ≡ min (q.most h.stage (cell_at (q.fresh h.stage) J.job.shape.bins h g.time g.key) (group_here h g.time g.key) + length (posts_here q h g.time g.key)) (2 ^ 64 - 1)) }
        ensures enough { let q = table_of Q.facts J.job in let h = self.now in let j = h.stage in
            IfSome result (λ g. g.most < 2 ^ 64 - 1
            → length (q.gives j (cell_before q j (stage_records q J.job.events j) g.key g.time) (group_at q J.job j g.time g.key)) + length (woken_by q h g.time g.key) ≤ g.most) }
    {
        let Some((time, key)) = self.first_ready(seen, owners) else {
            return None;
        };
        let most = self.most_of_first(alloc, time, key);
        Some(ReadyGroup { time, key, most })
    }

    // No fewer than the outputs and the new wakes of the first group, whose bin is in hand, where the sums and counts of its
    // key's cell with it fit their types; or 2^64 - 1 where that is greater.
    fn most_of_first(&self, alloc: Global, time: Time, key: u64) -> u64
        requires first { first_group self.now ≡ Some (time, key) }
        requires in_hand { IsSome (state_at self.now (bin_of_key key J.job.shape.bins) time) }
        requires fits { let q = table_of Q.facts J.job in let h = self.now in
            q.fits h.stage (cell_at (q.fresh h.stage) J.job.shape.bins h time key) (group_here h time key) ≡ true }
        ensures { let q = table_of Q.facts J.job in let h = self.now in
            result ≡ min (q.most h.stage (cell_at (q.fresh h.stage) J.job.shape.bins h time key) (group_here h time key) + length (posts_here q h time key)) (2 ^ 64 - 1) }
    {
        let query = self.job.query();
        let recs = first_records(&self.records, time, key);
        let group = Group::new(time, key, self.is_first_woken(time, key), recs);
        let outputs = most_of_group(alloc, query, self.stage, &self.states, &group);
        outputs.saturating_add(count_posts(query, self.stage, recs))
    }
}
