//! The application of the group that is ready.
ghost use Rattle.std.specs.Prelude.{◌≡◌, ℕ, [], Some, true, filter, not, IfNone, IfOk, IsSome, OnErr, OnOk};
ghost use Rattle.mp_names.specs.Logs.{Log};
ghost use Rattle.mp_names.specs.Outlines.{IsBeforeStop};
ghost use Rattle.mp_stamps.specs.declared.seen.Seen.{Seen as SeenFacts};
ghost use Rattle.mp_bins.specs.Bins.{bin_of_key};
ghost use Rattle.mp_bins.specs.Notes.{Notes};
ghost use Rattle.mp_model.specs.Ascending.{ascending};
ghost use Rattle.mp_model.specs.Folds.{cell_before};
ghost use Rattle.mp_model.specs.Stages.{stage_records};
ghost use Rattle.mp_model.specs.Tables.{table_of};
ghost use Rattle.mp_outline.specs.JobOutline.{layout_of};
ghost use Rattle.mp_outline.specs.Laws.{group_at};
ghost use Rattle.mp_host_laws.specs.Applying.{IsApplied, group_here, posts_here, woken_by};
ghost use Rattle.mp_host_laws.specs.Hosted.{cell_at, first_group, state_at, waits_at};
ghost use Rattle.mp_host_laws.specs.HostOf.{HostMatchesLogAndSeen, OwnersAreCurrent};
ghost use Rattle.mp_host.specs.Ready.{IsReadyHere};
ghost use Rattle.mp_host.specs.Telling.{AppliesGroup, IfDid};

use crate::groups::first_records;
use crate::{Applied, Host, ReadyGroup};
use mp_bins::Owners;
use mp_host_states::{add_posts, step_group};
use mp_job::put_in_order;
use mp_model::{Group, Naming, Query, Time, Value};
use mp_stamps::Seen;
use std::alloc::{AllocError, Global};
use std::mem;

impl<'a, Q: Query, J: Naming> Host<'a, Q, J> {
    /// Applies the group that may be applied, which is before the job's stop time (`ready`); `None` exactly where there is
    /// none, and then nothing changes. This worker's log says what the host holds, all that was seen to be over is done in
    /// it, and the owners are noted as far as the frontier of packets has passed. `AllocError`: no memory, and nothing
    /// changes.
    pub fn apply(
        &mut self,
        alloc: Global,
        seen: &Seen,
        owners: &Owners,
    ) -> Result<Option<Applied>, AllocError>
        requires shape { owners.now.layout ≡ layout_of J.job }
        requires informed { let q = table_of Q.facts J.job in
            (log : Log) × HostMatchesLogAndSeen q J.job log seen.now self.old × OwnersAreCurrent q J.job owners.now seen.now self.old.stage }

        // Which group, and what became of the host.
        ensures ready { IfDid result (λ a. IsReadyHere J.job seen.now owners.now self.old a.time a.key) }
        ensures applied { IfDid result (λ a. IsApplied (table_of Q.facts J.job) J.job a.time a.key self.old self.new) }

        // What is told of it.
        ensures outputs { let q = table_of Q.facts J.job in let j = self.old.stage in
            IfDid result (λ a. a.outputs.items
            ≡ q.gives j (cell_before q j (stage_records q J.job.events j) a.key a.time) (group_at q J.job j a.time a.key)) }
        ensures woke { IfDid result (λ a. a.woke.items ≡ woken_by (table_of Q.facts J.job) self.old a.time a.key) }

        // Whatever the log is.
        ensures held { let q = table_of Q.facts J.job in
            IfDid result (λ a. (log : Log) → HostMatchesLogAndSeen q J.job log seen.now self.old
            → AppliesGroup q J.job log seen.now self.old self.new a.time a.key a.woke.items) }

        // Otherwise.
        ensures none { IfOk result (λ o. IfNone o ((t k : ℕ) → ¬ IsReadyHere J.job seen.now owners.now self.old t k)) }
        ensures idle { IfOk result (λ o. IfNone o (self.new ≡ self.old)) }
        ensures unchanged { OnErr result (self.new ≡ self.old) }
    {
        let Some((time, key)) = self.first_ready(seen, owners) else {
            return Ok(None);
        };
        Ok(Some(self.apply_first(alloc, time, key)?))
    }

    /// Applies the group that may be applied, as `ready_group` told it, where nothing changed since: it isn't asked for again.
    /// `AllocError`: no memory, and nothing changes.
    pub fn apply_ready(&mut self, alloc: Global, group: ReadyGroup) -> Result<Applied, AllocError>
        requires ready { let q = table_of Q.facts J.job in
            (seen : SeenFacts) × (notes : Notes) × IsReadyHere J.job seen notes self.old group.time group.key
            × ((log : Log) × HostMatchesLogAndSeen q J.job log seen self.old × OwnersAreCurrent q J.job notes seen self.old.stage) }

        // Which group, and what became of the host.
        ensures group { IfOk result (λ a. (a.time ≡ group.time) × (a.key ≡ group.key)) }
        ensures applied { OnOk result (IsApplied (table_of Q.facts J.job) J.job group.time group.key self.old self.new) }

        // What is told of it.
        ensures outputs { let q = table_of Q.facts J.job in let j = self.old.stage in
            IfOk result (λ a. a.outputs.items
            ≡ q.gives j (cell_before q j (stage_records q J.job.events j) group.key group.time) (group_at q J.job j group.time group.key)) }
        ensures woke { IfOk result (λ a. a.woke.items ≡ woken_by (table_of Q.facts J.job) self.old group.time group.key) }

        // Whatever the log is, and what was seen and noted.
        ensures held { let q = table_of Q.facts J.job in
            IfOk result (λ a. (log : Log) (seen : SeenFacts) (notes : Notes) → IsReadyHere J.job seen notes self.old group.time group.key
            → HostMatchesLogAndSeen q J.job log seen self.old → AppliesGroup q J.job log seen self.old self.new group.time group.key a.woke.items) }
        ensures unchanged { OnErr result (self.new ≡ self.old) }
    {
        let _ = &self.job;
        self.apply_first(alloc, group.time, group.key)
    }

    // Applies the first group, which is before the stop time and whose bin is in hand, where the sums and counts of its key's
    // cell with it fit their types.
    pub(crate) fn apply_first(
        &mut self,
        alloc: Global,
        time: Time,
        key: u64,
    ) -> Result<Applied, AllocError>
        requires first { first_group self.old ≡ Some (time, key) }
        requires early { IsBeforeStop J.job.until time }
        requires in_hand { IsSome (state_at self.old (bin_of_key key J.job.shape.bins) time) }
        requires fits { let q = table_of Q.facts J.job in let h = self.old in
            q.fits h.stage (cell_at (q.fresh h.stage) J.job.shape.bins h time key) (group_here h time key) ≡ true }
        ensures group { IfOk result (λ a. (a.time ≡ time) × (a.key ≡ key)) }
        ensures applied { OnOk result (IsApplied (table_of Q.facts J.job) J.job time key self.old self.new) }
        ensures outputs { let q = table_of Q.facts J.job in let h = self.old in
            IfOk result (λ a. a.outputs.items ≡ q.gives h.stage (cell_at (q.fresh h.stage) J.job.shape.bins h time key) (group_here h time key)) }
        ensures woke { IfOk result (λ a. a.woke.items ≡ woken_by (table_of Q.facts J.job) self.old time key) }
        ensures unchanged { OnErr result (self.new ≡ self.old) }
    {
        let mut posts = taken_empty(&mut self.posts, alloc);
        self.add_posts(time, key, &mut posts)?;
        let woke = self.not_waiting(alloc, key, posts.as_slice())?;
        let outputs = self.step(alloc, time, key, posts.as_slice())?;
        self.posts = posts;
        Ok(Applied {
            time,
            key,
            outputs,
            woke,
        })
    }

    // Adds the times that the records of the first group post to a list without any.
    fn add_posts(&self, time: Time, key: u64, posts: &mut Vec<Time>) -> Result<(), AllocError>
        requires first { first_group self.now ≡ Some (time, key) }
        requires none { posts.old.items ≡ [] }
        ensures { OnOk result (posts.new.items ≡ posts_here (table_of Q.facts J.job) self.now time key) }
    {
        let recs = first_records(&self.records, time, key);
        add_posts(self.job.query(), self.stage, recs, posts)
    }

    // Those of the times at which a key doesn't wait, ascending and each once.
    fn not_waiting(&self, alloc: Global, key: u64, times: &[Time]) -> Result<Vec<Time>, AllocError>
        ensures { IfOk result (λ v. v.items ≡ ascending (filter (λ u. not (waits_at self.now u key)) times.now)) }
    {
        let mut list = Vec::new(alloc);
        for time in times {
            if !self.waits_at_post(*time, key) {
                list.reserve_exact(times.len() - list.len())?;
                list.push_reserved(*time);
            }
        }
        put_in_order(&mut list);
        Ok(list)
    }

    // Steps the state of the bin of the first group's key. The group is before the stop time: its records and its wake are used
    // up, and the posts are wakes.
    fn step(
        &mut self,
        alloc: Global,
        time: Time,
        key: u64,
        posts: &[Time],
    ) -> Result<Vec<Value>, AllocError>
        requires first { first_group self.old ≡ Some (time, key) }
        requires early { IsBeforeStop J.job.until time }
        requires in_hand { IsSome (state_at self.old (bin_of_key key J.job.shape.bins) time) }
        requires fits { let q = table_of Q.facts J.job in let h = self.old in
            q.fits h.stage (cell_at (q.fresh h.stage) J.job.shape.bins h time key) (group_here h time key) ≡ true }
        requires posts { posts.now ≡ posts_here (table_of Q.facts J.job) self.old time key }
        ensures applied { OnOk result (IsApplied (table_of Q.facts J.job) J.job time key self.old self.new) }
        ensures outputs { let q = table_of Q.facts J.job in let h = self.old in
            IfOk result (λ v. v.items ≡ q.gives h.stage (cell_at (q.fresh h.stage) J.job.shape.bins h time key) (group_here h time key)) }
        ensures unchanged { OnErr result (self.new ≡ self.old) }
    {
        let woken = self.is_first_woken(time, key);
        let recs = first_records(&self.records, time, key);
        let count = recs.len();
        let group = Group::new(time, key, woken, recs);
        let query = self.job.query();
        let outputs = step_group(alloc, query, self.stage, &mut self.states, &group, posts)?;
        self.records.drop_first(count);
        Ok(outputs)
    }
}

// A list out of its place, without the times that it has.
fn taken_empty(list: &mut Vec<Time>, alloc: Global) -> Vec<Time>
    ensures { result.items ≡ [] }
{
    let mut taken = mem::replace(list, Vec::new(alloc));
    taken.clear();
    taken
}
