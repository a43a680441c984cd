//! The host of a stage on a worker.
ghost use Rattle.std.specs.Prelude.{◌≡◌, ◌≤◌, ◌<◌, ◌+◌, IfOk, IsOk, OnErr, OnOk};
ghost use Rattle.mp_names.specs.Logs.{empty_log};
ghost use Rattle.mp_job.specs.Legal.{JobIsLegal};
ghost use Rattle.mp_job.specs.Runs.{IsRunOf};
ghost use Rattle.mp_msg.specs.Contents.{IsRecordOf};
ghost use Rattle.mp_host_laws.specs.Applying.{IsReceived};
ghost use Rattle.mp_host_laws.specs.Hosted.{IsNew, first_bins};
ghost use Rattle.mp_host_laws.specs.HostOf.{IsHostOf};
ghost use Rattle.mp_host.specs.Hosts.{AreAtFirst};
ghost use Rattle.mp_host.specs.Telling.{TakesRecord};
ghost use Rattle.mp_model.specs.Tables.{table_of};
ghost use Rattle.mp_host_laws.specs.Last.{EndsWithLastStates};

use crate::order::ByGroup;
use mp_host_laws::Held;
use mp_host_states::{InHand, opening_state};
use mp_job::Job;
use mp_model::{Naming, Query, Rec, Time};
use mp_ordered_runs::OrderedRuns;
use std::alloc::{AllocError, Global};
use std::marker::{Model, PhantomData};

/// The hosting half of a stage of the job J on one worker. Contracts see a `Hosted`.
pub struct Host<'a, Q: Query, J: Naming> {
    pub(crate) job: &'a Job<Q>,
    pub(crate) stage: u32,
    pub(crate) worker: u32,
    // Those whose group isn't applied.
    pub(crate) records: OrderedRuns<Rec, ByGroup>,
    pub(crate) states: InHand<Q::Cell>,
    // For the times that the records of a group post: one list serves each group.
    pub(crate) posts: Vec<Time>,
    pub(crate) of: PhantomData<J>,
    ghost each_bin: { states.bins ≡ job.now.shape.bins },
}

// By hand, so that crates above call it and don't write out the drop of each field.
impl<'a, Q: Query, J: Naming> Drop for Host<'a, Q, J> {
    fn drop(self) {
        let Host {
            job: _,
            stage: _,
            worker: _,
            records: _,
            states: _,
            posts: _,
            of: _,
        } = self;
    }
}

impl<'a, Q: Query, J: Naming> Model for Host<'a, Q, J> {
    ghost use Rattle.mp_host_laws.specs.Hosted.{Hosted};
    ghost use Rattle.mp_host.specs.Hosts.{IsHosted, hosted_of};
    ghost use Rattle.mp_model.specs.Tables.{table_of};

    ghost Value = { Hosted Q.Cell };

    ghost view = { λ h. hosted_of h.stage h.worker h.records h.states };

    ghost invariant = { λ h.
        IsHosted (table_of Q.facts J.job) J.job h.job.now (hosted_of h.stage h.worker h.records h.states) };
}

impl<'a, Q: Query, J: Naming> Host<'a, Q, J> {
    /// A host that has received nothing, with the bins whose first owner the worker is, each with what it begins with.
    /// `AllocError`: no memory.
    pub fn new(
        alloc: Global,
        stage: u32,
        worker: u32,
        job: &'a Job<Q>,
    ) -> Result<Host<'a, Q, J>, AllocError>
        requires job { IsRunOf job.now J.job }
        requires stage { stage < J.job.shape.stages }
        requires worker { worker < J.job.shape.workers }
        ensures stage { IfOk result (λ h. h.stage ≡ stage) }
        ensures worker { IfOk result (λ h. h.worker ≡ worker) }
        ensures new { IfOk result (λ h. IsNew (table_of Q.facts J.job) J.job h) }
        ensures held { IfOk result (λ h. IsHostOf (table_of Q.facts J.job) J.job empty_log h) }
    {
        let held = first_held::<Q>(alloc, stage, worker, job)?;
        let states = InHand::new(alloc, job.shape().bins, held)?;
        Ok(Host {
            job,
            stage,
            worker,
            records: OrderedRuns::new(alloc),
            states,
            posts: Vec::new(alloc),
            of: PhantomData,
        })
    }

    /// Makes room, so that bundles of `count` records in all are received, and the next packet is installed.
    /// `AllocError`: no memory, and nothing is held that wasn't.
    pub fn make_room(&mut self, count: u64) -> Result<(), AllocError>
        ensures room { OnOk result (count ≤ self.new.room) }
        ensures for_bins { OnOk result (1 ≤ self.new.room_for_bins) }
        ensures same { self.new ≡ record self.old { room = self.new.room; room_for_bins = self.new.room_for_bins } }
        ensures no_less { (self.old.room ≤ self.new.room) × (self.old.room_for_bins ≤ self.new.room_for_bins) }
    {
        self.states.make_room()?;
        self.records.make_room(count)
    }

    // Keeps a record of the stage until its group is applied. `AllocError`: no memory, never where there is room, and
    // nothing changes.
    pub(crate) fn keep(&mut self, rec: Rec) -> Result<(), AllocError>
        requires { IsRecordOf (table_of Q.facts J.job) J.job self.old.stage rec }
        ensures received { OnOk result (IsReceived rec self.old self.new) }
        ensures held { OnOk result (TakesRecord (table_of Q.facts J.job) J.job rec self.old self.new) }
        ensures room { OnOk result (self.old.room ≤ self.new.room + 1) }
        ensures for_bins { self.new.room_for_bins ≡ self.old.room_for_bins }
        ensures unchanged { OnErr result (self.new ≡ self.old) }
        ensures never_refused_with_room { 0 < self.old.room → IsOk result }
    {
        self.records.insert(rec)
    }

    /// The stage that it is the host of.
    pub fn stage(&self) -> u32
        ensures { result ≡ self.now.stage }
    {
        self.stage
    }

    /// The states of bins that it has in hand; the host is done with. Where its worker has done all that it has to do they
    /// are those of the bins of the stage that the worker owns at the end of the job, of each bin one, with what it has then.
    pub fn into_states(self) -> Vec<Held<Q::Cell>>
        ensures held { result.items ≡ self.entry.held }
        ensures last { EndsWithLastStates (table_of Q.facts J.job) J.job self.entry }
    {
        let Host {
            job: _,
            stage: _,
            worker: _,
            records: _,
            states,
            posts: _,
            of: _,
        } = self;
        states.into_states()
    }
}

// The bins of a stage whose first owner the worker is, each with what it begins with. `AllocError`: no memory.
fn first_held<Q: Query>(
    alloc: Global,
    stage: u32,
    worker: u32,
    job: &Job<Q>,
) -> Result<Vec<Held<Q::Cell>>, AllocError>
    ensures first { IfOk result (λ v. AreAtFirst (table_of Q.facts job.now) job.now stage (first_bins job.now stage worker) v.items) }
    ensures legal { OnOk result (JobIsLegal (table_of Q.facts job.now) job.now) }
{
    let shape = job.shape();
    let mut held = Vec::new(alloc);
    for bin in 0..shape.bins {
        let owner = job.first_owner(stage, bin);
        if owner == worker {
            let state = opening_state(alloc, job, stage, bin)?;
            held.push(Held {
                bin,
                since: None,
                state,
            })?;
        }
    }
    Ok(held)
}
