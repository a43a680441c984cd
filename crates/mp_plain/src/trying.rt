//! Trying the steps of places.
ghost use Rattle.std.specs.Prelude.{◌≡◌, ◌≤◌, ◌<◌, ◌∷◌, ◌+◌, ◌⊎◌, [], ℕ, IsTrue, Some, slice_get};
ghost use Rattle.mp_names.specs.declared.kinds.Kind.{Kind as KindOf};
ghost use Rattle.mp_names.specs.declared.kinds.Kind.TheVariants.{SendControl, Write};
ghost use Rattle.mp_mailbox.specs.Queues.{WasEmpty};
ghost use Rattle.mp_machine.specs.Places.{kinds_of};
ghost use Rattle.mp_machine.specs.Runs.{NotNow};
ghost use Rattle.mp_machine.specs.Steps.{IsPlace};
ghost use Rattle.mp_model.specs.Tables.{table_of};
ghost use Rattle.mp_outline.specs.JobOutline.{outline_of};
ghost use Rattle.mp_plain.specs.Driven.{LeadsOn};
ghost use Rattle.mp_plain.specs.Driving.{MakesStep, StepLeaves};
ghost use Rattle.mp_plain.specs.Places.{IsPlaceIn, kind_count};

use crate::Plain;
use crate::places::Place;
use mp_board::Cause;
use mp_gate::Gate;
use mp_mailbox::{Named, PlainPost, Post};
use mp_model::{Naming, Query};
use mp_names::{Kind, Shape};
use mp_outside::Sink;
use mp_worker::Turn;

impl<'a, Q: Query, J: Naming> Plain<'a, Q, J> {
    /// Of the places from this one on, how many receive from mailboxes in which nothing waits. They are of one worker, and none
    /// of their steps can be made now. The gate is passed for each.
    pub fn pass_empty<G: Gate>(&mut self, shape: Shape, place: Place, gate: &G) -> u64
        requires shape { shape ≡ J.job.shape }
        requires place { IsPlaceIn shape place }
        ensures same { self.new ≡ self.old }
        ensures inside { place.kind + result < kind_count shape }
        ensures none { let o = outline_of (table_of Q.facts J.job) J.job in
            (i : ℕ) (kind : KindOf) → place.kind ≤ i → i < place.kind + result → slice_get (kinds_of o) i ≡ Some kind
            → LeadsOn o ((place.worker, kind) ∷ []) (NotNow ∷ []) self.old.state self.old.state }
    {
        let Place { worker, kind } = place;
        // `Ingest`, `SendControl` and `Route` come before.
        let first = u64::from(shape.stages) + 2;
        if kind < first || first + u64::from(shape.workers) <= kind {
            return 0;
        }
        let from = (kind - first) as u32;
        let waiting = first_waiting(&mut self.post, from, shape.workers, worker, gate);
        u64::from(waiting - from)
    }

    /// As [`Plain::step`], of a place of the job. Where only worker 0 makes such steps that is seen without the worker.
    pub fn try_step<S: Sink>(
        &mut self,
        worker: u32,
        kind: Kind,
        sink: &mut S,
    ) -> Result<Turn, Cause>
        requires place { IsPlace (outline_of (table_of Q.facts J.job) J.job) worker kind }
        ensures makes { let o = outline_of (table_of Q.facts J.job) J.job in
            MakesStep o worker kind result self.old self.new }
        ensures leaves { let q = table_of Q.facts J.job in
            StepLeaves q J.job S.written S.faults S.frame
            kind result self.old.state self.new.state sink.old sink.new }
    {
        if is_of_the_first(kind) && worker != 0 {
            let _ = &self.job;
            return Ok(Turn::NotNow);
        }
        self.step(worker, kind, sink)
    }
}

// Whether only worker 0 makes steps of this kind.
fn is_of_the_first(kind: Kind) -> bool
    ensures { IsTrue result → (kind ≡ SendControl) ⊎ (kind ≡ Write) }
{
    matches!(kind, Kind::SendControl | Kind::Write)
}

// The first sender, from this one on, of which something waits for a worker, or the number of workers where there is none.
// The gate is passed for each sender before that.
fn first_waiting<M: Named + Drop, G: Gate>(
    post: &mut PlainPost<M>,
    from: u32,
    workers: u32,
    worker: u32,
    gate: &G,
) -> u32
    requires workers { workers ≡ post.old.workers }
    requires inside { (from ≤ workers) × (worker < workers) }
    ensures same { post.new ≡ post.old }
    ensures first { (from ≤ result) × (result ≤ workers) }
    ensures none { (v : ℕ) → from ≤ v → v < result → WasEmpty post.old v worker }
{
    for sender in from..workers {
        if !post.is_empty(sender, worker) {
            return sender;
        }
        gate.pass(worker, Kind::Receive(sender));
    }
    workers
}
