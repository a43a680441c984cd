//! A query with its events, its control records and its shape.
ghost use Rattle.std.specs.Prelude.{◌≡◌, ◌↔◌, ◌<◌, ◌≤◌, ◌&&◌, [], All, IfOk, IsSome, IsTrue, Some, filter, length, nat_le, nat_lt, true};
ghost use Rattle.mp_names.specs.Limits.{greatest_time};
ghost use Rattle.mp_names.specs.Outlines.{IsBeforeStop, is_before_stop};
ghost use Rattle.mp_model.specs.Legal.{EventsAreLegal};
ghost use Rattle.mp_model.specs.Tables.{is_after_saved, table_of};
ghost use Rattle.mp_opening.specs.Checkpoints.{saved_in};
ghost use Rattle.mp_opening.specs.Openings.{MayOpen};
ghost use Rattle.mp_opening.specs.Below.{first_owner};
ghost use Rattle.mp_job.specs.Legal.{ControlsFit, FirstsFit, JobIsLegal, ShapeIsLegal, StopFits};
ghost use Rattle.mp_job.specs.Openings.{AreOpeningCells, AreOpeningWakes};
ghost use Rattle.mp_job.specs.Parts.{OpeningFits, job_in, job_of, saved_of};
ghost use Rattle.mp_job.specs.Records.{record_at, share_of};
ghost use Rattle.mp_job.specs.Times.{post_times_of, times_of};

use crate::gathered::gather_all;
use crate::inputs::JobInputs;
use crate::records::record_of;
use crate::source::Source;
use mp_model::{Control, Event, First, Query, Rec, Shape, Time};
use mp_opening::{Checkpoint, FirstOwners, Opening};
use mp_shares::{Share, before, since};
use std::alloc::{AllocError, Global};
use std::marker::Model;

// No more wakes than this are gone on from.
const MOST_WAKES: usize = 1 << 28;

/// A query with its events, its control records and its shape; and, made from them once, the share of each worker
/// and the times at which something happens. Contracts see what is told of the job, a `JobFacts`.
pub struct Job<Q: Query> {
    source: Source<Q>,
    events: Vec<Event>,
    controls: Vec<Control>,
    // With how many workers, bins and stages it has.
    owners: FirstOwners,
    // By the workers' numbers.
    shares: Vec<Share>,
    times: Vec<Time>,
    post_times: usize,
}

// By hand, so that crates above call it and don't write out the drop of each field.
impl<Q: Query> Drop for Job<Q> {
    fn drop(self) {
        let Job {
            source: _,
            events: _,
            controls: _,
            owners: _,
            shares: _,
            times: _,
            post_times: _,
        } = self;
    }
}

impl<Q: Query> Model for Job<Q> {
    ghost use Rattle.mp_model.specs.Facts.{JobFacts};
    ghost use Rattle.mp_model.specs.Tables.{table_of};
    ghost use Rattle.mp_job.specs.Parts.{HoldsParts, job_in, saved_of};

    ghost Value = { JobFacts };

    ghost view = { λ j. job_in (Q.values j.source.query) j.events.items j.controls.items j.owners.shape j.owners.firsts j.source.stop (saved_of Q.text_of j.source.opening) };

    ghost invariant = { λ j.
        let job = job_in (Q.values j.source.query) j.events.items j.controls.items j.owners.shape j.owners.firsts j.source.stop (saved_of Q.text_of j.source.opening) in
        HoldsParts (table_of Q.facts job) job j.shares.items j.times.items j.post_times j.source.opening };
}

impl<Q: Query> Job<Q> {
    /// A job of legal events, whose control records and shape are within their limits; the shape has the query's
    /// stages. `AllocError`: no memory.
    pub fn new(
        alloc: Global,
        query: Q,
        events: Vec<Event>,
        controls: Vec<Control>,
        shape: Shape,
    ) -> Result<Job<Q>, AllocError>
        requires shape { ShapeIsLegal shape }
        requires stages { shape.stages ≡ (Q.facts (Q.values query)).stages }
        requires events { EventsAreLegal events.items }
        requires controls { ControlsFit shape controls.items }
        ensures { IfOk result (λ job. job ≡ job_of (Q.values query) events.items controls.items shape []) }
    {
        Job::with_firsts(alloc, query, events, controls, shape, Vec::new(alloc))
    }

    /// The same, with bins whose first owners these are. `AllocError`: no memory.
    pub fn with_firsts(
        alloc: Global,
        query: Q,
        events: Vec<Event>,
        controls: Vec<Control>,
        shape: Shape,
        firsts: Vec<First>,
    ) -> Result<Job<Q>, AllocError>
        requires shape { ShapeIsLegal shape }
        requires stages { shape.stages ≡ (Q.facts (Q.values query)).stages }
        requires events { EventsAreLegal events.items }
        requires controls { ControlsFit shape controls.items }
        requires firsts { FirstsFit shape firsts.items }
        ensures { IfOk result (λ job. job ≡ job_of (Q.values query) events.items controls.items shape firsts.items) }
    {
        let source = Source {
            query,
            stop: None,
            opening: None,
        };
        let inputs = JobInputs {
            events,
            controls,
            firsts,
        };
        Job::build(alloc, source, inputs, shape)
    }

    /// A job of these lists that stops at a time, from 1 to 2^47: events of that time or a later one make no record, and it
    /// has the control records of earlier times alone. `AllocError`: no memory.
    pub fn until(
        alloc: Global,
        query: Q,
        inputs: JobInputs,
        shape: Shape,
        time: Time,
    ) -> Result<Job<Q>, AllocError>
        requires shape { ShapeIsLegal shape }
        requires stages { shape.stages ≡ (Q.facts (Q.values query)).stages }
        requires events { EventsAreLegal inputs.events.items }
        requires controls { ControlsFit shape inputs.controls.items }
        requires firsts { FirstsFit shape inputs.firsts.items }
        requires time { (1 ≤ time) × (time ≤ greatest_time) }
        ensures { let controls = filter (λ c. nat_lt c.time time) inputs.controls.items in
            IfOk result (λ job. job ≡ record (job_of (Q.values query) inputs.events.items controls shape inputs.firsts.items) { until = Some time }) }
    {
        let source = Source {
            query,
            stop: Some(time),
            opening: None,
        };
        let inputs = JobInputs {
            controls: before(inputs.controls, time),
            ..inputs
        };
        Job::build(alloc, source, inputs, shape)
    }

    /// A job of these lists that goes on from a checkpoint: events before its time make no record, and it has the control
    /// records from that time on alone. First owners are as for other jobs. `AllocError`: no memory, or more than 2^28 wakes.
    pub fn resume(
        alloc: Global,
        query: Q,
        inputs: JobInputs,
        shape: Shape,
        from: Checkpoint<Q>,
    ) -> Result<Job<Q>, AllocError>
        requires shape { ShapeIsLegal shape }
        requires stages { shape.stages ≡ (Q.facts (Q.values query)).stages }
        requires events { EventsAreLegal inputs.events.items }
        requires controls { ControlsFit shape inputs.controls.items }
        requires firsts { FirstsFit shape inputs.firsts.items }
        requires saved { MayOpen (Q.facts (Q.values query)) from }
        ensures { let controls = filter (λ c. nat_le from.time c.time) inputs.controls.items in
            IfOk result (λ job. job ≡ record (job_of (Q.values query) inputs.events.items controls shape inputs.firsts.items) { from = Some (saved_in Q.text_of from) }) }
    {
        if from.wakes.len() > MOST_WAKES {
            return Err(AllocError);
        }
        let inputs = JobInputs {
            controls: since(inputs.controls, from.time),
            ..inputs
        };
        let source = Source {
            query,
            stop: None,
            opening: Some(Opening::new(alloc, from, shape.bins)?),
        };
        Job::build(alloc, source, inputs, shape)
    }

    // A job of lists whose control records are of times that count, with a checkpoint that is cut into the shape's bins, if
    // there is one. `AllocError`: no memory.
    fn build(
        alloc: Global,
        source: Source<Q>,
        inputs: JobInputs,
        shape: Shape,
    ) -> Result<Job<Q>, AllocError>
        requires shape { ShapeIsLegal shape }
        requires stages { shape.stages ≡ (Q.facts (Q.values source.query)).stages }
        requires events { EventsAreLegal inputs.events.items }
        requires controls { ControlsFit shape inputs.controls.items }
        requires firsts { FirstsFit shape inputs.firsts.items }
        requires stop { StopFits source.stop }
        requires opening { OpeningFits (Q.facts (Q.values source.query)) shape.bins source.opening }
        requires count { All (λ c. (is_after_saved (saved_of Q.text_of source.opening) c.time && is_before_stop source.stop c.time) ≡ true) inputs.controls.items }
        ensures { IfOk result (λ job. job ≡ job_in (Q.values source.query) inputs.events.items inputs.controls.items shape inputs.firsts.items source.stop (saved_of Q.text_of source.opening)) }
    {
        let JobInputs {
            mut events,
            controls,
            firsts,
        } = inputs;
        let owners = FirstOwners::new(alloc, shape, firsts.as_slice())?;
        let gathered = gather_all(alloc, &source, &mut events, &controls, shape.workers)?;
        Ok(Job {
            source,
            events,
            controls,
            owners,
            shares: gathered.shares,
            times: gathered.times,
            post_times: gathered.post_times,
        })
    }

    /// Its query.
    pub fn query(&self) -> &Q
        ensures { Q.values result.now ≡ self.now.values }
    {
        &self.source.query
    }

    /// Its events, in the order of the event file.
    pub fn events(&self) -> &[Event]
        ensures { result.now ≡ self.now.events }
    {
        self.events.as_slice()
    }

    /// Its control records, in the order of the control list.
    pub fn controls(&self) -> &[Control]
        ensures { result.now ≡ self.now.controls }
    {
        self.controls.as_slice()
    }

    /// The first owners that aren't the usual ones.
    pub fn firsts(&self) -> &[First]
        ensures { result.now ≡ self.now.firsts }
    {
        self.owners.firsts()
    }

    /// The first owner of a bin of a stage.
    pub fn first_owner(&self, stage: u32, bin: u32) -> u32
        ensures owner { result ≡ first_owner (record { shape = self.now.shape; firsts = self.now.firsts }) stage bin }
        ensures worker { result < self.now.shape.workers }
    {
        self.owners.of(stage, bin)
    }

    /// The time that it stops at, from 1 to 2^47, if it stops early: nothing of that time or a later one counts.
    pub fn stop_time(&self) -> Option<Time>
        ensures { result ≡ self.now.until }
    {
        self.source.stop
    }

    /// Whether a time is before the stop time, where there is one.
    pub fn is_before_stop(&self, time: Time) -> bool
        ensures { IsTrue result ↔ IsBeforeStop self.now.until time }
    {
        self.source.is_before_stop(time)
    }

    /// How many workers, bins and stages it has.
    pub fn shape(&self) -> Shape
        ensures shape { result ≡ self.now.shape }
        ensures legal { JobIsLegal (table_of Q.facts self.now) self.now }
    {
        self.owners.shape()
    }

    /// The share of a worker: the indices, ascending, of the events that make a record and whose index modulo the
    /// number of workers is the worker's (this project's profile).
    pub fn share(&self, worker: u32) -> &[u32]
        requires { worker < self.now.shape.workers }
        ensures { result.now ≡ share_of (table_of Q.facts self.now) self.now.events self.now.shape.workers worker }
    {
        self.shares[worker as usize].as_slice()
    }

    /// The record of the event of this index, which stands in some worker's share. `AllocError`: no memory.
    pub fn rec_at(&self, index: u32) -> Result<Rec, AllocError>
        requires { IsSome (record_at (table_of Q.facts self.now) self.now.events index) }
        ensures { IfOk result (λ rec. record_at (table_of Q.facts self.now) self.now.events index ≡ Some rec) }
    {
        match record_of(&self.source, index, &self.events[index as usize])? {
            Some(rec) => Ok(rec),
            None => unreachable!(),
        }
    }

    /// The times of the records of stage 0, of their posts, of the control records and of the wakes that the job begins
    /// with, ascending and each once.
    pub fn times(&self) -> &[Time]
        ensures { result.now ≡ times_of (table_of Q.facts self.now) self.now.events self.now.controls }
    {
        self.times.as_slice()
    }

    /// How many times the records of stage 0 post or the wakes have that the job begins with, each counted once.
    pub fn count_of_post_times(&self) -> usize
        ensures { result ≡ length (post_times_of (table_of Q.facts self.now) self.now.events) }
    {
        self.post_times
    }

    /// Copies of the cells that a bin of a stage begins with, with their keys: every other key of the bin begins with a fresh
    /// cell. `AllocError`: no memory.
    pub fn opening_cells(
        &self,
        alloc: Global,
        stage: u32,
        bin: u32,
    ) -> Result<Vec<(u64, Q::Cell)>, AllocError>
        ensures { IfOk result (λ cells. AreOpeningCells (table_of Q.facts self.now) self.now.shape.bins stage bin cells.items) }
    {
        match &self.source.opening {
            Some(opening) => opening.copy_cells(alloc, &self.source.query, stage, bin),
            None => Ok(Vec::new(alloc)),
        }
    }

    /// The wakes that a bin of a stage begins with, each a time and a key, by time and then by key.
    pub fn opening_wakes(&self, stage: u32, bin: u32) -> &[(Time, u64)]
        ensures { AreOpeningWakes (table_of Q.facts self.now) self.now.shape.bins stage bin result.now }
    {
        match &self.source.opening {
            Some(opening) => opening.wakes_of(stage, bin),
            None => &[],
        }
    }
}
