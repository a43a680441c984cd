//! The workers of a job on one thread.
ghost use Rattle.std.specs.Prelude.{◌≡◌, ◌≤◌, ◌↔◌, ◌+◌, ◌*◌, [], ℕ, IfOk, IsTrue, false, map, take, true, unwrap_or};
ghost use Rattle.mp_names.specs.Limits.{most_workers};
ghost use Rattle.mp_names.specs.Outlines.{OutlineIsSound, name_count};
ghost use Rattle.mp_model.specs.Answers.{one_thread_answer};
ghost use Rattle.mp_model.specs.Tables.{table_of};
ghost use Rattle.mp_outline.specs.JobOutline.{outline_of};
ghost use Rattle.mp_board.specs.Boards.{ShowsFrontiers};
ghost use Rattle.mp_msg.specs.LastStates.{AreAllStates};
ghost use Rattle.mp_worker.specs.Plans.{MayRun};
ghost use Rattle.mp_plain.specs.Driven.{AllKnowTheEnd, AreReached, lines_of, made_by};
ghost use Rattle.mp_plain.specs.Driving.{MakesStep, StepLeaves};
ghost use Rattle.mp_plain.specs.Opened.{AreOpened};

use crate::journals::lists_of;
use mp_board::{Board, Cause, OutlineOf};
use mp_job::Job;
use mp_mailbox::PlainPost;
use mp_model::{Naming, Query};
use mp_msg::{BinState, Msg};
use mp_names::{Kept, Kind, Shape};
use mp_outside::Sink;
use mp_stamps::Seen;
use mp_worker::{RunPlan, Stop, Turn, Worker, last_states, new_workers};
use std::alloc::{AllocError, Global};
use std::marker::Model;

/// The workers of the job J, their board and the mailboxes between them, for one thread. Contracts see a
/// `SystemState`, and how many steps were made.
pub struct Plain<'a, Q: Query, J: Naming> {
    pub(crate) job: &'a Job<Q>,
    // By their numbers.
    pub(crate) workers: Vec<Worker<'a, Q, J>>,
    pub(crate) board: Board<OutlineOf<Q, J>>,
    pub(crate) post: PlainPost<Msg<Q, J>>,
    // How many steps were made.
    made: u64,
}

// By hand, so that crates above call it and don't write out the drop of each field.
impl<'a, Q: Query, J: Naming> Drop for Plain<'a, Q, J> {
    fn drop(self) {
        let Plain {
            job: _,
            workers: _,
            board: _,
            post: _,
            made: _,
        } = self;
    }
}

impl<'a, Q: Query, J: Naming> Model for Plain<'a, Q, J> {
    ghost use Rattle.mp_plain.specs.Driven.{Driven};
    ghost use Rattle.mp_plain.specs.Kept.{IsKept, together};
    ghost use Rattle.mp_model.specs.Tables.{table_of};

    ghost Value = { Driven };

    ghost view = { λ p. record { state = together p.workers.items p.board p.post; made = p.made } };

    ghost invariant = { λ p.
        IsKept (table_of Q.facts J.job) J.job p.job.now (together p.workers.items p.board p.post) p.made };
}

impl<'a, Q: Query, J: Naming> Plain<'a, Q, J> {
    /// Workers that have done nothing and keep no steps, with mailboxes that take `depth` messages each. The query's last
    /// stage gives rows alone. `AllocError`: no memory.
    pub fn open(alloc: Global, job: &'a Job<Q>, depth: u32) -> Result<Plain<'a, Q, J>, AllocError>
        requires run { MayRun (table_of Q.facts J.job) job.now J.job false }
        ensures opened { IfOk result (λ p. AreOpened (table_of Q.facts J.job) J.job depth false p) }
    {
        let keeps = false;
        let paced = false;
        Plain::open_by(
            alloc,
            job,
            RunPlan {
                depth,
                paced,
                keeps,
            },
        )
    }

    /// As [`Plain::open`], with control records that are paced.
    pub fn open_paced(
        alloc: Global,
        job: &'a Job<Q>,
        depth: u32,
    ) -> Result<Plain<'a, Q, J>, AllocError>
        requires run { MayRun (table_of Q.facts J.job) job.now J.job true }
        ensures opened { IfOk result (λ p. AreOpened (table_of Q.facts J.job) J.job depth false p) }
    {
        let keeps = false;
        let paced = true;
        Plain::open_by(
            alloc,
            job,
            RunPlan {
                depth,
                paced,
                keeps,
            },
        )
    }

    /// As [`Plain::open`], by a plan: the depth of the mailboxes, whether control records are paced, and whether each worker
    /// keeps its steps.
    pub fn open_by(
        alloc: Global,
        job: &'a Job<Q>,
        plan: RunPlan,
    ) -> Result<Plain<'a, Q, J>, AllocError>
        requires run { MayRun (table_of Q.facts J.job) job.now J.job plan.paced }
        ensures opened { IfOk result (λ p. AreOpened (table_of Q.facts J.job) J.job plan.depth plan.keeps p) }
    {
        let board = Board::open(alloc, job)?;
        let workers = new_workers(alloc, job, board.seen(), plan)?;
        let post = PlainPost::new(alloc, job.shape().workers, plan.depth)?;
        Ok(Plain {
            job,
            workers,
            board,
            post,
            made: 0,
        })
    }

    /// How many workers, bins and stages the job has that they were made for. Whatever steps were driven, a run of the
    /// machine leads to where they are, by an outline that is sound.
    pub fn shape(&self) -> Shape
        ensures shape { result ≡ J.job.shape }
        ensures few { result.workers ≤ most_workers }
        ensures sound { OutlineIsSound (outline_of (table_of Q.facts J.job) J.job) }
        ensures reached { AreReached (outline_of (table_of Q.facts J.job) J.job) self.now.state }
    {
        self.job.shape()
    }

    /// The frontiers that the posted logs show.
    pub fn seen(&self) -> Seen
        ensures version { result.version ≡ self.now.state.board.version }
        ensures frontiers { let o = outline_of (table_of Q.facts J.job) J.job in
            ShowsFrontiers o self.now.state.board.logs result }
    {
        self.board.seen()
    }

    /// How many steps were made, those that couldn't be made then not counted. Whatever calls drove them, there are
    /// no more than the job's names times the number of workers and two.
    pub fn steps(&self) -> u64
        ensures made { result ≡ self.now.made }
        ensures few { let o = outline_of (table_of Q.facts J.job) J.job in result ≤ (o.workers + 2) * name_count o }
    {
        self.made
    }

    /// One step of a worker. It answers `NotNow` where the step can't be made now, as that of a worker, stage
    /// or sender that the job hasn't, and never `Busy`. `Memory`: no memory, or more steps were made than a u64
    /// counts. `Write`: a write failed, which
    /// comes only of a write, where the sink's count of faults rose in this call or stands at its last
    /// value, 2^64 - 1; any other answer leaves that count as it was. With either no step is made; where it
    /// is a write, a part of the lines of the next time, from their front, may be written.
    pub fn step<S: Sink>(&mut self, worker: u32, kind: Kind, sink: &mut S) -> Result<Turn, Cause>
        ensures makes { let o = outline_of (table_of Q.facts J.job) J.job in
            MakesStep o worker kind result self.old self.new }
        ensures leaves { let q = table_of Q.facts J.job in
            StepLeaves q J.job S.written S.faults S.frame
            kind result self.old.state self.new.state sink.old sink.new }
    {
        if worker as usize >= self.workers.len() {
            return Ok(Turn::NotNow);
        }
        if self.made == u64::MAX {
            return Err(Cause::Memory);
        }
        let worker = &mut self.workers[worker as usize];
        let answered = match worker.step(kind, &mut self.post, &mut self.board, sink) {
            Ok(turn) => Ok(turn),
            Err(Stop::Write) => Err(Cause::Write),
            Err(Stop::Memory) => Err(Cause::Memory),
            Err(Stop::Other(_)) => unreachable!(),
        };
        self.made += made_in(&answered);
        answered
    }

    /// Whether each worker knows that all is over. What worker 0 has written is a beginning of the one-thread
    /// answer, and then all of it.
    pub fn is_finished(&self) -> bool
        ensures known { IsTrue result ↔ AllKnowTheEnd (outline_of (table_of Q.facts J.job) J.job) self.now.state }
        ensures answer { let q = table_of Q.facts J.job in IsTrue result
            → lines_of q J.job.events self.now.state ≡ one_thread_answer q J.job.events }
        ensures begun { let q = table_of Q.facts J.job in
            (k : ℕ) × (lines_of q J.job.events self.now.state ≡ take k (one_thread_answer q J.job.events)) }
    {
        self.workers.iter().all(|worker| worker.is_finished())
    }
}

impl<'a, Q: Query, J: Naming> Plain<'a, Q, J> {
    /// What the bins of the job have at its end, just before its stop time or after all where it has none, by the numbers of
    /// the workers that own them then: each state once, with its stage, from 0. Each worker knows that all is over; they
    /// are done with. `AllocError`: no memory, and the states are gone.
    pub fn into_states(
        self,
        alloc: Global,
    ) -> Result<Vec<Vec<(u32, BinState<Q::Cell>)>>, AllocError>
        requires finished { AllKnowTheEnd (outline_of (table_of Q.facts J.job) J.job) self.state }
        ensures { let q = table_of Q.facts J.job in
            IfOk result (λ all. AreAllStates q J.job (map (λ states. states.items) all.items)) }
    {
        let Plain {
            job: _,
            workers,
            board: _,
            post: _,
            made: _,
        } = self;
        last_states(alloc, workers)
    }

    /// The steps that each worker has kept, by their numbers; none of one that keeps none. The workers are done with.
    /// `AllocError`: no memory for the list of lists.
    pub fn into_kept(self, alloc: Global) -> Result<Vec<Vec<Kept>>, AllocError>
        ensures { IfOk result (λ lists. map (λ kept. kept.items) lists.items
            ≡ map (λ s. unwrap_or s.steps []) self.entry.state.workers) }
    {
        let Plain {
            job: _,
            workers,
            board: _,
            post: _,
            made: _,
        } = self;
        lists_of(alloc, workers)
    }
}

// How many steps are made where this is answered: one or none.
fn made_in(answered: &Result<Turn, Cause>) -> u64
    ensures { result ≡ made_by answered.now }
{
    match answered {
        Ok(Turn::Did(..) | Turn::Seen(_)) => 1,
        _ => 0,
    }
}
