//! The workers of a job, made for threads.
ghost use Rattle.std.specs.Prelude.{◌≡◌, ◌<◌, All, IfOk, false, length, true};
ghost use Rattle.mp_model.specs.Tables.{table_of};
ghost use Rattle.mp_outline.specs.JobOutline.{outline_of};
ghost use Rattle.mp_threads_member.specs.Below.{MayRun};
ghost use Rattle.mp_threads_member.specs.Members.{HasDoneNothing};
ghost use Rattle.mp_threads_crew.specs.Crews.{AreByNumber, ArePartsOf, IsMadeOf, IsNewCrew};

use mp_board::{Board, OutlineOf};
use mp_job::Job;
use mp_model::{Naming, Query};
use mp_msg::Msg;
use mp_ruled::{RuledPost, ruled_posts};
use mp_threads_hub::{SeatHub, open_hubs};
use mp_threads_member::{Member, RunPlan, Worker, new_workers};
use std::alloc::{AllocError, Global};
use std::collections::VecDeque;
use std::marker::Model;

/// The workers of the job J, each with its ends of the mailboxes and its seat at the board. Contracts see them by their
/// numbers.
pub struct Crew<'a, Q: Query, J: Naming, R> {
    members: Vec<Member<'a, Q, J, R>>,
}

// By hand, so that crates above call it and don't write out the drop of each worker.
impl<'a, Q: Query, J: Naming, R: Drop> Drop for Crew<'a, Q, J, R> {
    fn drop(self) {
        let Crew { members: _ } = self;
    }
}

impl<'a, Q: Query, J: Naming, R> Model for Crew<'a, Q, J, R> {
    ghost use Rattle.std.specs.Prelude.{List, ◌<◌};
    ghost use Rattle.mp_threads_member.specs.Members.{MemberState};
    ghost use Rattle.mp_threads_crew.specs.Crews.{AreByNumber};

    ghost Value = { List MemberState };

    ghost view = { λ c. c.members.items };

    ghost invariant = { λ c. (0 < J.job.shape.workers) × AreByNumber J.job.shape.workers c.members.items };
}

impl<'a, Q: Query, J: Naming, R: Copy + Drop> Crew<'a, Q, J, R> {
    /// Workers that have done nothing, and keep no steps. Between each two of them is a mailbox that takes `depth` messages, with
    /// its ends at these two; their seats are at one board. They wait by `rt`. The query's last stage gives rows alone.
    /// `AllocError`: no memory.
    pub fn open(
        rt: R,
        alloc: Global,
        job: &'a Job<Q>,
        depth: u32,
    ) -> Result<Crew<'a, Q, J, R>, AllocError>
        requires run { MayRun (table_of Q.facts J.job) job.now J.job false }
        requires depth { 0 < depth }
        ensures new { IfOk result (λ crew. IsNewCrew J.job.shape.workers depth false crew) }
    {
        let paced = false;
        let keeps = false;
        let plan = RunPlan {
            depth,
            paced,
            keeps,
        };
        Crew::open_by(rt, alloc, job, plan)
    }

    /// As [`Crew::open`], with control records that are paced.
    pub fn open_paced(
        rt: R,
        alloc: Global,
        job: &'a Job<Q>,
        depth: u32,
    ) -> Result<Crew<'a, Q, J, R>, AllocError>
        requires run { MayRun (table_of Q.facts J.job) job.now J.job true }
        requires depth { 0 < depth }
        ensures new { IfOk result (λ crew. IsNewCrew J.job.shape.workers depth false crew) }
    {
        let paced = true;
        let keeps = false;
        let plan = RunPlan {
            depth,
            paced,
            keeps,
        };
        Crew::open_by(rt, alloc, job, plan)
    }

    /// Workers that have done nothing, for a run by this plan, which says whether they keep their steps. Between each two of them
    /// is a mailbox of the plan's depth. `AllocError`: no memory.
    pub fn open_by(
        rt: R,
        alloc: Global,
        job: &'a Job<Q>,
        plan: RunPlan,
    ) -> Result<Crew<'a, Q, J, R>, AllocError>
        requires run { MayRun (table_of Q.facts J.job) job.now J.job plan.paced }
        requires depth { 0 < plan.depth }
        ensures new { IfOk result (λ crew. IsNewCrew J.job.shape.workers plan.depth plan.keeps crew) }
    {
        let board = Board::open(alloc, job)?;
        let seen = board.seen();
        let count = job.shape().workers;
        let hubs = open_hubs(alloc, board, count)?;
        let posts = ruled_posts(rt, alloc, count, plan.depth)?;
        let workers = new_workers(alloc, job, seen, plan)?;
        let members = new_members(alloc, workers, posts, hubs)?;
        Ok(Crew { members })
    }
}

impl<'a, Q: Query, J: Naming, R> Crew<'a, Q, J, R> {
    /// The workers, by their numbers: all that the job has, and one at least.
    pub fn into_members(self) -> Vec<Member<'a, Q, J, R>>
        ensures members { result.items ≡ self.entry }
        ensures some { 0 < length result.items }
        ensures numbers { AreByNumber J.job.shape.workers result.items }
    {
        let Crew { members } = self;
        members
    }
}

// Each worker with the post and the way to the board of its number.
fn new_members<'a, Q: Query, J: Naming, R: Drop>(
    alloc: Global,
    workers: Vec<Worker<'a, Q, J>>,
    posts: Vec<RuledPost<Msg<Q, J>, R>>,
    hubs: Vec<SeatHub<OutlineOf<Q, J>>>,
) -> Result<Vec<Member<'a, Q, J, R>>, AllocError>
    requires parts { ArePartsOf (outline_of (table_of Q.facts J.job) J.job) workers.items posts.items hubs.items }
    ensures numbers { IfOk result (λ members. AreByNumber J.job.shape.workers members.items) }
    ensures start { IfOk result (λ members. All HasDoneNothing members.items) }
    ensures made { IfOk result (λ members. IsMadeOf workers.entry.items posts.items hubs.items members.items) }
{
    let count = workers.len();
    let mut members = Vec::with_capacity(alloc, count)?;
    let mut workers = VecDeque::from_vec(workers);
    let mut posts = VecDeque::from_vec(posts);
    let mut hubs = VecDeque::from_vec(hubs);
    for _number in 0..count {
        let Some(worker) = workers.pop_front() else {
            unreachable!()
        };
        let Some(post) = posts.pop_front() else {
            unreachable!()
        };
        let Some(hub) = hubs.pop_front() else {
            unreachable!()
        };
        members.push_reserved(Member::new(worker, post, hub));
    }
    Ok(members)
}
