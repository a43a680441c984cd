//! A worker with its ends of the mailboxes and its way to the board.
ghost use Rattle.std.specs.Prelude.{◌≡◌, ◌≤◌, ℕ, [], ◌∷◌, Some, is_some, length};
ghost use Rattle.mp_names.specs.Logs.{empty_log};
ghost use Rattle.mp_outline.specs.JobOutline.{outline_of};
ghost use Rattle.mp_ruled.specs.Posts.{RuledStands};
ghost use Rattle.mp_threads_hub.specs.Hubs.{IsSeatOf};
ghost use Rattle.mp_model.specs.Tables.{table_of};

use mp_board::OutlineOf;
use mp_model::{Naming, Query};
use mp_msg::Msg;
use mp_ruled::RuledPost;
use mp_threads_hub::SeatHub;
use mp_worker::Worker;
use std::marker::Model;

/// A worker, its ends of the mailboxes, and its seat at the board. It may go to a thread. Contracts see all three. By its
/// invariant the ends stand for what the worker's log has as sent and taken, and the seat has what it posted last.
pub struct Member<'a, Q: Query, J: Naming, R> {
    pub(crate) worker: Worker<'a, Q, J>,
    pub(crate) post: RuledPost<Msg<Q, J>, R>,
    pub(crate) hub: SeatHub<OutlineOf<Q, J>>,
    // Whether the worker applied as many groups of a stage as a round may, and has taken in no more records since.
    pub(crate) is_behind: bool,
}

// By hand, so that crates above call it and don't write out the drop of each field.
impl<'a, Q: Query, J: Naming, R: Drop> Drop for Member<'a, Q, J, R> {
    fn drop(self) {
        let Member {
            worker: _,
            post: _,
            hub: _,
            is_behind: _,
        } = self;
    }
}

impl<'a, Q: Query, J: Naming, R> Model for Member<'a, Q, J, R> {
    ghost use Rattle.mp_outline.specs.JobOutline.{outline_of};
    ghost use Rattle.mp_threads_member.specs.Members.{IsMember, MemberState};
    ghost use Rattle.mp_model.specs.Tables.{table_of};

    ghost Value = { MemberState };

    ghost view = { λ m. record { worker = m.worker; post = m.post; hub = m.hub } };

    ghost invariant = { λ m.
        IsMember (outline_of (table_of Q.facts J.job) J.job) (record { worker = m.worker; post = m.post; hub = m.hub }) };
}

impl<'a, Q: Query, J: Naming, R> Member<'a, Q, J, R> {
    /// A worker that has done nothing, with its ends of mailboxes that nothing went through, and its seat at a board on
    /// which it posted the empty log.
    pub fn new(
        worker: Worker<'a, Q, J>,
        post: RuledPost<Msg<Q, J>, R>,
        hub: SeatHub<OutlineOf<Q, J>>,
    ) -> Member<'a, Q, J, R>
        requires begins { (worker.log ≡ empty_log) × (worker.posted ≡ empty_log) }
        requires ends { (post.worker ≡ worker.number) × (length post.senders ≡ J.job.shape.workers) }
        requires no_mail { (from to : ℕ) → RuledStands (λ xs. xs) post from to [] [] }
        requires seat { IsSeatOf (outline_of (table_of Q.facts J.job) J.job) hub worker.number }
        requires row { hub.row ≡ Some empty_log }
        requires version { worker.seen.version ≤ hub.version }
        ensures worker { result.worker ≡ worker.entry }
        ensures post { result.post ≡ post }
        ensures hub { result.hub ≡ hub }
    {
        Member {
            worker,
            post,
            hub,
            is_behind: false,
        }
    }

    /// The worker's number.
    pub fn number(&self) -> u32
        ensures { result ≡ self.now.worker.number }
    {
        self.worker.number()
    }

    /// Whether the worker keeps its steps.
    pub fn keeps_steps(&self) -> bool
        ensures { result ≡ is_some self.now.worker.steps }
    {
        self.worker.keeps_steps()
    }

    /// From now on the worker keeps each step that it makes. It has made none.
    pub fn keep_steps(&mut self)
        requires log { self.old.worker.log ≡ empty_log }
        requires version { self.old.worker.seen.version ≡ 0 }
        ensures { self.new ≡ record self.old { worker = record self.old.worker { steps = Some [] } } }
    {
        self.worker.keep_steps();
    }

    /// The worker, without its ends and its seat.
    pub fn into_worker(self) -> Worker<'a, Q, J>
    where
        R: Drop,
        ensures { result ≡ self.entry.worker }
    {
        let Member {
            worker,
            post: _,
            hub: _,
            is_behind: _,
        } = self;
        worker
    }
}
