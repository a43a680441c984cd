//! The board: the logs that the workers posted, the counts and frontiers that they show, and why a worker stopped.
ghost use Rattle.std.specs.Prelude.{◌≡◌, ◌<◌, ◌≤◌, ◌^◌, ◌-◌, suc, None, Some, replicate, slice_set, if◌then◌else◌, IfOk};
ghost use Rattle.std.specs.Option.{unwrap_or};
ghost use Rattle.mp_names.specs.Frontiers.{log_at};
ghost use Rattle.mp_names.specs.Laws.{names_in};
ghost use Rattle.mp_names.specs.Logs.{LogIsLegal, empty_log};
ghost use Rattle.mp_stamps.specs.Seen.{SeenIsDone};
ghost use Rattle.mp_rows.specs.Below.{IsRunOf};
ghost use Rattle.mp_board.specs.Boards.{ShowsFrontiers, version_with};

use crate::causes::Cause;
use crate::opening::{empty_logs, opening_counts};
use crate::passing::give_back_passed;
use crate::totals::add_all;
use mp_rows::{Job, Log, Naming, OutlineOf, Outlined, Query};
use mp_stamps::{Counts, Seen};
use std::alloc::{AllocError, Global};
use std::marker::Model;
use std::snapshot::Snapshot;

/// A board of a job with this outline. Contracts see a `Posted`.
pub struct Board<O: Outlined> {
    // What the workers posted, by their numbers; of it contracts alone see anything.
    logs: Vec<Snapshot<Log<O>>>,
    // How much work these logs show as outstanding, the frontiers of that, and how often one of them has changed.
    counts: Counts,
    seen: Seen,
    stopped: Option<Cause>,
}

// By hand, so that crates above call it and don't write out the drop of each field.
impl<O: Outlined> Drop for Board<O> {
    fn drop(self) {
        let Board {
            logs: _,
            counts: _,
            seen: _,
            stopped: _,
        } = self;
    }
}

impl<O: Outlined> Model for Board<O> {
    ghost use Rattle.std.specs.Prelude.{map};
    ghost use Rattle.mp_board.specs.Boards.{Posted};

    ghost Value = { Posted };

    ghost use Rattle.mp_board.specs.Soundness.{BoardIsSound};

    ghost view = { λ b. record { logs = map (λ l. l.value.log) b.logs.items; version = b.seen.version; stopped = b.stopped } };

    ghost invariant = { λ b. BoardIsSound O.outline (map (λ l. l.value.log) b.logs.items) b.counts b.seen };
}

impl<Q: Query, J: Naming> Board<OutlineOf<Q, J>> {
    /// A board on which every worker of a run of the job posted its empty log. `AllocError`: no memory.
    pub fn open(alloc: Global, job: &Job<Q>) -> Result<Board<OutlineOf<Q, J>>, AllocError>
        requires { IsRunOf job.now J.job }
        ensures logs { IfOk result (λ board. board.logs ≡ replicate J.job.shape.workers empty_log) }
        ensures version { IfOk result (λ board. board.version ≡ 0) }
        ensures cause { IfOk result (λ board. board.stopped ≡ None) }
    {
        let shape = job.shape();
        let counts = opening_counts::<Q, J>(alloc, job)?;
        let logs = empty_logs(alloc, shape.workers)?;
        let seen = Seen::of(shape.stages, 0, &counts);
        Ok(Board {
            logs,
            counts,
            seen,
            stopped: None,
        })
    }
}

impl<O: Outlined> Board<O> {
    /// Posts a worker's log, which has grown from the one that it posted last, and gives what all posted logs show then:
    /// the frontier of each location, as in Naiad's progress protocol, and how often one of these logs has changed. It
    /// takes no memory, and the time that the changes since then need. Frontiers are found anew only where a least time of
    /// outstanding work has moved; what counts they have passed is given back then.
    pub fn exchange(&mut self, worker: u32, log: &mut Log<O>) -> Seen
        requires worker { worker < O.outline.workers }
        requires own { log.old.worker ≡ worker }
        requires legal { LogIsLegal O.outline worker log.old.log }
        requires posted { log_at self.old.logs worker ≡ log.old.posted }
        ensures posted { self.new.logs ≡ slice_set self.old.logs worker log.old.log }
        ensures own_log { log_at self.new.logs worker ≡ log.old.log }
        ensures version { self.new.version ≡ version_with self.old worker log.old.log }
        ensures cause { self.new.stopped ≡ self.old.stopped }
        ensures log { log.new ≡ record log.old { posted = log.old.log } }

        ensures seen_version { result.version ≡ self.new.version }
        ensures frontiers { ShowsFrontiers O.outline self.new.logs result }
        ensures told { SeenIsDone O.outline worker log.old.log result }
    {
        let moved = add_all(&mut self.counts, log.changes());
        let version = next_version(self.seen.version(), log.is_posted());
        log.post();
        self.logs[worker as usize] = Snapshot::of(log);
        self.seen.follow(version, moved, &self.counts);
        give_back_passed(&mut self.counts, moved, &self.seen);
        self.seen
    }

    /// What the posted logs show.
    pub fn seen(&self) -> Seen
        ensures version { result.version ≡ self.now.version }
        ensures frontiers { ShowsFrontiers O.outline self.now.logs result }
        ensures few_versions { result.version ≤ names_in O.outline.workers (log_at self.now.logs) }
    {
        self.seen
    }

    /// Tells why a worker stopped. The first cause is kept.
    pub fn stop(&mut self, cause: Cause)
        ensures cause { self.new.stopped ≡ Some (unwrap_or self.old.stopped cause) }
        ensures logs { self.new.logs ≡ self.old.logs }
        ensures version { self.new.version ≡ self.old.version }
    {
        if self.stopped.is_none() {
            self.stopped = Some(cause);
        }
    }

    /// Why the first worker that stopped did so, if one has.
    pub fn stopped(&self) -> Option<Cause>
        ensures { result ≡ self.now.stopped }
    {
        self.stopped
    }
}

// The version after a log is posted.
fn next_version(version: u64, is_same: bool) -> u64
    requires { version < 2 ^ 64 - 1 }
    ensures { result ≡ (if is_same then version else suc version) }
{
    if is_same { version } else { version + 1 }
}
