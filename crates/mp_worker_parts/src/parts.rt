//! The parts of a worker.
ghost use Rattle.std.specs.Prelude.{◌≡◌, ◌<◌, IfOk};
ghost use Rattle.mp_model.specs.Tables.{table_of};
ghost use Rattle.mp_machine.specs.Promises.{LogIsFull};
ghost use Rattle.mp_outline.specs.JobOutline.{outline_of};
ghost use Rattle.mp_msg.specs.LastStates.{AreStatesOf};

use crate::last::states_of;
use crate::lists::ChangeLists;
use mp_bins::Owners;
use mp_controller::Controller;
use mp_handoff::Movers;
use mp_host::Host;
use mp_job::Job;
use mp_model::{Naming, Query};
use mp_msg::BinState;
use mp_output::{Rows, Unsent};
use mp_route::Router;
use mp_rows::{Log, OutlineOf};
use mp_stamps::Seen;
use std::alloc::{AllocError, Global};
use std::marker::Model;
use std::snapshot::Snapshot;

/// The parts of a worker of a run J of a job of the query Q, with its log and what it saw: what a step may change. Contracts see
/// `Contents`: the worker as its own contracts have it, and what the parts hold and have room for. By its invariant they
/// hold what the log says, so a step's contract says what becomes of the log. The query's last stage gives rows alone.
/// Fields are public for the kinds of step of the crates above: whoever changes one has to prove the invariant again.
pub struct Parts<'a, Q: Query, J: Naming> {
    /// Where its memory comes from.
    pub alloc: Global,
    /// The job that J is a run of.
    pub job: &'a Job<Q>,
    /// The worker's log.
    pub log: Log<OutlineOf<Q, J>>,
    /// The log that it posted last; no more than proofs see.
    pub posted: Snapshot<Log<OutlineOf<Q, J>>>,
    /// What it saw at its last exchange.
    pub seen: Seen,
    /// The control records that it took.
    pub owners: Owners,
    /// On worker 0 the control records that it has to send.
    pub controller: Controller<'a>,
    /// The records that it has to send, by stage.
    pub routers: Vec<Router<Q, J>>,
    /// What it hosts, by stage.
    pub hosts: Vec<Host<'a, Q, J>>,
    /// What it has to hand off, by stage.
    pub movers: Vec<Movers<Q, J>>,
    /// The answer rows of its own groups.
    pub unsent: Unsent<Q, J>,
    /// The answer rows that it took, on worker 0.
    pub rows: Rows<Q, J>,
    /// For the next packet that it takes, and the next group that it applies.
    pub lists: ChangeLists,
    ghost posted_once: { log.posted ≡ posted.value.log },
}

// By hand, so that crates above call it and don't write out the drop of each field.
impl<'a, Q: Query, J: Naming> Drop for Parts<'a, Q, J> {
    fn drop(self) {
        let Parts {
            alloc: _,
            job: _,
            log: _,
            posted: _,
            seen: _,
            owners: _,
            controller: _,
            routers: _,
            hosts: _,
            movers: _,
            unsent: _,
            rows: _,
            lists: _,
        } = self;
    }
}

impl<'a, Q: Query, J: Naming> Model for Parts<'a, Q, J> {
    ghost use Rattle.std.specs.Prelude.{None};
    ghost use Rattle.mp_worker_parts.specs.Contents.{Contents};
    ghost use Rattle.mp_worker_parts.specs.Kept.{IsKept, parts_with};
    ghost use Rattle.mp_model.specs.Tables.{table_of};

    ghost Value = { Contents Q.Cell };

    ghost view = { λ p. record {
      worker = record { number = p.log.worker; log = p.log.log; posted = p.posted.value.log; seen = p.seen; steps = None };
      names = p.log.room_for_names;
      changes = p.log.room_for_changes;
      notes = p.owners;
      routers = p.routers.items;
      hosts = p.hosts.items;
      movers = p.movers.items;
      unsent = p.unsent;
      unwritten = p.rows;
      lists = p.lists;
    } };

    ghost invariant = { λ p.
        IsKept (table_of Q.facts J.job) J.job p.job.now
        (parts_with p.log p.posted.value.log p.seen p.owners p.controller p.routers.items p.hosts.items p.movers.items p.unsent p.rows) };
}

impl<'a, Q: Query, J: Naming> Parts<'a, Q, J> {
    /// The states of the bins that the worker owns at the end of the job, each with its stage, by stage: what each bin has
    /// just before the stop time, or after all where there is none. The worker has done all that it has to do; its parts
    /// are done with. `AllocError`: no memory, and the states are gone.
    pub fn into_states(self, alloc: Global) -> Result<Vec<(u32, BinState<Q::Cell>)>, AllocError>
        requires { let o = outline_of (table_of Q.facts J.job) J.job in LogIsFull o self.worker.number self.worker.log }
        ensures { IfOk result (λ states.
            AreStatesOf (table_of Q.facts J.job) J.job self.entry.worker.number states.items) }
    {
        let Parts {
            alloc: _,
            job: _,
            log: _,
            posted: _,
            seen: _,
            owners: _,
            controller: _,
            routers: _,
            hosts,
            movers: _,
            unsent: _,
            rows: _,
            lists: _,
        } = self;
        states_of(alloc, hosts)
    }
}
