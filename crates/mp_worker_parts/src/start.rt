//! The parts of a worker that begins.
ghost use Rattle.std.specs.Prelude.{◌≡◌, ◌<◌, ℕ, IfOk, length, replicate};
ghost use Rattle.mp_names.specs.Logs.{empty_log};
ghost use Rattle.mp_job.specs.Runs.{IsRunOf};
ghost use Rattle.mp_controller.specs.Controlling.{IsNew};
ghost use Rattle.mp_board.specs.Boards.{ShowsFrontiers};
ghost use Rattle.mp_outline.specs.JobOutline.{outline_of};
ghost use Rattle.mp_output.specs.Rows.{GivesRows};
ghost use Rattle.mp_worker_invariant.specs.Parts.{AreMoversAt, AtEach, IsHostAt, IsRouterAt};
ghost use Rattle.mp_worker_parts.specs.Contents.{new_worker};
ghost use Rattle.mp_model.specs.Tables.{table_of};

use crate::Parts;
use crate::lists::ChangeLists;
use mp_bins::Owners;
use mp_controller::Controller;
use mp_handoff::Movers;
use mp_host::Host;
use mp_job::Job;
use mp_model::{Naming, Query};
use mp_output::{Rows, Unsent};
use mp_route::Router;
use mp_rows::Log;
use mp_stamps::Seen;
use std::alloc::{AllocError, Global};
use std::snapshot::Snapshot;

impl<'a, Q: Query, J: Naming> Parts<'a, Q, J> {
    /// The parts of a worker that has done nothing, of a run of the job that is paced or not. It has seen what the board shows
    /// on which every worker posted its empty log. `AllocError`: no memory.
    pub fn new(
        alloc: Global,
        job: &'a Job<Q>,
        number: u32,
        seen: Seen,
        paced: bool,
    ) -> Result<Parts<'a, Q, J>, AllocError>
        requires job { IsRunOf job.now J.job }
        requires pace { J.job.paced ≡ paced }
        requires number { number < J.job.shape.workers }
        requires rows { GivesRows (table_of Q.facts J.job) }
        requires opening { ShowsFrontiers (outline_of (table_of Q.facts J.job) J.job) (replicate J.job.shape.workers empty_log) seen }
        ensures { IfOk result (λ parts. parts.worker ≡ new_worker number seen) }
    {
        let shape = job.shape();
        let log = Log::open(alloc, number);
        let posted = Snapshot::of(&log);
        let owners = Owners::with_firsts(alloc, shape, job.firsts())?;
        let controller = new_controller(alloc, job, number, paced)?;
        let routers = new_routers(alloc, shape.stages)?;
        let hosts = new_hosts(alloc, job, number)?;
        let movers = new_movers(alloc, shape.stages, number)?;
        let parts = Parts {
            alloc,
            job,
            log,
            posted,
            seen,
            owners,
            controller,
            routers,
            hosts,
            movers,
            unsent: Unsent::new(alloc),
            rows: Rows::new(alloc),
            lists: ChangeLists::new(alloc),
        };
        Ok(parts)
    }
}

// The controller of a worker, which has sent nothing: on worker 0 of the job's control records, else of none.
fn new_controller<'a, Q: Query>(
    alloc: Global,
    job: &'a Job<Q>,
    worker: u32,
    paced: bool,
) -> Result<Controller<'a>, AllocError>
    ensures { IfOk result (λ c. worker ≡ 0 → IsNew paced job.now c) }
{
    if worker != 0 {
        return Ok(Controller::idle(alloc, job));
    }
    if paced {
        Controller::new(alloc, job)
    } else {
        Controller::in_list_order(alloc, job)
    }
}

// The routers of all stages, which hold nothing.
fn new_routers<Q: Query, J: Naming>(
    alloc: Global,
    stages: u32,
) -> Result<Vec<Router<Q, J>>, AllocError>
    requires { stages ≡ J.job.shape.stages }
    ensures all { IfOk result (λ v. length v.items ≡ stages) }
    ensures each { IfOk result (λ v. (w : ℕ) → AtEach v.items (IsRouterAt (table_of Q.facts J.job) J.job w empty_log)) }
{
    let mut routers = Vec::new(alloc);
    for stage in 0..stages {
        routers.push(Router::new(alloc, stage))?;
    }
    Ok(routers)
}

// The hosts of all stages on a worker, which have received nothing.
fn new_hosts<'a, Q: Query, J: Naming>(
    alloc: Global,
    job: &'a Job<Q>,
    worker: u32,
) -> Result<Vec<Host<'a, Q, J>>, AllocError>
    requires job { IsRunOf job.now J.job }
    requires worker { worker < J.job.shape.workers }
    ensures all { IfOk result (λ v. length v.items ≡ J.job.shape.stages) }
    ensures each { IfOk result (λ v. AtEach v.items (IsHostAt (table_of Q.facts J.job) J.job worker empty_log)) }
{
    let mut hosts = Vec::new(alloc);
    for stage in 0..job.shape().stages {
        hosts.push(Host::new(alloc, stage, worker, job)?)?;
    }
    Ok(hosts)
}

// The movers of all stages on a worker, which have noted and sent nothing.
fn new_movers<Q: Query, J: Naming>(
    alloc: Global,
    stages: u32,
    worker: u32,
) -> Result<Vec<Movers<Q, J>>, AllocError>
    requires stages { stages ≡ J.job.shape.stages }
    requires worker { worker < J.job.shape.workers }
    ensures all { IfOk result (λ v. length v.items ≡ J.job.shape.stages) }
    ensures each { IfOk result (λ v. AtEach v.items (AreMoversAt (table_of Q.facts J.job) J.job worker empty_log)) }
{
    let mut movers = Vec::new(alloc);
    for stage in 0..stages {
        movers.push(Movers::new(alloc, stage, worker))?;
    }
    Ok(movers)
}
