//! What each worker has done, once all are finished.
ghost use Rattle.std.specs.Prelude.{◌≡◌, IfOk, is_some, map, true};
ghost use Rattle.mp_job.specs.Runs.{IsRunOf};
ghost use Rattle.mp_model.specs.Tables.{table_of};
ghost use Rattle.mp_outline.specs.JobOutline.{outline_of};
ghost use Rattle.mp_tally.specs.Tallies.{AreTalliesOf, IsTallyOf};
ghost use Rattle.mp_threads_member.specs.Driving.{IsFinished};
ghost use Rattle.mp_journal_laws.specs.Telling.{KeptTellFullLog};
ghost use Rattle.mp_threads_crew.specs.Crews.{AreFinished, AreFinishedKeeping};
ghost use Rattle.mp_threads_crew.specs.Journals.{AreKept, TellFullLogs};

use mp_job::Job;
use mp_model::{Naming, Query};
use mp_names::Kept;
use mp_tally::Tally;
use mp_threads_member::Worker;
use std::alloc::{AllocError, Global};

/// What a run by threads came to, by the workers' numbers.
#[derive(Drop)]
pub struct Ended {
    /// What each worker has done.
    pub tallies: Vec<Tally>,
    /// The steps that each worker kept; empty where the plan keeps none.
    pub kept: Vec<Vec<Kept>>,
}

/// What finished workers tell, with their steps where they keep them. `AllocError`: no memory.
pub fn told_by<Q: Query, J: Naming>(
    alloc: Global,
    job: &Job<Q>,
    workers: Vec<Worker<Q, J>>,
    keeps: bool,
) -> Result<Ended, AllocError>
    requires job { IsRunOf job.now J.job }
    requires finished { AreFinishedKeeping (outline_of (table_of Q.facts J.job) J.job) keeps workers.items }
    ensures tallies { IfOk result (λ run. AreTalliesOf (table_of Q.facts J.job) J.job run.tallies.items) }
    ensures kept { let o = outline_of (table_of Q.facts J.job) J.job in
        IfOk result (λ run. AreKept o keeps (map (λ v. v.items) run.kept.items)) }
{
    let tallies = tallies_of(alloc, job, workers.as_slice())?;
    let kept = kept_by(alloc, workers, keeps)?;
    Ok(Ended { tallies, kept })
}

// The steps of finished workers, where they keep them.
fn kept_by<Q: Query, J: Naming>(
    alloc: Global,
    workers: Vec<Worker<Q, J>>,
    keeps: bool,
) -> Result<Vec<Vec<Kept>>, AllocError>
    requires finished { AreFinishedKeeping (outline_of (table_of Q.facts J.job) J.job) keeps workers.items }
    ensures { let o = outline_of (table_of Q.facts J.job) J.job in
        IfOk result (λ kept. AreKept o keeps (map (λ v. v.items) kept.items)) }
{
    if keeps {
        steps_of(alloc, workers)
    } else {
        Ok(Vec::new(alloc))
    }
}

// The steps that finished workers kept.
fn steps_of<Q: Query, J: Naming>(
    alloc: Global,
    workers: Vec<Worker<Q, J>>,
) -> Result<Vec<Vec<Kept>>, AllocError>
    requires finished { AreFinishedKeeping (outline_of (table_of Q.facts J.job) J.job) true workers.items }
    ensures { IfOk result (λ kept.
        TellFullLogs (outline_of (table_of Q.facts J.job) J.job) (map (λ v. v.items) kept.items)) }
{
    let mut kept = Vec::with_capacity(alloc, workers.len())?;
    for worker in workers {
        kept.push_reserved(steps_in(worker));
    }
    Ok(kept)
}

// Those of one that is finished.
fn steps_in<Q: Query, J: Naming>(worker: Worker<Q, J>) -> Vec<Kept>
    requires finished { IsFinished (outline_of (table_of Q.facts J.job) J.job) worker }
    requires keeps { is_some worker.steps ≡ true }
    ensures { KeptTellFullLog (outline_of (table_of Q.facts J.job) J.job) worker.entry.number result.items }
{
    worker.steps_are_known();
    worker.into_steps()
}

/// What each worker has done. `AllocError`: no memory.
pub(crate) fn tallies_of<Q: Query, J: Naming>(
    alloc: Global,
    job: &Job<Q>,
    workers: &[Worker<Q, J>],
) -> Result<Vec<Tally>, AllocError>
    requires job { IsRunOf job.now J.job }
    requires finished { AreFinished (outline_of (table_of Q.facts J.job) J.job) workers.now }
    ensures { IfOk result (λ tallies. AreTalliesOf (table_of Q.facts J.job) J.job tallies.items) }
{
    let mut tallies = Vec::with_capacity(alloc, workers.len())?;
    for worker in workers {
        tallies.push_reserved(tally_of(alloc, job, worker)?);
    }
    Ok(tallies)
}

// What a worker that is finished has done.
fn tally_of<Q: Query, J: Naming>(
    alloc: Global,
    job: &Job<Q>,
    worker: &Worker<Q, J>,
) -> Result<Tally, AllocError>
    requires job { IsRunOf job.now J.job }
    requires finished { IsFinished (outline_of (table_of Q.facts J.job) J.job) worker.now }
    ensures { IfOk result (λ t. IsTallyOf (table_of Q.facts J.job) J.job worker.now.number t) }
{
    // From here on the job is known to be legal, and the worker's log too.
    let _ = job.shape();
    worker.log_is_known();
    worker.tally(alloc)
}
