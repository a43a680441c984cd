//! What the workers keep of their steps.
ghost use Rattle.std.specs.Prelude.{◌≡◌, ℕ, [], All, IfOk, IsSome, List, map, unwrap_or};
ghost use Rattle.mp_model.specs.Tables.{table_of};
ghost use Rattle.mp_names.specs.Logs.{empty_log};
ghost use Rattle.mp_outline.specs.JobOutline.{outline_of};
ghost use Rattle.mp_worker_refinement.specs.State.{WorkerState};
ghost use Rattle.mp_plain.specs.Driven.{IsJournalOf};
ghost use Rattle.mp_plain.specs.Journals.{HasMadeNone, all_keeping, journal_at, keeping};

use crate::Plain;
use mp_model::{Naming, Query};
use mp_names::Kept;
use mp_worker::Worker;
use std::alloc::{AllocError, Global};

impl<'a, Q: Query, J: Naming> Plain<'a, Q, J> {
    /// From now on each worker keeps the steps that it makes. None was made before. It takes no memory; each step then
    /// takes some.
    pub fn keep_steps(&mut self)
        requires none_made { self.old.made ≡ 0 }
        ensures { self.new ≡ record self.old { state = all_keeping self.old.state } }
    {
        keep_all(self.workers.as_mut_slice());
    }

    /// The steps that a worker has kept, in its order: those that it made of a run that leads here. None where it keeps
    /// none, as of a worker that the job hasn't.
    pub fn kept(&self, worker: u32) -> &[Kept]
        ensures kept { result.now ≡ unwrap_or (journal_at self.now.state worker) [] }
        ensures run { let o = outline_of (table_of Q.facts J.job) J.job in
            IsSome (journal_at self.now.state worker) → IsJournalOf o self.now.state worker result.now }
    {
        match self.workers.get(worker as usize) {
            Some(worker) => worker.steps(),
            None => &[],
        }
    }
}

/// What each of the workers has kept. `AllocError`: no memory for the list of lists.
pub(crate) fn lists_of<Q: Query, J: Naming>(
    alloc: Global,
    workers: Vec<Worker<'_, Q, J>>,
) -> Result<Vec<Vec<Kept>>, AllocError>
    ensures { IfOk result (λ lists. map (λ kept. kept.items) lists.items ≡ map (λ s. unwrap_or s.steps []) workers.entry.items) }
{
    let mut lists = Vec::with_capacity(alloc, workers.len())?;
    for worker in workers {
        lists.push_reserved(worker.into_steps());
    }
    Ok(lists)
}

// Each of the workers keeps its steps from now on. They have made none.
fn keep_all<Q: Query, J: Naming>(workers: &mut [Worker<'_, Q, J>])
    requires { All HasMadeNone workers.old }
    ensures { workers.new ≡ map keeping workers.old }
{
    for worker in workers.iter_mut() {
        worker.keep_steps();
    }
}
