//! What hosts have at the end of a job, as the contract of a function that does nothing.
ghost use Rattle.mp_model.specs.Facts.{JobFacts};
ghost use Rattle.mp_model.specs.Tables.{table_of};
ghost use Rattle.mp_job.specs.Legal.{JobIsLegal};
ghost use Rattle.mp_host_laws.specs.Last.{LastStatesAreHeld};

use mp_model::Query;

/// Once a worker has done all that it has to do, each of its hosts has the states of the bins of its stage that the worker
/// owns at the end of the job, of each bin one, with what the bin has then.
pub fn last_states_are_held<Q: Query>()
    ensures { (job : JobFacts) → let q = table_of Q.facts job in JobIsLegal q job → LastStatesAreHeld q job }
{}
