//! What holds of a query's table in any job, each law the contract of a function that does nothing.
ghost use Rattle.mp_model.specs.Facts.{JobFacts};
ghost use Rattle.mp_model.specs.TableLaws.{TableKeepsLaws, WholeJobsHaveTheQuery};
ghost use Rattle.mp_model.specs.Tables.{table_of};

use crate::Query;

/// The table of a query in a job keeps to what the query keeps to; in a job without a stop time and a saved state it is
/// the query's own.
pub fn tables_keep_laws<Q: Query>()
    ensures laws { (job : JobFacts) → TableKeepsLaws (table_of Q.facts job) }
    ensures whole { WholeJobsHaveTheQuery Q.facts }
{}
