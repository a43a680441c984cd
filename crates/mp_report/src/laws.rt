//! What holds of the reports of every job, as the contract of a function that does nothing.
ghost use Rattle.mp_model.specs.Facts.{JobFacts};
ghost use Rattle.mp_model.specs.Tables.{table_of};
ghost use Rattle.mp_report.specs.Report.{JobHasOneReport};

use mp_model::Query;

/// A job has one report: no run, number of steps or order of them is in it.
pub fn reports_are_one<Q: Query>()
    ensures { (job : JobFacts) → JobHasOneReport (table_of Q.facts job) job }
{}
