//! What holds of the routers of every job of a query, as the contract of a function that does nothing.
ghost use Rattle.mp_model.specs.Facts.{JobFacts};
ghost use Rattle.mp_model.specs.Tables.{table_of};
ghost use Rattle.mp_route.specs.Laws.{HeldAreCounted};

use mp_model::Query;

/// A router that holds what is unsent by the log of its worker holds as many records of a time as that log adds to the
/// count of the router's location.
pub fn held_records_are_counted<Q: Query>()
    ensures { (job : JobFacts) → HeldAreCounted (table_of Q.facts job) job }
{}
