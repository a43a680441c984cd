//! What holds of the answer rows of every job of a query, as the contract of a function that does nothing.
ghost use Rattle.std.specs.Prelude.{All};
ghost use Rattle.mp_model.specs.Facts.{JobFacts};
ghost use Rattle.mp_model.specs.Stages.{answer_rows};
ghost use Rattle.mp_model.specs.Tables.{table_of};
ghost use Rattle.mp_output.specs.Rows.{GivesRows, IsRow};

use mp_model::Query;

/// Where the last stage of a query gives rows alone, each answer row holds a row, and so can be sent as one.
pub fn answer_rows_are_rows<Q: Query>()
    ensures { (job : JobFacts) → let q = table_of Q.facts job in
        GivesRows q → All (λ row. IsRow row.value) (answer_rows q job.events) }
{}
