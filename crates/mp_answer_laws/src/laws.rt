//! The laws of written lines, each the contract of a function that does nothing.
ghost use Rattle.mp_model.specs.Facts.{JobFacts};
ghost use Rattle.mp_model.specs.Tables.{table_of};
ghost use Rattle.mp_job.specs.Legal.{JobIsLegal};
ghost use Rattle.mp_answer_laws.specs.Laws.{FullLogsAnswer, OthersWriteNothing, PartsOfLinesBegin, WritingAddsLines, WrittenLinesBegin};

use mp_model::Query;

/// What a legal log of worker 0 has written is a beginning of the one-thread answer, whatever part of the next lines
/// comes on top; a full log has written all of it.
pub fn answers_go_by_times<Q: Query>()
    ensures begin { (job : JobFacts) → let q = table_of Q.facts job in JobIsLegal q job → WrittenLinesBegin q job }
    ensures part { (job : JobFacts) → let q = table_of Q.facts job in JobIsLegal q job → PartsOfLinesBegin q job }
    ensures all { (job : JobFacts) → let q = table_of Q.facts job in JobIsLegal q job → FullLogsAnswer q job }
{}

/// The step that writes a time adds the lines of that time, and no other step adds any.
pub fn lines_follow_steps<Q: Query>()
    ensures more { (job : JobFacts) → WritingAddsLines (table_of Q.facts job) job }
    ensures none { (job : JobFacts) → OthersWriteNothing (table_of Q.facts job) job }
{}
