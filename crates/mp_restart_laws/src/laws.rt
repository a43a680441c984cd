//! The laws of jobs that stop at a time, are saved, and go on from there, each the contract of a function that does nothing.
ghost use Rattle.std.specs.Prelude.{ℕ, List};
ghost use Rattle.mp_restart_laws.specs.Laws.{CheckpointsAreOne, CheckpointsSayWhatIsLeft, RestartsGiveTheAnswer, RestartsGiveTheRest, StopsGiveTheBeginning, TwoJobsGiveTheAnswer};

use mp_model::Query;

/// A job that stops at a time has, in each stage, the records of the whole job below that time, and its rows below it; the
/// cells just before that time, and the wakes that are left there, are those of the whole job.
pub fn stops_give_the_beginning<Q: Query>()
    ensures { StopsGiveTheBeginning Q.facts }
{}

/// A job that goes on from what events leave at a time has the rows of the answer from that time on. So the lines of the
/// answer below that time, and then the lines of that job, are the whole answer; and so are the lines of two jobs, of which
/// the first stops at that time and the second goes on from what the first leaves.
pub fn restarts_give_the_rest<Q: Query>()
    ensures rest { RestartsGiveTheRest Q.facts }
    ensures all { RestartsGiveTheAnswer Q.facts }
    ensures both { TwoJobsGiveTheAnswer Q.facts }
{}

/// A checkpoint that holds what is left at its time says it as the state that a job goes on from, where its cells may be
/// saved; and no other checkpoint of that time does that stands in order and has no fresh cell.
pub fn checkpoints_say_what_is_left<Q: Query>()
    ensures say { (vs : List ℕ) → CheckpointsSayWhatIsLeft Q.text_of (Q.facts vs) }
    ensures one { (vs : List ℕ) → CheckpointsAreOne (Q.facts vs) }
{}
