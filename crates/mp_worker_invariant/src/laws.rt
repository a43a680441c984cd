//! The laws of the parts of a worker, each the contract of a function that does nothing.
ghost use Rattle.std.specs.Prelude.{ℕ, List};
ghost use Rattle.mp_names.specs.declared.names.Name.{Name};
ghost use Rattle.mp_names.specs.declared.names.Name.TheVariants.{Group};
ghost use Rattle.mp_names.specs.Keeping.{IsWaiting};
ghost use Rattle.mp_names.specs.Logs.{Log, LogIsLegal};
ghost use Rattle.mp_model.specs.Facts.{JobFacts};
ghost use Rattle.mp_model.specs.Tables.{table_of};
ghost use Rattle.mp_job.specs.Legal.{JobIsLegal};
ghost use Rattle.mp_outline.specs.JobOutline.{outline_of};
ghost use Rattle.mp_worker_invariant.specs.Laws.{ConditionsAgree, ConditionsAreTold, FirstRowsAreSent, GroupsHandOn, HostsStay, OutputsGoInTurn, RoutersStay, SeenStaysDone, SharesAreIngested, StepsAlwaysStayLegal, UnsentRowsStay, UnwrittenStay};
ghost use Rattle.mp_worker_invariant.specs.Kept.{PartsAreAsked, PartsBegin, StepsAlwaysKeepParts};
ghost use Rattle.mp_worker_invariant.specs.Parts.{ArePartsOf, Parts};

use mp_model::Query;

/// Each part holds what the log says of its own, so it stays where the log grows by anything else.
pub fn parts_hear_their_own<Q: Query>()
    ensures hosts { (job : JobFacts) → HostsStay (table_of Q.facts job) job }
    ensures routers { (job : JobFacts) (w : ℕ) (rest : List Name) → RoutersStay (table_of Q.facts job) job w rest }
    ensures unsent { (job : JobFacts) (w : ℕ) (rest : List Name) → UnsentRowsStay (table_of Q.facts job) job w rest }
    ensures unwritten { UnwrittenStay }
    ensures seen { (job : JobFacts) → SeenStaysDone (table_of Q.facts job) job }
{}

/// A worker ingests the records of its share in their order, and each is one more for the router of stage 0.
pub fn shares_are_ingested<Q: Query>()
    ensures { (job : JobFacts) (w : ℕ) (log : Log) → let q = table_of Q.facts job in
        JobIsLegal q job → LogIsLegal (outline_of q job) w log → SharesAreIngested q job w log }
{}

/// A group that is applied gives records of the next stage, or in the last one rows of the answer; the router of that
/// stage, or the rows that are to be sent, have just these more to hold.
pub fn groups_hand_on<Q: Query>()
    ensures { (job : JobFacts) (w : ℕ) (log : Log) (j t k : ℕ) → let q = table_of Q.facts job in
        JobIsLegal q job → LogIsLegal (outline_of q job) w log → IsWaiting (outline_of q job) w log j (Group j t k) → GroupsHandOn q job w log j t k }
{}

/// The outputs of a group are handed on one after the other.
pub fn outputs_go_in_turn<Q: Query>()
    ensures { (job : JobFacts) → OutputsGoInTurn (table_of Q.facts job) job }
{}

/// Of answer rows that are to be sent the first by time and tag is the least by the log, and gone once it is sent.
pub fn rows_are_sent<Q: Query>()
    ensures { (job : JobFacts) (w : ℕ) (log : Log) → FirstRowsAreSent (table_of Q.facts job) job w log }
{}

/// A worker begins with parts that hold nothing, as its empty log says.
pub fn parts_begin<Q: Query>()
    ensures { (job : JobFacts) → PartsBegin (table_of Q.facts job) job }
{}

/// What the parts of a worker know where one of them is asked.
pub fn parts_are_asked<Q: Query>()
    ensures { (job : JobFacts) (p : Parts Q.Cell) → let q = table_of Q.facts job in JobIsLegal q job → ArePartsOf q job p → PartsAreAsked q job p }
{}

/// Each step keeps the log of its worker legal, by what the parts say of it.
pub fn steps_stay_legal<Q: Query>()
    ensures { (job : JobFacts) → let q = table_of Q.facts job in JobIsLegal q job → StepsAlwaysStayLegal q job }
{}

/// The parts say which steps of the machine their worker can make.
pub fn conditions_are_told<Q: Query>()
    ensures told { (job : JobFacts) (p : Parts Q.Cell) → let q = table_of Q.facts job in
        JobIsLegal q job → ArePartsOf q job p → ConditionsAreTold q job p }
    ensures agree { ConditionsAgree }
{}

/// Each step of a worker keeps its parts what its log says: where those that the step is of are so, all others are.
pub fn steps_keep_parts<Q: Query>()
    ensures { (job : JobFacts) → let q = table_of Q.facts job in JobIsLegal q job → StepsAlwaysKeepParts q job }
{}
