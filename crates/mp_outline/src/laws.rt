//! What the outline of every legal job of a query keeps to, each law the contract of a function that does nothing.
ghost use Rattle.mp_names.specs.Outlines.{OutlineIsSound};
ghost use Rattle.mp_model.specs.Facts.{JobFacts};
ghost use Rattle.mp_model.specs.Tables.{table_of};
ghost use Rattle.mp_job.specs.Legal.{JobIsLegal};
ghost use Rattle.mp_outline.specs.JobOutline.{outline_of};
ghost use Rattle.mp_outline.specs.Laws.{GroupsAreOnTimelines, GroupsFollowTags, GroupsHoldNames, NamesTellInputs, NamesTellRecords, RecordsFollowTags, RowsFollowTags, TimelinesRise, WakesAreTimelines};

use mp_model::Query;

/// The outline of every legal job of a query is sound, so all that is proved of the protocol holds for it.
pub fn outlines_are_sound<Q: Query>()
    ensures { (job : JobFacts) → let q = table_of Q.facts job in JobIsLegal q job → OutlineIsSound (outline_of q job) }
{}

/// The name of a record tells which one it is: in stage 0 that of the event at its tag's index; in each stage no two
/// have one time and tag. Records and answer rows of one time stand in the order of their tags.
pub fn names_tell_records<Q: Query>()
    ensures inputs { (job : JobFacts) → let q = table_of Q.facts job in JobIsLegal q job → NamesTellInputs q job }
    ensures one { (job : JobFacts) → NamesTellRecords (table_of Q.facts job) job }
    ensures records_in_order { (job : JobFacts) → RecordsFollowTags (table_of Q.facts job) job }
    ensures rows_in_order { (job : JobFacts) → RowsFollowTags (table_of Q.facts job) job }
{}

/// The groups of an outline are those on the timelines of its keys, and are woken where those are. A timeline holds the
/// group of each of its times once, in the order of time.
pub fn groups_are_on_timelines<Q: Query>()
    ensures groups { (job : JobFacts) → let q = table_of Q.facts job in JobIsLegal q job → GroupsAreOnTimelines q job }
    ensures wakes { (job : JobFacts) → let q = table_of Q.facts job in JobIsLegal q job → WakesAreTimelines q job }
    ensures timelines { (job : JobFacts) → TimelinesRise (table_of Q.facts job) job }
{}

/// A group holds the records whose names have its time and key, in the order of their tags.
pub fn groups_hold_names<Q: Query>()
    ensures names { (job : JobFacts) → GroupsHoldNames (table_of Q.facts job) job }
    ensures in_order { (job : JobFacts) → GroupsFollowTags (table_of Q.facts job) job }
{}
