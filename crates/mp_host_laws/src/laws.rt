//! The laws of hosts, each the contract of a function that does nothing.
ghost use Rattle.mp_model.specs.Facts.{JobFacts};
ghost use Rattle.mp_model.specs.Tables.{table_of};
ghost use Rattle.mp_job.specs.Legal.{JobIsLegal};
ghost use Rattle.mp_host_laws.specs.Laws.{BinsLeave, BinsReturn, ComingAreTold, FirstIsLeast, FirstIsWhole, GroupsAreHeld, LeavingAreTold, LeavingBinsAreHere, NewHostsHoldTheOpening, PacketsAreHeld, RecordsAreHeld, WaitingAreCounted, WokenAreTold};

use mp_model::Query;

/// A new host, whose bins have the cells and wakes that the job begins with, holds what the empty log says.
pub fn hosts_begin_with_the_opening<Q: Query>()
    ensures { (job : JobFacts) → let q = table_of Q.facts job in JobIsLegal q job → NewHostsHoldTheOpening q job }
{}

/// A host that receives a record holds what its worker's log says with that record taken.
pub fn records_are_held<Q: Query>()
    ensures { (job : JobFacts) → let q = table_of Q.facts job in JobIsLegal q job → RecordsAreHeld q job }
{}

/// What waits at a host is what waits by its worker's log: the first group is the least, and at each time as many wait.
pub fn waiting_groups_are_told<Q: Query>()
    ensures first { (job : JobFacts) → let q = table_of Q.facts job in JobIsLegal q job → FirstIsLeast q job }
    ensures counted { (job : JobFacts) → let q = table_of Q.facts job in JobIsLegal q job → WaitingAreCounted q job }
{}

/// The first group that waits, once all that can come to it has come, is the whole group of the query, and the cell of
/// its key is that of the fold just before it. A host that applies it holds what the log says with that group applied,
/// and the times that wait from then on are told.
pub fn groups_are_held<Q: Query>()
    ensures whole { (job : JobFacts) → let q = table_of Q.facts job in JobIsLegal q job → FirstIsWhole q job }
    ensures held { (job : JobFacts) → let q = table_of Q.facts job in JobIsLegal q job → GroupsAreHeld q job }
    ensures woken { (job : JobFacts) → let q = table_of Q.facts job in JobIsLegal q job → WokenAreTold q job }
{}

/// A bin that has to leave a host is there, and what is taken out is what it has just before its move. The host then holds
/// what the log says with the packet sent, or, where it gets the bin back, what it held.
pub fn bins_leave<Q: Query>()
    ensures here { (job : JobFacts) → let q = table_of Q.facts job in JobIsLegal q job → LeavingBinsAreHere q job }
    ensures left { (job : JobFacts) → let q = table_of Q.facts job in JobIsLegal q job → BinsLeave q job }
    ensures told { (job : JobFacts) → let q = table_of Q.facts job in JobIsLegal q job → LeavingAreTold q job }
    ensures returned { (job : JobFacts) → BinsReturn (table_of Q.facts job) job }
{}

/// A host that is given what a packet brings holds what the log says with that packet taken.
pub fn packets_are_held<Q: Query>()
    ensures held { (job : JobFacts) → let q = table_of Q.facts job in JobIsLegal q job → PacketsAreHeld q job }
    ensures told { (job : JobFacts) → let q = table_of Q.facts job in JobIsLegal q job → ComingAreTold q job }
{}
