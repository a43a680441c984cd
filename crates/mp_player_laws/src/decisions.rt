//! What decides the steps of a run, the contract of a function that does nothing.
ghost use Rattle.mp_player_laws.specs.Decisions.{AlwaysSendInOrder, WorkLeftDecides};

/// In every run a group is applied, a packet leaves, a time is settled, a row is sent and a time is written by what the worker
/// has still to do, in a fixed order, and by the frontiers that it saw: what waits at a worker needn't be known.
pub fn work_left_decides()
    ensures sent { AlwaysSendInOrder }
    ensures decided { WorkLeftDecides }
{}
