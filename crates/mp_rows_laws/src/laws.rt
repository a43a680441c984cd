//! The changes of each kind of step, each law the contract of a function that does nothing.
ghost use Rattle.mp_rows_laws.specs.Laws.{AppliedGroupIsCounted, ComingGroupsAreNumbered, IngestedIsCounted, LeavingGroupsAreNumbered, SentControlIsCounted, SentPacketIsCounted, SentRecordIsCounted, SentRecordsAreCounted, SentRowIsCounted, SettledTimeIsCounted, TakenControlIsCounted, TakenPacketIsCounted, TakenRecordIsCounted, TakenRecordsAreCounted, TakenRowIsCounted, WrittenTimeIsCounted};
ghost use Rattle.mp_rows_laws.specs.Samples.{AuctionIsApplied};

/// An event that is ingested is no longer to come; its record is at the router of stage 0.
pub fn ingested_events_are_counted()
    ensures { IngestedIsCounted }
{}

/// A record that is sent is on its way; one that is taken makes its group wait, unless it waited before.
pub fn records_are_counted()
    ensures sent { SentRecordIsCounted }
    ensures taken { TakenRecordIsCounted }
{}

/// The same of several records of one stage and time, which are counted together.
pub fn bundles_are_counted()
    ensures sent { SentRecordsAreCounted }
    ensures taken { TakenRecordsAreCounted }
{}

/// An answer row that is sent is on its way until it is taken.
pub fn rows_are_counted()
    ensures sent { SentRowIsCounted }
    ensures taken { TakenRowIsCounted }
{}

/// A control record that is sent is on its way; one that is taken makes its time one to be settled, unless it was
/// before.
pub fn controls_are_counted()
    ensures sent { SentControlIsCounted }
    ensures taken { TakenControlIsCounted }
{}

/// A time that is settled is to be settled no longer. Of a time that is written nothing is counted.
pub fn times_are_counted()
    ensures settled { SettledTimeIsCounted }
    ensures written { WrittenTimeIsCounted }
{}

/// A group that is applied waits no longer; the groups that it wakes do, and what it gives is at the router.
pub fn applied_groups_are_counted()
    ensures { AppliedGroupIsCounted }
{}

/// A packet that is sent is on its way, and the wakes of its bin leave with it; where it is taken they come.
pub fn packets_are_counted()
    ensures sent { SentPacketIsCounted }
    ensures taken { TakenPacketIsCounted }
{}

/// At each time as many groups wait no longer once a packet is sent, or wait once it is taken, as a list of them has.
pub fn moved_groups_are_numbered()
    ensures leaving { LeavingGroupsAreNumbered }
    ensures coming { ComingGroupsAreNumbered }
{}

/// There are steps for the laws to speak of: a group that is applied in a legal log, and wakes another.
pub fn a_step_is_there()
    ensures { AuctionIsApplied }
{}
