//! Single ownership in every run, each law the contract of a function that does nothing.

ghost use Rattle.mp_machine.specs.Promises.{BinsAreInOnePlace, ControlsWaitForPackets, GroupsAreAppliedWhole, GroupsWaitAtTheStop, OwnersApply, PacketsLeaveLast, PacketsFollowMoves, PacketsHaveOneTime, UpdatesComeInOrder, OpeningWakesGoWithBins};

/// At every moment each bin has exactly one holder or exactly one packet on its way, never both; and
/// it leaves only when every group of it that its holder owns before the move is applied. Megaphone's
/// handoff.
pub fn bins_are_in_one_place()
    ensures place { BinsAreInOnePlace }
    ensures leave { PacketsLeaveLast }
    ensures order { PacketsFollowMoves }
{}

/// A wake that a job has from the start goes with its bin, so it is in one place too: until its group is
/// applied, the worker that holds the bin has it in hand, and no other does.
pub fn opening_wakes_go_with_bins()
    ensures { OpeningWakesGoWithBins }
{}

/// Each group is applied at most once, by its owner, with its bin in hand, all its records taken and
/// all its owner's lesser groups applied; and all earlier groups of its bin are applied by then, whoever
/// owned the bin. None is applied whose time isn't before the stop time, where there is one.
pub fn groups_are_applied_once()
    ensures whole { GroupsAreAppliedWhole }
    ensures owner { OwnersApply }
    ensures order { UpdatesComeInOrder }
    ensures stop { GroupsWaitAtTheStop }
{}

/// In a paced job the moves of a time end before those of the next begin: where a control record is sent, every packet
/// of a time below its own is taken. So all packets on their way have one time.
pub fn moves_are_paced()
    ensures wait { ControlsWaitForPackets }
    ensures one_time { PacketsHaveOneTime }
{}
