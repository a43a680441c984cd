//! What the work that is left tells, the contract of a function that does nothing.
ghost use Rattle.mp_player_laws.specs.WorkLeft.{EndIsNoWorkLeft, NothingLeftIsDone, StepsDoWork, WorkLeftShowsFrontiers};

/// The frontiers of legal logs can be read from what is left to do, which only falls: no counts of what was sent less what
/// was taken, and of what waits at hosts, are needed.
pub fn work_left_shows_frontiers()
    ensures done { NothingLeftIsDone }
    ensures falls { StepsDoWork }
    ensures shown { WorkLeftShowsFrontiers }
    ensures end { EndIsNoWorkLeft }
{}
