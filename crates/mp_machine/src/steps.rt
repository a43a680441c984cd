//! What one step of the machine does, each law the contract of a function that does nothing.

ghost use Rattle.mp_machine.specs.Promises.{DidTells, SawTells, NotNowTells, EffectsFollowTurns, StepsFollowConditions, FirstTimesMayGo, LatestTimeDecides, OneNameAtMost, PlacesAreListed, PlacesAreCounted, StepsKeepLogsLegal, ClosedLogsAreFull};

/// A step is made exactly where its condition is true, with the name that the condition gives; where it
/// is false nothing changes. So a run is determined by its list of steps.
pub fn turns_tell_conditions()
    ensures did { DidTells }
    ensures saw { SawTells }
    ensures not_now { NotNowTells }
    ensures one_name { OneNameAtMost }
    ensures effect { EffectsFollowTurns }
    ensures made { StepsFollowConditions }
{}

/// In a paced job a control record waits for one of the earlier control times alone, the latest.
pub fn latest_time_decides()
    ensures first { FirstTimesMayGo }
    ensures later { LatestTimeDecides }
{}

/// The places of the machine, by worker and then in the order in which a worker's round tries the kinds.
pub fn places_are_listed()
    ensures listed { PlacesAreListed }
    ensures counted { PlacesAreCounted }
{}

/// A worker keeps its log legal by what it saw alone, whatever the other workers do.
pub fn steps_keep_logs_legal()
    ensures { StepsKeepLogsLegal }
{}

/// A worker's log is full, so that it has done all that it has to do, where its own part is closed
/// everywhere.
pub fn closed_logs_are_full()
    ensures { ClosedLogsAreFull }
{}
