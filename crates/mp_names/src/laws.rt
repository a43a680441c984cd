//! The laws of the theory, each the contract of a function that does nothing: its statement is proved
//! for every outline of a job and all logs.

ghost use Rattle.std.specs.Prelude.{◌≡◌};
ghost use Rattle.mp_names.specs.Laws.{FrontiersAreExact, FrontiersExist, FrontiersAreUnique, FrontiersNeverGoBack, FrontiersTellEachWorker, TableIsRight, OwnersFollowControls, MovesAreListed, OwedNamesAreListed, GroupsAreListed, OpeningWakesAreInHand, ControlTimesAreListed, AnswerTimesAreListed, EmptyLogsAreLegal, LogsStayLegal, LogsAreBounded, FinishedLogsAreFull};
ghost use Rattle.mp_names.specs.Keeping.{LeastGroupIsWhole};
ghost use Rattle.mp_names.specs.Outlines.{name_count};
ghost use Rattle.mp_names.specs.Samples.{TwoMovesAreSound, StoppedMovesAreSound, CountsCancel, MovesHoldFrontiersBack, three_bids, wake_moves, stopped_moves, OpeningWakeGoesOn, wake_goes_on};

/// The frontier that the posted logs show has passed a time exactly where all work up to it is done,
/// if each of them is legal by itself. Naiad's safety of the progress protocol, here for logs from
/// different moments, whose counts may cancel.
pub fn frontiers_are_exact()
    ensures exact { FrontiersAreExact }
    ensures exist { FrontiersExist }
    ensures unique { FrontiersAreUnique }
    ensures never_back { FrontiersNeverGoBack }
    ensures own_part { FrontiersTellEachWorker }
{}

/// What could result in what is a path in the dataflow, and the table that tests it is right.
pub fn locations_reach_along_paths()
    ensures { TableIsRight }
{}

/// Who owns a bin, and when it moves, is what the list of control records says.
pub fn owners_follow_controls()
    ensures owners { OwnersFollowControls }
    ensures moves { MovesAreListed }
{}

/// What a job's workers have to do is finite: the names to be sent, the groups to be applied, the times
/// to be settled and written are listed, each once.
pub fn work_is_listed()
    ensures owed { OwedNamesAreListed }
    ensures groups { GroupsAreListed }
    ensures control_times { ControlTimesAreListed }
    ensures answer_times { AnswerTimesAreListed }
{}

/// What a worker puts into its log next keeps the log legal, by conditions on that log alone.
pub fn logs_stay_legal()
    ensures empty { EmptyLogsAreLegal }
    ensures next { LogsStayLegal }
{}

/// The least group that waits can be applied: all its records are there, its wake is known, its bin is
/// in hand. Of a later group that waits this need not hold.
pub fn least_group_is_whole()
    ensures { LeastGroupIsWhole }
{}

/// There are outlines for the laws to speak of: one with a move in each of two stages, and a wake that
/// each of them carries to the new owner; and one with a stop time, where a wake waits for ever.
pub fn sound_outlines_are_there()
    ensures moves { TwoMovesAreSound }
    ensures stopped { StoppedMovesAreSound }
{}

/// Counts of logs from different moments may cancel with a message on its way; the frontier still hasn't
/// passed its time.
pub fn counts_may_cancel()
    ensures { CountsCancel }
{}

/// A job that goes on from a checkpoint has wakes from the start: each is in hand of the first owner of its
/// bin, and no other worker has it. One of them in a sound outline, which its bin's packet takes along.
pub fn opening_wakes_are_in_hand()
    ensures start { OpeningWakesAreInHand }
    ensures goes_on { OpeningWakeGoesOn }
{}

/// A move holds the frontier of its packets back from the start: as a control record, then as a time that
/// isn't settled, then as a packet on its way.
pub fn moves_hold_frontiers_back()
    ensures { MovesHoldFrontiersBack }
{}

/// How many names the logs of a job hold: never more than its name count, and just so many once all is
/// done; and that count for four of the worked examples.
pub fn names_are_counted()
    ensures bounded { LogsAreBounded }
    ensures full { FinishedLogsAreFull }
    ensures three_bids { name_count three_bids ≡ 20 }
    ensures wake_moves_with_its_bin { name_count wake_moves ≡ 23 }
    ensures stopped_moves { name_count stopped_moves ≡ 16 }
    ensures wake_goes_on { name_count wake_goes_on ≡ 15 }
{}
