//! How runs come to an end, each law the contract of a function that does nothing.

ghost use Rattle.mp_machine.specs.Promises.{FinishedRunsAreFull, FinishedRunsApplyAll, FinishedWorkersAreFull, FinishedWorkersEndTheRun, NeverStuck, SomeoneCanStep, StepsAreBounded, StepsAreBoundedClosely};

/// Where every frontier of the board is Done, or has reached the stop time if there is one, and every answer row is
/// written, every log is full: all is sent and taken, and every group before the stop time is applied. A worker that
/// knows the end has a full log by that alone, and where every worker knows it, all is over.
pub fn finished_runs_are_full()
    ensures full { FinishedRunsAreFull }
    ensures applied { FinishedRunsApplyAll }
    ensures known { FinishedWorkersAreFull }
    ensures over { FinishedWorkersEndTheRun }
{}

/// No run is stuck: until all is over, and every worker knows it, some worker has a step whose condition
/// is true. How deep the mailboxes are plays no part.
pub fn never_stuck()
    ensures not_stuck { NeverStuck }
    ensures someone { SomeoneCanStep }
{}

/// A run makes at most (workers + 2) times as many steps as the job has names, whatever is tried between
/// them with a false condition; and even at most (workers + 1) times as many.
pub fn steps_are_bounded()
    ensures bounded { StepsAreBounded }
    ensures closely { StepsAreBoundedClosely }
{}
