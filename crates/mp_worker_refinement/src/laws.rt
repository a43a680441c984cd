//! The laws of workers that take turns, each the contract of a function that does nothing.
ghost use Rattle.mp_worker_refinement.specs.Laws.{EndsAreKnown, OpeningIsTheStart, OpeningIsTold, StepsAlwaysRefine, StepsMayAlwaysBeAsked};

/// What each worker says of its step is the turn that the machine has there, and what it asks for before is so.
pub fn steps_are_turns()
    ensures turns { StepsAlwaysRefine }
    ensures asked { StepsMayAlwaysBeAsked }
{}

/// Workers that have done nothing, an opening board and empty mailboxes are the machine's start.
pub fn workers_begin_together()
    ensures { OpeningIsTheStart }
{}

/// What an opening board shows is true of each empty log.
pub fn openings_are_told()
    ensures { OpeningIsTold }
{}

/// A worker knows that all is over exactly where it is finished as the machine has it.
pub fn ends_are_known()
    ensures { EndsAreKnown }
{}
