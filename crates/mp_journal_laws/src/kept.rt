//! The laws of kept steps, each the contract of a function that does nothing.
ghost use Rattle.mp_journal_laws.specs.KeptPromises.{FinishedRunsAreLegal, FullLogsAreTold, KeptGrow};

/// What is kept of steps that follow others stands behind what was kept of those.
pub fn kept_grow()
    ensures { KeptGrow }
{}

/// Where all is over after a run, what its workers have kept has a legal merge: the steps that were made, in the order of the run.
pub fn finished_runs_are_legal()
    ensures { FinishedRunsAreLegal }
{}

/// Steps that filled the log of a worker that has done all that it has to do are as many, by kind, as it has names of that kind.
pub fn full_logs_are_told()
    ensures { FullLogsAreTold }
{}
