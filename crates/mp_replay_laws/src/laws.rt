//! The law of kept replays, the contract of a function that does nothing.
ghost use Rattle.mp_replay_laws.specs.Promises.{KeptReplaysAreLegal};

/// What the workers have kept of a seed's schedule, from the start until each knows that all is over, has a legal merge.
pub fn kept_replays_are_legal()
    ensures { KeptReplaysAreLegal }
{}
