//! What holds of the movers of every job of every query, as the contract of a function that does nothing.
ghost use Rattle.mp_handoff.specs.Laws.{MoversAlwaysStay};

/// Movers that hold what a log says hold what it says with one more name, where that name is no concern of theirs.
pub fn movers_stay()
    ensures { MoversAlwaysStay }
{}
