//! Sample journals, computed by the definitions alone.
ghost use Rattle.mp_journal_laws.specs.Samples.{IsLegal, recorded, without_exchange, with_other_version};

/// A bid that one worker takes from the events to the answer: its journal is legal. Without the first exchange, or with another
/// version in it, it isn't.
pub fn recorded_run_is_legal()
    ensures legal { IsLegal recorded }
    ensures too_early { IsLegal without_exchange → ⊥ }
    ensures other_version { IsLegal with_other_version → ⊥ }
{}
