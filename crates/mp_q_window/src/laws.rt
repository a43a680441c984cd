//! What holds of q5, the contract of a function that does nothing.
ghost use Rattle.std.specs.Prelude.{ℕ, List};
ghost use Rattle.mp_model.specs.QueryLaws.{OutputsHaveKeys};
ghost use Rattle.mp_q_window.specs.Q5.{q5_facts};

/// Whatever the values of its rules, each count that stage 0 of q5 gives has a key in stage 1.
pub fn counts_have_keys()
    ensures { (vs : List ℕ) → OutputsHaveKeys (q5_facts vs) }
{}
