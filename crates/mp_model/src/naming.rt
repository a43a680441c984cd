//! The one name of a job, which stands in contracts alone.
use std::marker::Brand;

/// Which job a message, a log or a worker belongs to. Who begins a run picks it; all that belongs to the run carries it in
/// its type.
pub trait Naming {
    ghost use Rattle.mp_model.specs.Facts.{JobFacts};

    ghost job: { JobFacts };
}

impl Naming for Brand {
    ghost use Rattle.std.specs.Prelude.{[], None, false};

    ghost job = { record { values = []; events = []; controls = []; shape = record { workers = 1; bins = 1; stages = 1 }; firsts = []; paced = false; until = None; from = None } };
}
