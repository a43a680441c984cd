//! What a thread gives back.
ghost use Rattle.std.specs.Prelude.{◌≡◌};
ghost use Rattle.mp_threads_place.specs.Places.{member_in};

use mp_model::{Naming, Query};
use mp_threads_member::Member;
use std::thread::Promise;

/// What a thread gives back of its worker: the worker with its ends and its seat, and what came of it.
#[derive(Drop)]
pub(crate) enum Back<M> {
    /// It knows that all is over.
    Finished(M),
    /// No thread could be made for it, and it was not driven.
    Undriven(M),
    /// It stopped, and told the others so, or had it from them.
    Stopped(M),
}

impl<M> Back<M> {
    /// The worker, whatever came of it.
    pub(crate) fn into_member(self) -> M
        ensures { result ≡ member_in self }
    {
        match self {
            Back::Finished(member) | Back::Undriven(member) | Back::Stopped(member) => member,
        }
    }
}

/// What tells a worker apart, and the promise that the one with this mark comes back.
#[derive(Clone, Copy)]
pub struct Marked {
    /// Its number.
    pub number: u32,
    /// Whether it keeps its steps.
    pub keeps: bool,
}

impl<'a, Q: Query, J: Naming, R> Promise<Back<Member<'a, Q, J, R>>> for Marked {
    ghost use Rattle.mp_outline.specs.JobOutline.{outline_of};
    ghost use Rattle.mp_threads_place.specs.Places.{IsBack};
    ghost use Rattle.mp_model.specs.Tables.{table_of};

    ghost kept_by = { λ p b. IsBack (outline_of (table_of Q.facts J.job) J.job) p b };
}
