//! What a worker tells of itself.
ghost use Rattle.std.specs.Prelude.{◌≡◌, ◌<◌, ℕ};
ghost use Rattle.mp_names.specs.declared.kinds.Kind.TheVariants.{Write};
ghost use Rattle.mp_names.specs.declared.names.Name.TheVariants.{Written};
ghost use Rattle.mp_names.specs.Logs.{LogIsLegal, with_settled};
ghost use Rattle.mp_machine.specs.Promises.{LogIsFull};
ghost use Rattle.mp_outline.specs.JobOutline.{outline_of};
ghost use Rattle.mp_worker_refinement.specs.State.{CanMake};
ghost use Rattle.mp_worker_refinement.specs.SystemState.{KnowsTheEnd};
ghost use Rattle.mp_model.specs.Tables.{table_of};

use crate::Worker;
use mp_model::{Naming, Query};
use mp_names::Shape;

impl<'a, Q: Query, J: Naming> Worker<'a, Q, J> {
    /// Its number.
    pub fn number(&self) -> u32
        ensures is { result ≡ self.now.number }
        ensures inside { self.now.number < J.job.shape.workers }
    {
        self.parts.number()
    }

    /// How many workers, bins and stages its job has.
    pub fn shape(&self) -> Shape
        ensures { result ≡ J.job.shape }
    {
        self.parts.shape()
    }

    /// Does nothing. What is known of each worker's log, whatever other workers have done: it is legal, it stays so where
    /// worker 0 writes the next time, and it is full where the worker knows that all is over.
    pub fn log_is_known(&self)
        ensures legal { let o = outline_of (table_of Q.facts J.job) J.job in
            LogIsLegal o self.now.number self.now.log }
        ensures writing { let o = outline_of (table_of Q.facts J.job) J.job in
            (t : ℕ) → CanMake o Write self.now (Written t) → LogIsLegal o 0 (with_settled self.now.log (Written t)) }
        ensures full { let o = outline_of (table_of Q.facts J.job) J.job in
            KnowsTheEnd o self.now → LogIsFull o self.now.number self.now.log }
    {
        self.parts.log_is_known();
    }
}
