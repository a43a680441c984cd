//! Driving by a list of steps.
ghost use Rattle.std.specs.Prelude.{IfErr, IfOk};
ghost use Rattle.mp_model.specs.Tables.{table_of};
ghost use Rattle.mp_outline.specs.JobOutline.{outline_of};
ghost use Rattle.mp_plain.specs.Driven.{lines_of};
ghost use Rattle.mp_plain.specs.Driving.{DriveLeaves, MakesSteps};
ghost use Rattle.mp_plain.specs.Refused.{KeepsSteps};

use crate::Plain;
use mp_board::Cause;
use mp_model::{Naming, Query};
use mp_names::Kind;
use mp_outside::Sink;
use mp_worker::Turn;
use std::alloc::Global;

impl<'a, Q: Query, J: Naming> Plain<'a, Q, J> {
    /// Makes the steps of a list, each a worker and a kind, in order: what each answered, which is never
    /// `Busy`. The room for the answers is taken before the first step; `Memory` where there is none. Else
    /// `Memory` and `Write` are those of the step that answered them, and the steps before it stay. Any
    /// answer but `Write` leaves the sink's count of faults as it was.
    pub fn drive_list<S: Sink>(
        &mut self,
        alloc: Global,
        steps: &[(u32, Kind)],
        sink: &mut S,
    ) -> Result<Vec<Turn>, Cause>
        ensures makes { let o = outline_of (table_of Q.facts J.job) J.job in
            IfOk result (λ turns. MakesSteps o steps.now turns.items self.old self.new) }
        ensures kept { IfErr result (λ why. KeepsSteps (table_of Q.facts J.job) J.job steps.now why
            self.old self.new (S.written sink.old) (S.written sink.new)) }
        ensures leaves { let q = table_of Q.facts J.job in
            DriveLeaves q J.job S.written S.faults S.frame
            result (lines_of q J.job.events self.new.state) self.old.state sink.old sink.new }
    {
        // From here on the invariant is known: what is written so far is a beginning of the answer.
        let _ = &self.job;
        let Ok(mut turns) = Vec::with_capacity(alloc, steps.len()) else {
            return Err(Cause::Memory);
        };
        for (worker, kind) in steps {
            let turn = self.step(*worker, *kind, sink)?;
            turns.push_reserved(turn);
        }
        Ok(turns)
    }
}
