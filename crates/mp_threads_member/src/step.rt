//! One step of a worker on its own thread.
ghost use Rattle.std.specs.Prelude.{◌≡◌, ◌≢◌, Ok};
ghost use Rattle.mp_names.specs.declared.kinds.Kind.TheVariants.{Exchange, Write};
ghost use Rattle.mp_machine.specs.Steps.{KindFits};
ghost use Rattle.mp_outline.specs.JobOutline.{outline_of};
ghost use Rattle.mp_worker.specs.Below.turn.{NotNow};
ghost use Rattle.mp_worker.specs.Writing.{WritesInTurn};
ghost use Rattle.mp_threads_member.specs.Members.{AnswersByMail, ExchangesBySeat, MailFollows};
ghost use Rattle.mp_threads_member.specs.Driving.{Drives};
ghost use Rattle.mp_threads_member.specs.Rounds.{HasComeFurther, OnMade, OnNotMade, WasHindered};
ghost use Rattle.mp_model.specs.Tables.{table_of};

use crate::Member;
use mp_gate::Gate;
use mp_model::{Naming, Query};
use mp_names::Kind;
use mp_outside::Sink;
use mp_worker::{Stop, Turn};
use std::sync::Wait;

impl<'a, Q: Query, J: Naming, R: Wait + Drop> Member<'a, Q, J, R> {
    /// Passes the gate, and then makes one step of the worker, as `Worker::step` does with these ends, this seat and
    /// this sink: one step of the machine, of this worker. The answers are those of `Worker::step`. `Busy`: another
    /// thread may hold the board. `Other`: exactly where the seat sees that cause.
    #[inline(always)]
    pub fn step<G: Gate, S: Sink>(
        &mut self,
        kind: Kind,
        gate: &G,
        sink: &mut S,
    ) -> Result<Turn, Stop>
        ensures answers { let o = outline_of (table_of Q.facts J.job) J.job in
            AnswersByMail o kind self.old self.new result }
        ensures fits { (KindFits (outline_of (table_of Q.facts J.job) J.job) kind → ⊥) → result ≡ Ok NotNow }
        ensures mail { MailFollows (outline_of (table_of Q.facts J.job) J.job) self.old self.new }

        // The board.
        ensures exchanges { let o = outline_of (table_of Q.facts J.job) J.job in
            kind ≡ Exchange → ExchangesBySeat o self.old self.new result }
        ensures others_post_nothing { (kind ≢ Exchange) → self.new.hub ≡ self.old.hub }

        // The sink.
        ensures writes { kind ≡ Write
            → WritesInTurn (table_of Q.facts J.job) J.job S.written S.faults self.old.worker sink.old sink.new result }
        ensures others_write_nothing { (kind ≢ Write) → sink.new ≡ sink.old }
        ensures drives { Drives (table_of Q.facts J.job) J.job S.written S.faults S.frame
            result self.old self.new sink.old sink.new }

        // What it came to.
        ensures made { OnMade result (HasComeFurther self.old self.new) }
        ensures hindered { OnNotMade result
            (WasHindered (outline_of (table_of Q.facts J.job) J.job) kind self.old self.new) }
    {
        // What the worker's log is before the step.
        self.worker.log_is_known();
        gate.pass(self.worker.number(), kind);
        self.worker.step(kind, &mut self.post, &mut self.hub, sink)
    }
}
