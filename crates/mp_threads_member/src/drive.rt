//! How a thread drives its worker.
ghost use Rattle.std.specs.Prelude.{◌≡◌, ◌<◌, ℕ, IfErr, List, Ok, OnOk, Option, false, true};
ghost use Rattle.mp_outside.specs.Sink.{grown};
ghost use Rattle.mp_model.specs.Answers.{one_thread_answer};
ghost use Rattle.mp_model.specs.Tables.{table_of};
ghost use Rattle.mp_outline.specs.JobOutline.{outline_of};
ghost use Rattle.mp_board.specs.declared.causes.Cause.{Cause};
ghost use Rattle.mp_worker.specs.Below.stop.{Other};
ghost use Rattle.mp_threads_hub.specs.Hubs.{SeesCause};
ghost use Rattle.mp_threads_member.specs.declared.drive.Round.TheVariants.{Idle, Made, Over};
ghost use Rattle.mp_answer_laws.specs.Lines.{HasWritten};
ghost use Rattle.mp_threads_member.specs.Driving.{Drives, IsFinished, IsTold};
ghost use Rattle.mp_threads_member.specs.Rounds.{HasComeFurther, HasReceivedNone, HasTriedAll, WasHindered};

use crate::Member;
use crate::pause::Pause;
use mp_board::Cause;
use mp_gate::Gate;
use mp_model::{Naming, Query};
use mp_names::Kind;
use mp_outside::Sink;
use mp_worker::{Stop, Turn, count_of_kinds, kind_at};
use std::sync::Wait;

// How many steps of one kind a round has at most. So the frontiers of a round serve many groups, and a mailbox is emptied
// before more is sent.
const STEPS_OF_A_KIND: u32 = 64;

// How many records a round takes in at most. These are fewer than the groups that it may apply, so that few records wait.
const RECORDS_TAKEN_IN: u32 = 32;

/// What a round of a worker came to, in which it tried each kind of step.
#[derive(Clone, Copy)]
pub enum Round {
    /// The worker knows that all is over.
    Over,
    /// A step was made.
    Made,
    /// No step was made.
    Idle,
}

impl<'a, Q: Query, J: Naming, R: Wait + Drop> Member<'a, Q, J, R> {
    /// Drives the worker round after round until it knows that all is over: its log is then full, and worker 0 has
    /// written the one-thread answer. After a round in which no step was made it pauses for a while. Where a step answers
    /// `Write` or `Memory` it tells the others why, and ends; that waits while another holds the board, and takes no
    /// memory. `Other`: another worker stopped before, by the cause that the seat sees. `Write`: only where the sink's count
    /// of faults rose in this call or stands at its last value, 2^64 - 1. With each a beginning of the answer is written.
    pub fn drive<T: Wait, G: Gate, S: Sink>(
        &mut self,
        rt: &T,
        gate: &G,
        sink: &mut S,
    ) -> Result<(), Stop>
        ensures finished { OnOk result
            (IsFinished (outline_of (table_of Q.facts J.job) J.job) self.new.worker) }
        ensures answer { let q = table_of Q.facts J.job in
            self.old.worker.number ≡ 0
            → (before : Option (List ℕ)) → HasWritten q J.job.events before self.old.worker.log (S.written sink.old)
            → OnOk result (S.written sink.new ≡ grown before (one_thread_answer q J.job.events)) }
        ensures drives { Drives (table_of Q.facts J.job) J.job S.written S.faults S.frame
            result self.old self.new sink.old sink.new }
        ensures told { IfErr result (λ stop. IsTold stop self.new.hub) }
    {
        let pause = Pause::new();
        for _ in rt.forever() {
            match self.turn(rt, gate, sink) {
                Ok(Round::Over) => return Ok(()),
                Ok(Round::Made) => pause.reset(),
                Ok(Round::Idle) => pause.take(rt),
                Err(stop) => return Err(stop),
            }
        }
        unreachable!()
    }

    /// One round: tries each kind of step in their order, each again as long as its steps are made, up to 64 times, but an
    /// exchange once. It takes in up to 32 records, and one where the last round applied as many groups of a stage as it might.
    /// Before it writes it receives a second time. `Over`: the worker then knows that all is over, and its log
    /// is full. `Made`: it has come further. `Idle`: it is as it was, and each kind of step was tried in vain. Where a step
    /// answers `Write` or `Memory` it tells the others why; that waits while another holds the board. `Other`: another worker
    /// stopped before, by the cause that the seat sees.
    pub fn turn<T: Wait, G: Gate, S: Sink>(
        &mut self,
        rt: &T,
        gate: &G,
        sink: &mut S,
    ) -> Result<Round, Stop>
        ensures finished { result ≡ Ok Over
            → IsFinished (outline_of (table_of Q.facts J.job) J.job) self.new.worker }
        ensures drives { Drives (table_of Q.facts J.job) J.job S.written S.faults S.frame
            result self.old self.new sink.old sink.new }
        ensures told { IfErr result (λ stop. IsTold stop self.new.hub) }
        ensures made { result ≡ Ok Made → HasComeFurther self.old self.new }
        ensures idle { result ≡ Ok Idle
            → HasTriedAll (outline_of (table_of Q.facts J.job) J.job) self.old self.new }
    {
        match self.try_all(gate, sink) {
            Ok(made) => Ok(self.outcome(made)),
            Err(stop) => {
                self.give_up(rt, stop);
                Err(stop)
            }
        }
    }

    // Tries each kind of step in their order: whether a step was made.
    fn try_all<G: Gate, S: Sink>(&mut self, gate: &G, sink: &mut S) -> Result<bool, Stop>
        ensures drives { Drives (table_of Q.facts J.job) J.job S.written S.faults S.frame
            result self.old self.new sink.old sink.new }
        ensures made { result ≡ Ok true → HasComeFurther self.old self.new }
        ensures idle { result ≡ Ok false
            → HasTriedAll (outline_of (table_of Q.facts J.job) J.job) self.old self.new }
    {
        let shape = self.worker.shape();
        let mut made = false;
        for number in 0..count_of_kinds(shape) {
            match self.try_kind(kind_at(shape, number), gate, sink) {
                Ok(was_made) => made = made || was_made,
                Err(why) => return Err(why),
            }
        }
        Ok(made)
    }

    // Makes steps of a kind. After those that send rows it receives again, so that rows don't wait for a round, and leave the
    // mailbox to its next records: whether a step was made.
    fn try_kind<G: Gate, S: Sink>(
        &mut self,
        kind: Kind,
        gate: &G,
        sink: &mut S,
    ) -> Result<bool, Stop>
        ensures drives { Drives (table_of Q.facts J.job) J.job S.written S.faults S.frame
            result self.old self.new sink.old sink.new }
        ensures made { result ≡ Ok true → HasComeFurther self.old self.new }
        ensures idle { result ≡ Ok false
            → WasHindered (outline_of (table_of Q.facts J.job) J.job) kind self.old self.new }
    {
        let made = self.repeat(kind, gate, sink)?;
        if kind != Kind::SendRow {
            return Ok(made);
        }
        match self.receive_from_all(gate, sink) {
            Ok(received) => Ok(made || received),
            Err(why) => Err(why),
        }
    }

    // Receives from each worker: whether a step was made.
    fn receive_from_all<G: Gate, S: Sink>(&mut self, gate: &G, sink: &mut S) -> Result<bool, Stop>
        ensures drives { Drives (table_of Q.facts J.job) J.job S.written S.faults S.frame
            result self.old self.new sink.old sink.new }
        ensures made { result ≡ Ok true → HasComeFurther self.old self.new }
        ensures idle { result ≡ Ok false
            → HasReceivedNone (outline_of (table_of Q.facts J.job) J.job) self.old self.new }
    {
        let mut made = false;
        for from in 0..self.worker.shape().workers {
            match self.repeat(Kind::Receive(from), gate, sink) {
                Ok(was_made) => made = made || was_made,
                Err(why) => return Err(why),
            }
        }
        Ok(made)
    }

    // Makes steps of a kind, as `repeat_kind` does. Each kind has a loop of its own, in which the compiler knows it.
    fn repeat<G: Gate, S: Sink>(&mut self, kind: Kind, gate: &G, sink: &mut S) -> Result<bool, Stop>
        ensures drives { Drives (table_of Q.facts J.job) J.job S.written S.faults S.frame
            result self.old self.new sink.old sink.new }
        ensures made { result ≡ Ok true → HasComeFurther self.old self.new }
        ensures idle { result ≡ Ok false
            → WasHindered (outline_of (table_of Q.facts J.job) J.job) kind self.old self.new }
    {
        match kind {
            Kind::Ingest => self.repeat_kind(Kind::Ingest, gate, sink),
            Kind::SendControl => self.repeat_kind(Kind::SendControl, gate, sink),
            Kind::Route(stage) => self.repeat_kind(Kind::Route(stage), gate, sink),
            Kind::Receive(from) => self.repeat_kind(Kind::Receive(from), gate, sink),
            Kind::Extract(stage) => self.repeat_kind(Kind::Extract(stage), gate, sink),
            Kind::Settle(stage) => self.repeat_kind(Kind::Settle(stage), gate, sink),
            Kind::Apply(stage) => self.repeat_kind(Kind::Apply(stage), gate, sink),
            Kind::SendRow => self.repeat_kind(Kind::SendRow, gate, sink),
            Kind::Write => self.repeat_kind(Kind::Write, gate, sink),
            Kind::Exchange => self.repeat_kind(Kind::Exchange, gate, sink),
        }
    }

    // Makes steps of a kind, until one isn't made, an exchange was, or there were as many as this round has of the kind:
    // whether a step was made.
    #[inline(always)]
    fn repeat_kind<G: Gate, S: Sink>(
        &mut self,
        kind: Kind,
        gate: &G,
        sink: &mut S,
    ) -> Result<bool, Stop>
        ensures drives { Drives (table_of Q.facts J.job) J.job S.written S.faults S.frame
            result self.old self.new sink.old sink.new }
        ensures made { result ≡ Ok true → HasComeFurther self.old self.new }
        ensures idle { result ≡ Ok false
            → WasHindered (outline_of (table_of Q.facts J.job) J.job) kind self.old self.new }
    {
        for number in 0..most_steps(kind, self.is_behind) {
            match self.step(kind, gate, sink) {
                Ok(Turn::Did(..)) => {}
                Ok(Turn::Seen(_)) => return Ok(true),
                Ok(Turn::NotNow | Turn::Busy) => return Ok(number > 0),
                Err(why) => return Err(why),
            }
        }
        self.is_behind = is_behind_after(kind, self.is_behind);
        Ok(true)
    }

    // What a round came to in which a step was made or wasn't.
    fn outcome(&self, made: bool) -> Round
        ensures finished { result ≡ Over
            → IsFinished (outline_of (table_of Q.facts J.job) J.job) self.now.worker }
        ensures made { result ≡ Made → made ≡ true }
        ensures idle { result ≡ Idle → made ≡ false }
    {
        self.worker.log_is_known();
        if self.worker.is_finished() {
            Round::Over
        } else if made {
            Round::Made
        } else {
            Round::Idle
        }
    }

    // Tells the others why the worker stops, unless another has told it.
    fn give_up<T: Wait>(&mut self, rt: &T, stop: Stop)
        requires saw { (cause : Cause) → stop ≡ Other cause → SeesCause cause self.old.hub }
        ensures same { self.new.worker ≡ self.old.worker }
        ensures told { IsTold stop self.new.hub }
    {
        match stop {
            Stop::Write => self.hub.stop(rt, Cause::Write),
            Stop::Memory => self.hub.stop(rt, Cause::Memory),
            Stop::Other(_) => {}
        }
    }
}

// How many steps of a kind a round has at most.
fn most_steps(kind: Kind, is_behind: bool) -> u32
    ensures { 0 < result }
{
    match kind {
        Kind::Ingest if is_behind => 1,
        Kind::Ingest => RECORDS_TAKEN_IN,
        _ => STEPS_OF_A_KIND,
    }
}

// Whether a worker is behind with its groups, once a round made as many steps of a kind as it might.
fn is_behind_after(kind: Kind, before: bool) -> bool {
    match kind {
        Kind::Apply(_) => true,
        Kind::Ingest => false,
        _ => before,
    }
}
