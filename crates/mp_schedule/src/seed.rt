//! Driving by the seeded schedule.
ghost use Rattle.std.specs.Prelude.{◌<◌, IfErr, IfOk, OnOk};
ghost use Rattle.mp_model.specs.Answers.{one_thread_answer};
ghost use Rattle.mp_model.specs.Tables.{table_of};
ghost use Rattle.mp_outline.specs.JobOutline.{outline_of};
ghost use Rattle.mp_plain.specs.Driven.{AllKnowTheEnd, lines_of};
ghost use Rattle.mp_plain.specs.Driving.{DriveLeaves};
ghost use Rattle.mp_schedule.specs.Refused.{KeepsSchedule, RefusesPick};
ghost use Rattle.mp_schedule.specs.Schedule.{FollowsToEnd, MakesPick};

use mp_board::Cause;
use mp_draws::Draws;
use mp_gate::Gate;
use mp_model::{Naming, Query};
use mp_outside::Sink;
use mp_plain::{Plain, Turn, count_of_places, kind_at, place_after, place_at};

/// Makes steps by the schedule of a seed (this project's profile) until each worker knows that all is
/// over: how many were made, those that can't be made now not counted. While some worker doesn't know the
/// end there is one draw; from the place that has its number, modulo the number of places, the steps are
/// tried upward, wrapping round, until one is made. The gate is passed before each. `Memory`: the step
/// that answered it had no memory, or more steps were made than a u64 counts, which no job that fits into
/// memory has. `Write` is that of the step that answered it; any other answer leaves the sink's count of
/// faults as it was. The steps before it stay.
pub fn drive_seed<Q: Query, J: Naming, S: Sink, G: Gate>(
    plain: &mut Plain<'_, Q, J>,
    seed: u64,
    gate: &G,
    sink: &mut S,
) -> Result<u64, Cause>
    requires depth { 0 < plain.old.state.post.depth }
    ensures ends { let o = outline_of (table_of Q.facts J.job) J.job in
        IfOk result (λ n. FollowsToEnd o seed n plain.old plain.new) }
    ensures kept { IfErr result (λ why. KeepsSchedule (table_of Q.facts J.job) J.job seed why
        plain.old plain.new (S.written sink.old) (S.written sink.new)) }
    ensures leaves { let q = table_of Q.facts J.job in
        DriveLeaves q J.job S.written S.faults S.frame
        result (one_thread_answer q J.job.events) plain.old.state sink.old sink.new }
{
    // A run of the machine leads to where the workers are.
    let _ = plain.shape();
    let mut draws = Draws::of(seed);
    let mut made: u64 = 0;
    while !plain.is_finished() {
        let Some(counted) = made.checked_add(1) else {
            return Err(Cause::Memory);
        };
        step_from(plain, draws.draw(), gate, sink)?;
        made = counted;
    }
    Ok(made)
}

// Makes the step that this draw picks: of the places upward from its own, wrapping round, that of the
// first whose step can be made now. There is one, since some worker doesn't know the end.
fn step_from<Q: Query, J: Naming, S: Sink, G: Gate>(
    plain: &mut Plain<'_, Q, J>,
    draw: u64,
    gate: &G,
    sink: &mut S,
) -> Result<(), Cause>
    requires depth { 0 < plain.old.state.post.depth }
    requires unfinished { AllKnowTheEnd (outline_of (table_of Q.facts J.job) J.job) plain.old.state → ⊥ }
    ensures makes { let o = outline_of (table_of Q.facts J.job) J.job in
        OnOk result (MakesPick o draw plain.old plain.new) }
    ensures refused { IfErr result (λ why. RefusesPick (table_of Q.facts J.job) J.job draw why
        plain.old plain.new (S.written sink.old) (S.written sink.new)) }
    ensures leaves { let q = table_of Q.facts J.job in
        DriveLeaves q J.job S.written S.faults S.frame
        result (lines_of q J.job.events plain.new.state) plain.old.state sink.old sink.new }
{
    let shape = plain.shape();
    let places = count_of_places(shape);
    let mut place = place_at(shape, draw % places);
    let mut tried = 0;
    while tried < places {
        let empty = plain.pass_empty(shape, place, gate);
        if empty > 0 {
            tried += empty;
            place.kind += empty;
            continue;
        }
        let kind = kind_at(shape, place.kind);
        gate.pass(place.worker, kind);
        let turn = plain.try_step(place.worker, kind, sink)?;
        if matches!(turn, Turn::Did(..) | Turn::Seen(_)) {
            return Ok(());
        }
        tried += 1;
        place = place_after(shape, place);
    }
    unreachable!()
}
