//! Workers on threads of a scope.
ghost use Rattle.std.specs.Prelude.{◌≡◌, ◌<◌, ◌≤◌, ◌↔◌, ◌∷◌, [], All, Err, IfOk, IsTrue, Ok, OnErr, length, map, true, vec_capacity};
ghost use Rattle.std.specs.Vec.Iter.{into_iter_items};
ghost use Rattle.mp_model.specs.Tables.{table_of};
ghost use Rattle.mp_outline.specs.JobOutline.{outline_of};
ghost use Rattle.mp_board.specs.declared.causes.Cause.TheVariants.{Write};
ghost use Rattle.mp_threads_member.specs.Below.TheVariants as own;
ghost use Rattle.mp_threads_member.specs.declared.drive.Round.TheVariants.{Over};
ghost use Rattle.mp_threads_member.specs.Driving.{IsFinished};
ghost use Rattle.mp_threads_member.specs.Members.{HasDoneNothing};
ghost use Rattle.mp_threads_place.specs.Places.{OneHasTold, mark_at, mark_of};
ghost use Rattle.mp_threads.specs.Runs.{AreDriven, ComeBack, EndsAs, HaveRun};

use mp_board::Cause;
use mp_gate::Gate;
use mp_model::{Naming, Query};
use mp_outside::Sink;
use mp_threads_crew::Crew;
use mp_threads_member::{Member, Pause, Round, Stop, Worker};
use mp_threads_place::{Placed, finish, finished, settle, turn_here};
use std::alloc::Global;
use std::sync::Wait;
use std::thread;
use std::thread::{Scope, Threads};
use std::vec::IntoIter;

/// Runs the workers: the caller drives worker 0, and beside it each that no thread could be made for; the others have
/// threads of their own, and on every way out each of these has ended. Worker 0 alone writes. The workers come back by
/// their numbers, finished, and those that kept their steps still do. `Write`: a write failed; only where the sink's count of faults rose in this call or stands at
/// its last value, 2^64 - 1, and any other answer leaves that count as it was. `Memory`: no memory. With either a beginning
/// of the answer is written.
pub fn run_workers<
    'a,
    Q: Query + Send,
    J: Naming + Send + Sync,
    R: Wait + Drop + Send,
    T: Threads + Wait + Sync,
    G: Gate + Sync,
    S: Sink,
>(
    rt: &T,
    alloc: Global,
    crew: Crew<'a, Q, J, R>,
    gate: &G,
    sink: &mut S,
) -> Result<Vec<Worker<'a, Q, J>>, Cause>
    requires start { All HasDoneNothing crew }
    ensures run { HaveRun (table_of Q.facts J.job) J.job S.written S.faults S.frame
        crew.entry result sink.old sink.new }
{
    // What is written through a captured `&mut` is known only where it comes back with the result.
    let (result, _sink) = thread::scope(
        thread::scope_env(),
        rt,
        move |scope| -> (Result<Vec<Worker<Q, J>>, Cause>, &mut S)
            requires start { All HasDoneNothing crew }
            ensures same_reference { result.1.ghost_name ≡ sink.entry.ghost_name }
            ensures run { HaveRun (table_of Q.facts J.job) J.job S.written S.faults S.frame
                crew.entry result.0 sink.entry.now result.1.now }
        {
            let result = run_in(scope, rt, alloc, crew, gate, sink);
            (result, sink)
        },
    );
    result
}

// Runs the workers in a scope that outlives their threads.
fn run_in<
    's,
    'a: 's,
    E,
    Q: Query + Send + 's,
    J: Naming + Send + Sync + 's,
    R: Wait + Drop + Send + 's,
    T: Threads + Wait + Sync,
    G: Gate + Sync,
    S: Sink,
>(
    scope: &Scope<'s, E>,
    rt: &'s T,
    alloc: Global,
    crew: Crew<'a, Q, J, R>,
    gate: &'s G,
    sink: &mut S,
) -> Result<Vec<Worker<'a, Q, J>>, Cause>
    requires start { All HasDoneNothing crew }
    ensures run { HaveRun (table_of Q.facts J.job) J.job S.written S.faults S.frame
        crew.entry result sink.old sink.new }
{
    let members = crew.into_members();
    let Ok(places) = Vec::with_capacity(alloc, members.len()) else {
        return Err(Cause::Memory);
    };
    let Ok(done) = Vec::with_capacity(alloc, members.len()) else {
        return Err(Cause::Memory);
    };
    let mut members = members.into_iter();
    let Some(mut first) = members.next() else {
        unreachable!()
    };
    let mut places = settle_all(scope, rt, alloc, gate, members, places);
    let driven = drive_here(&mut first, places.as_mut_slice(), rt, gate, sink);
    let first = first.into_worker();
    first.log_is_known();
    finish_all(driven, first, places, done, rt, gate)
}

// What a run comes to in which those with the caller were driven so, worker 0 first: all workers, finished, or why there are
// none. Each comes to its end, and each thread is waited for.
fn finish_all<'a, Q: Query, J: Naming, R: Wait + Drop, T: Threads + Wait, G: Gate>(
    driven: Result<bool, Stop>,
    first: Worker<'a, Q, J>,
    places: Vec<Placed<'a, Q, J, R>>,
    mut done: Vec<Worker<'a, Q, J>>,
    rt: &T,
    gate: &G,
) -> Result<Vec<Worker<'a, Q, J>>, Cause>
    requires first { driven ≡ Ok true → IsFinished (outline_of (table_of Q.facts J.job) J.job) first }
    requires done { done.items ≡ [] }
    requires room { length places.items < vec_capacity done }
    ensures ends { EndsAs driven result }
    ensures back { let o = outline_of (table_of Q.facts J.job) J.job in IfOk result (λ workers.
        ComeBack o (mark_of first.entry ∷ map mark_at places.entry.items) workers.items) }
{
    let mut all = is_over(driven);
    done.push_reserved(first);
    for place in places {
        match finished(finish(place, rt, gate)) {
            Some(worker) => done.push_reserved(worker),
            None => all = false,
        }
    }
    if all { Ok(done) } else { Err(cause_of(driven)) }
}

// Whether those with the caller were driven to their end.
fn is_over(driven: Result<bool, Stop>) -> bool
    ensures { IsTrue result → driven ≡ Ok true }
{
    match driven {
        Ok(over) => over,
        Err(_) => false,
    }
}

// Worker 0's own write failed; every other stop is for want of memory.
fn cause_of(driven: Result<bool, Stop>) -> Cause
    ensures { (result ≡ Write) ↔ (driven ≡ Err own.Write) }
{
    match driven {
        Err(Stop::Write) => Cause::Write,
        _ => Cause::Memory,
    }
}

// Starts a thread for each worker, where one can be made.
fn settle_all<
    's,
    'a: 's,
    E,
    Q: Query + Send + 's,
    J: Naming + Send + Sync + 's,
    R: Wait + Drop + Send + 's,
    T: Wait + Sync,
    G: Gate + Sync,
>(
    scope: &Scope<'s, E>,
    rt: &'s T,
    alloc: Global,
    gate: &'s G,
    members: IntoIter<Member<'a, Q, J, R>>,
    mut places: Vec<Placed<'a, Q, J, R>>,
) -> Vec<Placed<'a, Q, J, R>>
    requires empty { places.items ≡ [] }
    requires room { length (into_iter_items members) ≤ vec_capacity places }
    requires start { All HasDoneNothing (into_iter_items members) }
    ensures { map mark_at result.items ≡ map (λ m. mark_of m.worker) (into_iter_items members.entry) }
{
    for member in members {
        places.push_reserved(settle(scope, rt, alloc, gate, member));
    }
    places
}

// Drives worker 0, and each other worker that is here, round after round until all of these are finished, and pauses after
// a round in which none made a step. `false`: another worker that is here stopped. `Err`: worker 0 did. With either the
// others are told so.
fn drive_here<'a, Q: Query, J: Naming, R: Wait + Drop, T: Wait, G: Gate, S: Sink>(
    first: &mut Member<'a, Q, J, R>,
    places: &mut [Placed<'a, Q, J, R>],
    rt: &T,
    gate: &G,
    sink: &mut S,
) -> Result<bool, Stop>
    ensures marks { map mark_at places.new ≡ map mark_at places.old }
    ensures driven { AreDriven (table_of Q.facts J.job) J.job S.written S.faults S.frame
        result first.old first.new places.new sink.old sink.new }
{
    let pause = Pause::new();
    for _ in rt.forever() {
        let own = first.turn(rt, gate, sink)?;
        let Ok(others) = turn_all(places, rt, gate) else {
            return Ok(false);
        };
        match both(own, others) {
            Round::Over => return Ok(true),
            Round::Made => pause.reset(),
            Round::Idle => pause.take(rt),
        }
    }
    unreachable!()
}

// One round of each worker that is here; what they came to. `Err`: one stopped, and the others are told so.
fn turn_all<'a, Q: Query, J: Naming, R: Wait + Drop, T: Wait, G: Gate>(
    places: &mut [Placed<'a, Q, J, R>],
    rt: &T,
    gate: &G,
) -> Result<Round, Stop>
    ensures marks { map mark_at places.new ≡ map mark_at places.old }
    ensures told { OnErr result (OneHasTold places.new) }
{
    let mut all = Round::Over;
    for i in 0..places.len() {
        let one = turn_here(&mut places[i], rt, gate)?;
        all = both(all, one);
    }
    Ok(all)
}

// What two rounds came to: a step, if one of them made one.
fn both(one: Round, other: Round) -> Round
    ensures { result ≡ Over → one ≡ Over }
{
    match (one, other) {
        (Round::Over, Round::Over) => Round::Over,
        (Round::Made, _) | (_, Round::Made) => Round::Made,
        _ => Round::Idle,
    }
}
