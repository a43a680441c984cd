//! How a worker begins on a thread.
ghost use Rattle.std.specs.Prelude.{◌≡◌, ◌↔◌, IsTrue};
ghost use Rattle.mp_model.specs.Tables.{table_of};
ghost use Rattle.mp_outline.specs.JobOutline.{outline_of};
ghost use Rattle.mp_threads_member.specs.Members.{HasDoneNothing};
ghost use Rattle.mp_threads_place.specs.Places.{IsBack, IsUndriven, mark_at, mark_of};

use crate::back::{Back, Marked};
use crate::handle::Handle;
use crate::place::{Place, Placed, drive_alone};
use mp_gate::Gate;
use mp_model::{Naming, Query};
use mp_threads_member::Member;
use std::alloc::Global;
use std::sync::atomic::{AtomicBool, Ordering};
use std::sync::{Arc, Wait};
use std::thread::Scope;

/// Starts a thread that drives the worker. Where none can be made, or there is no memory for the flag that says so, the
/// worker stays here.
pub fn settle<
    's,
    'a: 's,
    E,
    Q: Query + Send + 's,
    J: Naming + Send + Sync + 's,
    R: Wait + Drop + Send + 's,
    T: Wait + Sync,
    G: Gate + Sync,
>(
    scope: &Scope<'s, E>,
    rt: &'s T,
    alloc: Global,
    gate: &'s G,
    member: Member<'a, Q, J, R>,
) -> Placed<'a, Q, J, R>
    requires start { HasDoneNothing member }
    ensures { mark_at result ≡ mark_of member.entry.worker }
{
    let mark = marked(&member);
    let Ok(flag) = Arc::new(alloc, AtomicBool::new(false)) else {
        return Place::Here(member);
    };
    let Ok(theirs) = Arc::try_clone(&flag) else {
        return Place::Here(member);
    };
    let started = scope.spawn_with(
        mark,
        move || -> Back<Member<Q, J, R>>
            requires { HasDoneNothing member }
            ensures { IsBack (outline_of (table_of Q.facts J.job) J.job) (mark_of member.entry.worker) result }
        { drive_unless(rt, theirs.load(Ordering::SeqCst), gate, member) },
    );
    match started {
        Ok(inner) => Place::Away(Handle::new(inner)),
        Err(refused) => {
            flag.store(true, Ordering::SeqCst);
            Place::Here((refused.value)().into_member())
        }
    }
}

// What tells a worker apart.
fn marked<'a, Q: Query, J: Naming, R: Wait + Drop>(member: &Member<'a, Q, J, R>) -> Marked
    ensures { result ≡ mark_of member.now.worker }
{
    Marked {
        number: member.number(),
        keeps: member.keeps_steps(),
    }
}

// Drives the worker, unless no thread could be made for it.
fn drive_unless<'a, Q: Query, J: Naming, R: Wait + Drop, T: Wait, G: Gate>(
    rt: &T,
    refused: bool,
    gate: &G,
    member: Member<'a, Q, J, R>,
) -> Back<Member<'a, Q, J, R>>
    requires { HasDoneNothing member }
    ensures back { IsBack (outline_of (table_of Q.facts J.job) J.job) (mark_of member.entry.worker) result }
    ensures undriven { IsTrue refused ↔ IsUndriven result }
{
    if refused {
        return Back::Undriven(member);
    }
    match drive_alone(member, rt, gate) {
        Ok(member) => Back::Finished(member),
        Err(member) => Back::Stopped(member),
    }
}
