//! Where a worker is.
ghost use Rattle.std.specs.Prelude.{◌≡◌, IfErr};
ghost use Rattle.mp_model.specs.Tables.{table_of};
ghost use Rattle.mp_outline.specs.JobOutline.{outline_of};
ghost use Rattle.mp_threads_place.specs.Places.{ComesToEnd, HasTold, mark_at, mark_of, worker_in};

use crate::back::Back;
use crate::handle::Handle;
use mp_gate::Gate;
use mp_model::{Naming, Query};
use mp_outside::NoSink;
use mp_threads_member::{Member, Round, Stop, Worker};
use std::sync::Wait;
use std::thread::Threads;

/// Where a worker is.
#[derive(Drop)]
pub enum Place<H, M> {
    /// On a thread.
    Away(H),
    /// With the caller, who drives it.
    Here(M),
}

/// Where a worker of this query is.
pub type Placed<'a, Q, J, R> = Place<Handle<'a, Q, J, R>, Member<'a, Q, J, R>>;

/// One round of the worker, if it is here; what it came to. `Err`: it stopped, and the others are told so.
pub fn turn_here<'a, Q: Query, J: Naming, R: Wait + Drop, T: Wait, G: Gate>(
    place: &mut Placed<'a, Q, J, R>,
    rt: &T,
    gate: &G,
) -> Result<Round, Stop>
    ensures mark { mark_at place.new ≡ mark_at place.old }
    ensures told { IfErr result (λ stop. HasTold place.new stop) }
{
    match place {
        Place::Away(_) => Ok(Round::Over),
        Place::Here(member) => member.turn(rt, gate, &mut NoSink),
    }
}

/// The worker, once it has come to its end: here, or on a thread that is waited for. `Err`: it stopped, and the others are
/// told so.
pub fn finish<'a, Q: Query, J: Naming, R: Wait + Drop, T: Threads + Wait, G: Gate>(
    place: Placed<'a, Q, J, R>,
    rt: &T,
    gate: &G,
) -> Result<Member<'a, Q, J, R>, Member<'a, Q, J, R>>
    ensures { ComesToEnd (outline_of (table_of Q.facts J.job) J.job) (mark_at place.entry) result }
{
    match place {
        Place::Here(member) => drive_alone(member, rt, gate),
        Place::Away(handle) => match handle.join(rt) {
            Back::Finished(member) => Ok(member),
            Back::Undriven(member) => drive_alone(member, rt, gate),
            Back::Stopped(member) => Err(member),
        },
    }
}

/// The worker that came to its end, without its ends and its seat. `None`: it stopped.
pub fn finished<'a, Q: Query, J: Naming, R: Drop>(
    came: Result<Member<'a, Q, J, R>, Member<'a, Q, J, R>>,
) -> Option<Worker<'a, Q, J>>
    ensures { result ≡ worker_in came.entry }
{
    match came {
        Ok(member) => Some(member.into_worker()),
        Err(stopped) => {
            drop(stopped);
            None
        }
    }
}

/// Drives the worker to its end; it writes nothing. `Err`: it stopped, and the others are told so.
pub(crate) fn drive_alone<'a, Q: Query, J: Naming, R: Wait + Drop, T: Wait, G: Gate>(
    mut member: Member<'a, Q, J, R>,
    rt: &T,
    gate: &G,
) -> Result<Member<'a, Q, J, R>, Member<'a, Q, J, R>>
    ensures { ComesToEnd (outline_of (table_of Q.facts J.job) J.job) (mark_of member.entry.worker) result }
{
    match member.drive(rt, gate, &mut NoSink) {
        Ok(()) => Ok(member),
        Err(_) => Err(member),
    }
}
