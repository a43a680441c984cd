//! How bins leave a worker.
ghost use Rattle.std.specs.Prelude.{◌≡◌, ◌<◌, IfNone, IfOk, IfSome, Some, length, slice_get};
ghost use Rattle.mp_names.specs.declared.kinds.Kind.TheVariants.{Extract};
ghost use Rattle.mp_names.specs.declared.names.Name.{Name};
ghost use Rattle.mp_outline.specs.JobOutline.{outline_of};
ghost use Rattle.mp_host_laws.specs.Hosted.{Hosted};
ghost use Rattle.mp_worker_sends.specs.Leaving.{AreChangesOfLeaving, IsDueNow};
ghost use Rattle.mp_worker_refinement.specs.Served.{IsAtPost, PostFollows};
ghost use Rattle.mp_worker_refinement.specs.State.{CanMake};
ghost use Rattle.mp_worker_refinement.specs.Steps.{StepsByMail};
ghost use Rattle.mp_worker_sends.specs.Rooms.{HasRoomToExtract};
ghost use Rattle.mp_model.specs.Tables.{table_of};

use crate::leaving::changes_of_leaving;
use crate::push::send;
use mp_handoff::count_of_keys;
use mp_host_laws::Held;
use mp_mailbox::Post;
use mp_model::{Naming, Query};
use mp_msg::{Body, BoxedState, Msg, Names};
use mp_names::{Move, Name};
use mp_rows::{Change, NewNames};
use mp_worker_parts::Parts;
use std::alloc::AllocError;

/// The state of the bin that is due to leave a stage goes to its new owner as one packet, once all groups before the
/// move are applied: its name, or `None` exactly where no packet may leave or the mailbox was full; the bin is then in
/// hand as it was. `AllocError`: no memory, and nothing changes.
#[tactic(auto, using(crate::proofs::Kept::messages_stay))]
pub fn extract<'a, Q: Query, J: Naming, P: Post<Msg<Q, J>>>(
    parts: &mut Parts<'a, Q, J>,
    stage: u32,
    post: &mut P,
) -> Result<Option<Names>, AllocError>
    requires stage { stage < J.job.shape.stages }
    requires at_post { let o = outline_of (table_of Q.facts J.job) J.job in
        IsAtPost P.workers P.depth P.serves P.denotes o parts.old.worker.number parts.old.worker.log post.old }
    ensures steps { let o = outline_of (table_of Q.facts J.job) J.job in
        StepsByMail (P.had_room post.old) (P.was_full post.old) (P.was_empty post.old) o (Extract stage) parts.old.worker parts.new.worker result }
    ensures mail { let o = outline_of (table_of Q.facts J.job) J.job in
        PostFollows P.workers P.depth P.serves P.denotes P.waits o parts.old.worker.number parts.old.worker.log parts.new.worker.log post.old post.new }
{
    let Some(moved) = due(parts, stage) else {
        return Ok(None);
    };
    sort_wakes(parts, stage, moved)?;
    let changes = make_room_to_extract(parts, stage, moved)?;
    let place = BoxedState::new(parts.alloc)?;
    send_bin(parts, stage, moved, changes, place, post)
}

// The move of the packet that is to leave the stage now, `None` exactly where none may.
fn due<'a, Q: Query, J: Naming>(parts: &Parts<'a, Q, J>, stage: u32) -> Option<Move>
    requires stage { stage < J.job.shape.stages }
    ensures none { let o = outline_of (table_of Q.facts J.job) J.job in
        IfNone result ((x : Name) → CanMake o (Extract stage) parts.now.worker x → ⊥) }
    ensures due { let o = outline_of (table_of Q.facts J.job) J.job in let s = parts.now.worker in
        IfSome result (IsDueNow o s.number s.log s.seen stage) }
{
    parts.movers[stage as usize].due(&parts.seen, &parts.owners)
}

// Sorts the wakes of the bin that is to leave, so that they are counted faster here and where it comes. `AllocError`: no
// memory. Nothing changes either way.
fn sort_wakes<'a, Q: Query, J: Naming>(
    parts: &mut Parts<'a, Q, J>,
    stage: u32,
    moved: Move,
) -> Result<(), AllocError>
    requires stage { stage < J.job.shape.stages }
    ensures { parts.new.worker ≡ parts.old.worker }
{
    let host = &mut parts.hosts[stage as usize];
    host.sort_wakes(moved.bin, moved.time)
}

// Makes room for a packet that is sent, and the list of the changes that it brings. `AllocError`: no memory, and nothing
// but rooms changes.
fn make_room_to_extract<'a, Q: Query, J: Naming>(
    parts: &mut Parts<'a, Q, J>,
    stage: u32,
    moved: Move,
) -> Result<Vec<Change>, AllocError>
    requires stage { stage < J.job.shape.stages }
    requires due { let o = outline_of (table_of Q.facts J.job) J.job in let s = parts.old.worker in
        IsDueNow o s.number s.log s.seen stage moved }
    ensures same { parts.new.worker ≡ parts.old.worker }
    ensures room { IfOk result (λ changes. HasRoomToExtract stage (length changes.items) parts.new) }
    ensures changes { let q = table_of Q.facts J.job in let s = parts.new.worker in IfOk result (λ changes. (h : Hosted Q.Cell)
        → slice_get parts.new.hosts stage ≡ Some h → AreChangesOfLeaving q J.job s.number s.log stage moved h changes.items) }
{
    let host = &parts.hosts[stage as usize];
    let numbers = host.leaving(parts.alloc, moved.bin, moved.time)?;
    let changes = changes_of_leaving(parts.alloc, stage, moved.time, numbers.as_slice())?;
    parts.log.make_room(changes.len() as u64)?;
    parts.movers[stage as usize].make_room_for_sent()?;
    Ok(changes)
}

// Sends the packet of this move, in this place on the heap. There is room for it.
#[tactic(auto, using(crate::proofs::Kept::messages_stay))]
fn send_bin<'a, Q: Query, J: Naming, P: Post<Msg<Q, J>>>(
    parts: &mut Parts<'a, Q, J>,
    stage: u32,
    moved: Move,
    changes: Vec<Change>,
    place: BoxedState<Q::Cell>,
    post: &mut P,
) -> Result<Option<Names>, AllocError>
    requires stage { stage < J.job.shape.stages }
    requires due { let o = outline_of (table_of Q.facts J.job) J.job in let s = parts.old.worker in
        IsDueNow o s.number s.log s.seen stage moved }
    requires room { HasRoomToExtract stage (length changes.items) parts.old }
    requires changes { let q = table_of Q.facts J.job in let s = parts.old.worker in (h : Hosted Q.Cell)
        → slice_get parts.old.hosts stage ≡ Some h → AreChangesOfLeaving q J.job s.number s.log stage moved h changes.items }
    requires at_post { let o = outline_of (table_of Q.facts J.job) J.job in
        IsAtPost P.workers P.depth P.serves P.denotes o parts.old.worker.number parts.old.worker.log post.old }
    ensures steps { let o = outline_of (table_of Q.facts J.job) J.job in
        StepsByMail (P.had_room post.old) (P.was_full post.old) (P.was_empty post.old) o (Extract stage) parts.old.worker parts.new.worker result }
    ensures mail { let o = outline_of (table_of Q.facts J.job) J.job in
        PostFollows P.workers P.depth P.serves P.denotes P.waits o parts.old.worker.number parts.old.worker.log parts.new.worker.log post.old post.new }
{
    let movers = &mut parts.movers[stage as usize];
    let host = &mut parts.hosts[stage as usize];
    let Some(Held { bin, since, state }) = host.take_bin(moved.bin, moved.time) else {
        unreachable!()
    };
    let keys = count_of_keys(&state);
    let packet = Msg::packet(stage, bin, moved.time, place.with(state));
    let names = NewNames::one(Name::Packet {
        stage,
        bin,
        time: moved.time,
    });
    let changes = changes.as_slice();
    let message = match send(&mut parts.log, post, moved.to, packet, names, changes) {
        Ok(told) => {
            movers.sent(moved, keys);
            return Ok(Some(told));
        }
        Err(message) => message,
    };
    let Body::Packet { state, .. } = message.into_body() else {
        unreachable!()
    };
    let state = state.into_state();
    host.put_back(Held { bin, since, state });
    Ok(None)
}
