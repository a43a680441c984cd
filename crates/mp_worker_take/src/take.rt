//! How the parts of a worker take control records, records, bins that come to it, and answer rows.
ghost use Rattle.std.specs.Prelude.{◌≡◌, ◌<◌, ◌≤◌, ◌+◌, ◌^◌, ◌∷◌, false, [], All, IsOk, length};
ghost use Rattle.std.specs.Vec.{vec_capacity};
ghost use Rattle.mp_names.specs.declared.names.Name.TheVariants.{Ctrl, Packet, Row};
ghost use Rattle.mp_names.specs.Names.{has};
ghost use Rattle.mp_rows_laws.specs.Changes.{packet_taken_at};
ghost use Rattle.mp_outline.specs.JobOutline.{outline_of};
ghost use Rattle.mp_msg.specs.Bundles.{IsBundle, names_in};
ghost use Rattle.mp_msg.specs.Contents.{IsControlOf, IsPacketOf, IsRowOf};
ghost use Rattle.mp_worker_invariant.specs.Kept.{AreOwedAndNew};
ghost use Rattle.mp_worker_parts.specs.Contents.{with_taken};
ghost use Rattle.mp_worker_take.specs.Rooms.{HasRoomToTake};
ghost use Rattle.mp_model.specs.Tables.{table_of};

use mp_handoff::ControlChanges;
use mp_model::{Fields, Naming, Query, Time};
use mp_msg::{BinState, Body, Bundle, Msg};
use mp_names::{Control, Loc, Name, Tag};
use mp_rows::{Change, LogList, Pointstamp};
use mp_worker_parts::{Parts, many_less, many_more, one_less};
use std::alloc::AllocError;

/// Takes a message that came to this worker to the part that it is for. There is room for it.
#[inline(always)]
pub(crate) fn take<'a, Q: Query, J: Naming>(parts: &mut Parts<'a, Q, J>, message: Msg<Q, J>)
    requires new { AreOwedAndNew (outline_of (table_of Q.facts J.job) J.job) parts.old.worker.number parts.old.worker.log message }
    requires room { HasRoomToTake (table_of Q.facts J.job) J.job parts.old }
    ensures { parts.new.worker ≡ with_taken message parts.old.worker }
{
    match message.into_body() {
        Body::Ctrl { index, control, .. } => take_control(parts, index, control),
        Body::Recs(bundle) => take_records(parts, bundle),
        Body::Packet {
            stage,
            bin,
            time,
            state,
        } => take_packet(parts, stage, bin, time, state.into_state()),
        Body::Row { time, tag, fields } => take_row(parts, time, tag, fields),
    }
}

// A control record is noted, and its time is to be settled from now on.
fn take_control<'a, Q: Query, J: Naming>(parts: &mut Parts<'a, Q, J>, index: u32, control: Control)
    requires content { IsControlOf J.job index parts.old.worker.number control }
    requires fresh { has parts.old.worker.log.took (Ctrl index parts.old.worker.number) ≡ false }
    requires room { HasRoomToTake (table_of Q.facts J.job) J.job parts.old }
    ensures { parts.new.worker ≡ with_taken (Ctrl index parts.old.worker.number ∷ []) parts.old.worker }
{
    let time = control.time;
    let name = Name::Ctrl {
        index,
        to: parts.log.worker(),
    };
    let movers = &mut parts.movers[control.stage as usize];
    let changes = ControlChanges::new(control.stage, time, movers.unsettled(time));
    let Ok(()) = parts.log.push(LogList::Took, name, changes.as_slice()) else {
        unreachable!()
    };
    let Ok(()) = parts.owners.note(index, control) else {
        unreachable!()
    };
    let Ok(()) = movers.note(time) else {
        unreachable!()
    };
}

// Records go to the host of their stage, and the list in which they came to the router of that stage.
fn take_records<'a, Q: Query, J: Naming>(parts: &mut Parts<'a, Q, J>, bundle: Bundle)
    requires bundle { IsBundle (table_of Q.facts J.job) J.job bundle }
    requires new { AreOwedAndNew (outline_of (table_of Q.facts J.job) J.job) parts.old.worker.number parts.old.worker.log (names_in bundle) }
    requires room { HasRoomToTake (table_of Q.facts J.job) J.job parts.old }
    ensures { parts.new.worker ≡ with_taken (names_in bundle) parts.old.worker }
{
    let stage = bundle.stage();
    let recs = bundle.recs();
    let time = recs[0].time;
    let host = &mut parts.hosts[stage as usize];
    let groups = host.new_groups(&bundle);
    let changes = [
        many_less(Loc::Mail(stage), time, recs.len()),
        many_more(Loc::Host(stage), time, groups as usize),
    ];
    // Groups that wait already are counted at the host.
    let count = if groups == 0 { 1 } else { 2 };
    let Ok(()) = parts
        .log
        .push_records(LogList::Took, stage, recs, &changes[..count])
    else {
        unreachable!()
    };
    let Ok(list) = host.receive(bundle) else {
        unreachable!()
    };
    parts.routers[stage as usize].keep_list(list);
}

// The state of a bin is in hand from now on.
fn take_packet<'a, Q: Query, J: Naming>(
    parts: &mut Parts<'a, Q, J>,
    stage: u32,
    bin: u32,
    time: Time,
    state: BinState<Q::Cell>,
)
    requires state { IsPacketOf (table_of Q.facts J.job) J.job stage bin time state }
    requires new { AreOwedAndNew (outline_of (table_of Q.facts J.job) J.job) parts.old.worker.number parts.old.worker.log (Packet stage bin time ∷ []) }
    requires room { HasRoomToTake (table_of Q.facts J.job) J.job parts.old }
    ensures { parts.new.worker ≡ with_taken (Packet stage bin time ∷ []) parts.old.worker }
{
    let host = &mut parts.hosts[stage as usize];
    let lists = &mut parts.lists;
    host.coming(&state, &mut lists.numbers);
    let Ok(()) = list_coming(&mut lists.changes, stage, time, lists.numbers.as_slice()) else {
        unreachable!()
    };
    let name = Name::Packet { stage, bin, time };
    let Ok(()) = parts
        .log
        .push(LogList::Took, name, lists.changes.as_slice())
    else {
        unreachable!()
    };
    host.install(bin, time, state);
}

// An answer row goes to those that are to be written.
fn take_row<'a, Q: Query, J: Naming>(
    parts: &mut Parts<'a, Q, J>,
    time: Time,
    tag: Tag,
    fields: Fields,
)
    requires row { IsRowOf (table_of Q.facts J.job) J.job time tag fields }
    requires new { AreOwedAndNew (outline_of (table_of Q.facts J.job) J.job) parts.old.worker.number parts.old.worker.log (Row time tag ∷ []) }
    requires room { HasRoomToTake (table_of Q.facts J.job) J.job parts.old }
    ensures { parts.new.worker ≡ with_taken (Row time tag ∷ []) parts.old.worker }
{
    let name = Name::Row { time, tag };
    let changes = [one_less(Loc::OutMail, time)];
    let Ok(()) = parts.log.push(LogList::Took, name, &changes) else {
        unreachable!()
    };
    let Ok(()) = parts.rows.receive(time, tag, fields) else {
        unreachable!()
    };
}

// Lists what a packet that is taken changes at the counts: it is on its way no longer, and so many groups of each time wait.
// The list is empty and has room for them.
fn list_coming(
    changes: &mut Vec<Change>,
    stage: u32,
    time: Time,
    numbers: &[(Time, u64)],
) -> Result<(), AllocError>
    requires empty { changes.old.items ≡ [] }
    requires room { length numbers.now + 1 ≤ vec_capacity changes.old }
    requires few { All (λ n. n.1 < 2 ^ 63) numbers.now }
    ensures done { IsOk result }
    ensures changes { changes.new.items ≡ packet_taken_at stage time numbers.now }
{
    changes.push(one_less(Loc::State(stage), time))?;
    for (at, number) in numbers {
        changes.push(Change {
            at: Pointstamp {
                loc: Loc::Host(stage),
                time: *at,
            },
            by: *number as i64,
        })?;
    }
    Ok(())
}
