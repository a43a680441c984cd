//! How a worker applies groups.
ghost use Rattle.std.specs.Prelude.{◌≡◌, ◌≤◌, ◌<◌, ◌+◌, ◌^◌, ◌++◌, ◌∷◌, [], IfNone, IfOk, IfSome, IsOk, OnErr, OnOk, get_or, length, map};
ghost use Rattle.std.specs.Vec.{vec_capacity};
ghost use Rattle.mp_names.specs.declared.locations.Loc.TheVariants.{Host as HostLoc};
ghost use Rattle.mp_names.specs.declared.kinds.Kind.TheVariants.{Apply};
ghost use Rattle.mp_names.specs.declared.names.Name.{Name};
ghost use Rattle.mp_names.specs.Limits.{last_time};
ghost use Rattle.mp_names.specs.Logs.{Log};
ghost use Rattle.mp_stamps.specs.declared.seen.Seen.{Seen as SeenFacts};
ghost use Rattle.mp_bins.specs.Notes.{Notes};
ghost use Rattle.mp_model.specs.Facts.{JobFacts};
ghost use Rattle.mp_model.specs.Tables.{table_of};
ghost use Rattle.mp_rows_laws.specs.Changes.{one_less, one_more, some_more};
ghost use Rattle.mp_outline.specs.JobOutline.{outline_of};
ghost use Rattle.mp_host_laws.specs.HostOf.{HostMatchesLogAndSeen, OwnersAreCurrent};
ghost use Rattle.mp_host.specs.Ready.{IsReadyHere};
ghost use Rattle.mp_worker_invariant.specs.Parts.{Parts as PartsFacts};
ghost use Rattle.mp_worker_apply.specs.Applied.{IsApplying};
ghost use Rattle.mp_worker_apply.specs.Onward.{GoOnward};
ghost use Rattle.mp_worker_refinement.specs.State.{CanMake};
ghost use Rattle.mp_worker_refinement.specs.Steps.{StepsAlone};
ghost use Rattle.mp_worker_apply.specs.Applying.{GroupIsReady, HasRoomToApply, IsEnoughFor};
ghost use Rattle.mp_worker_parts.specs.Kept.{IsKept};

use crate::onward::{count_onward, hold_records, hold_rows, location_after, make_room_onward};
use mp_host::{Applied, Host, ReadyGroup};
use mp_model::{Naming, Query};
use mp_msg::Names;
use mp_names::{Loc, Name};
use mp_rows::{Change, LogList};
use mp_worker_parts::{Parts, one_less, one_more, push_more};
use std::alloc::{AllocError, Global};

/// The least group of a stage that waits is applied, once all that belongs to it has come, where it is before the
/// job's stop time; what it gives goes to the router of the next stage, or from the last stage to the answer rows to be
/// sent: its name, or `None` exactly where no group may be applied. `AllocError`: no memory, and nothing changes.
pub fn apply<'a, Q: Query, J: Naming>(
    parts: &mut Parts<'a, Q, J>,
    stage: u32,
) -> Result<Option<Names>, AllocError>
    requires stage { stage < J.job.shape.stages }
    ensures { let o = outline_of (table_of Q.facts J.job) J.job in
        StepsAlone o (Apply stage) parts.old.worker parts.new.worker result }
{
    let Some(group) = ready_group(parts, stage) else {
        return Ok(None);
    };
    make_room_to_apply(parts, stage as usize + 1, group.most)?;
    apply_ready(parts, stage, group)
}

// The group of a stage that may be applied, with how much it may give; `None` exactly where there is none.
fn ready_group<'a, Q: Query, J: Naming>(parts: &Parts<'a, Q, J>, stage: u32) -> Option<ReadyGroup>
    requires stage { stage < J.job.shape.stages }
    ensures none { let o = outline_of (table_of Q.facts J.job) J.job in
        IfNone result ((x : Name) → CanMake o (Apply stage) parts.now.worker x → ⊥) }
    ensures ready { IfSome result (λ g. GroupIsReady J.job stage g.time g.key parts.now) }
    ensures enough { IfSome result (λ g. g.most + 2 < 2 ^ 64
        → IsEnoughFor (table_of Q.facts J.job) J.job stage g.time g.key g.most parts.now) }
{
    let host = &parts.hosts[stage as usize];
    host.ready_group(parts.alloc, &parts.seen, &parts.owners)
}

// Makes room for a group that gives and wakes no more than `most` in all, and whose outputs go to a stage. `AllocError`: no
// memory, and nothing changes but rooms and the list of changes.
fn make_room_to_apply<'a, Q: Query, J: Naming>(
    parts: &mut Parts<'a, Q, J>,
    onward: usize,
    most: u64,
) -> Result<(), AllocError>
    ensures same { parts.new.worker ≡ parts.old.worker }
    ensures held { (parts.new.hosts ≡ parts.old.hosts) × (parts.new.notes ≡ parts.old.notes) }
    ensures room { OnOk result (HasRoomToApply onward most parts.new) }
    ensures whole { OnOk result (most + 2 < 2 ^ 64) }
{
    let Some(count) = most.checked_add(2) else {
        return Err(AllocError);
    };
    parts.log.make_room(count)?;
    parts.lists.make_room_for_changes(count)?;
    make_room_onward(onward, most, &mut parts.routers, &mut parts.unsent)?;
    Ok(())
}

// Applies the group of a stage that may be applied. There is room for it.
fn apply_ready<'a, Q: Query, J: Naming>(
    parts: &mut Parts<'a, Q, J>,
    stage: u32,
    group: ReadyGroup,
) -> Result<Option<Names>, AllocError>
    requires stage { stage < J.job.shape.stages }
    requires ready { GroupIsReady J.job stage group.time group.key parts.old }
    requires room { HasRoomToApply (stage + 1) group.most parts.old }
    requires enough { IsEnoughFor (table_of Q.facts J.job) J.job stage group.time group.key group.most parts.old }
    ensures { let o = outline_of (table_of Q.facts J.job) J.job in
        StepsAlone o (Apply stage) parts.old.worker parts.new.worker result }
{
    let stages = parts.job.shape().stages;
    let query = parts.job.query();
    let host = &mut parts.hosts[stage as usize];
    let applied = apply_group(parts.alloc, stage, host, group)?;
    let name = Name::Group {
        stage,
        time: applied.time,
        key: applied.key,
    };
    let onward = location_after(stage, stages);
    let number = number_onward::<Q, J>(query, stage, stages, &applied);
    let changes = &mut parts.lists.changes;
    push_changes(changes, stage, onward, number, &applied)?;
    parts.log.push(LogList::Applied, name, changes.as_slice())?;
    if stage + 1 < stages {
        let router = &mut parts.routers[stage as usize + 1];
        hold_records(
            query,
            stage + 1,
            applied.time,
            applied.key,
            applied.outputs,
            router,
        )?;
    } else {
        hold_rows(
            applied.time,
            applied.key,
            applied.outputs,
            &mut parts.unsent,
        )?;
    }
    Ok(Some(Names {
        first: name,
        count: 1,
    }))
}

// Applies the group of a host that may be applied. What is known of it is told of each worker whose host of that stage it is.
fn apply_group<'a, Q: Query, J: Naming>(
    alloc: Global,
    stage: u32,
    host: &mut Host<'a, Q, J>,
    group: ReadyGroup,
) -> Result<Applied, AllocError>
    requires stage { stage < J.job.shape.stages }
    requires ready { let q = table_of Q.facts J.job in
        (seen : SeenFacts) × (notes : Notes) × IsReadyHere J.job seen notes host.old group.time group.key
        × ((log : Log) × HostMatchesLogAndSeen q J.job log seen host.old × OwnersAreCurrent q J.job notes seen host.old.stage) }
    ensures group { IfOk result (λ a. (a.time ≡ group.time) × (a.key ≡ group.key)) }
    ensures told { let q = table_of Q.facts J.job in IfOk result (λ a. (its : JobFacts) (p : PartsFacts Q.Cell)
        → IsKept q J.job its p → host.old ≡ get_or p.hosts stage host.old → IsReadyHere J.job p.seen p.notes host.old group.time group.key
        → IsApplying q J.job p stage a.time a.key a.outputs.items a.woke.items host.new) }
    ensures unchanged { OnErr result (host.new ≡ host.old) }
{
    host.apply_ready(alloc, group)
}

// How many outputs of a group of a stage go on: those that make a record of the next stage, and after the last stage all.
fn number_onward<Q: Query, J: Naming>(
    query: &Q,
    stage: u32,
    stages: u32,
    applied: &Applied,
) -> usize
    requires values { Q.values query.now ≡ J.job.values }
    requires stages { stages ≡ J.job.shape.stages }
    requires stage { stage < stages }
    requires time { applied.now.time ≤ last_time }
    ensures onward { let q = table_of Q.facts J.job in let a = applied.now in
        GoOnward q J.job stage a.time a.key a.outputs.items result }
    ensures few { result < 2 ^ 63 }
{
    let outputs = applied.outputs.as_slice();
    if stage + 1 == stages {
        return outputs.len();
    }
    count_onward::<Q, J>(query, stage + 1, applied.time, applied.key, outputs)
}

// Lists the changes that a group brings to the counts: it waits no longer, so many of its outputs are to be sent, and the
// groups that it wakes wait. The list is empty and has room for them.
fn push_changes(
    changes: &mut Vec<Change>,
    stage: u32,
    onward: Loc,
    number: usize,
    applied: &Applied,
) -> Result<(), AllocError>
    requires empty { changes.old.items ≡ [] }
    requires room { length applied.now.woke.items + 2 ≤ vec_capacity changes.old }
    requires few { number < 2 ^ 63 }
    ensures done { IsOk result }
    ensures changes { changes.new.items
        ≡ one_less (HostLoc stage) applied.now.time ∷ (some_more onward applied.now.time number ++ map (one_more (HostLoc stage)) applied.now.woke.items) }
{
    changes.push(one_less(Loc::Host(stage), applied.time))?;
    push_more(changes, onward, applied.time, number)?;
    for time in applied.woke.as_slice() {
        changes.push(one_more(Loc::Host(stage), *time))?;
    }
    Ok(())
}
