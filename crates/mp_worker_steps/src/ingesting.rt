//! How a worker takes in its share.
ghost use Rattle.std.specs.Prelude.{◌≡◌, IfNone, IfOk, IfSome, OnOk};
ghost use Rattle.mp_names.specs.declared.kinds.Kind.TheVariants.{Ingest};
ghost use Rattle.mp_names.specs.declared.names.Name.{Name};
ghost use Rattle.mp_outline.specs.JobOutline.{outline_of};
ghost use Rattle.mp_worker_steps.specs.Ingesting.{IsNextRecord, HasRoomToIngest};
ghost use Rattle.mp_worker_refinement.specs.State.{CanMake};
ghost use Rattle.mp_worker_refinement.specs.Steps.{MakesAlone, StepsAlone};
ghost use Rattle.mp_model.specs.Tables.{table_of};

use mp_model::{Naming, Query, Rec};
use mp_msg::Names;
use mp_names::{Loc, Name};
use mp_rows::LogList;
use mp_worker_parts::{Parts, one_less, one_more};
use std::alloc::AllocError;

/// The next record of the worker's share goes to the router of stage 0: its name, or `None` exactly where all of the
/// share is ingested. `AllocError`: no memory, and nothing changes.
pub fn ingest<'a, Q: Query, J: Naming>(
    parts: &mut Parts<'a, Q, J>,
) -> Result<Option<Names>, AllocError>
    ensures { let o = outline_of (table_of Q.facts J.job) J.job in
        StepsAlone o Ingest parts.old.worker parts.new.worker result }
{
    let Some(rec) = next_record(parts)? else {
        return Ok(None);
    };
    make_room_to_ingest(parts)?;
    Ok(Some(ingest_record(parts, rec)))
}

// The next record of the worker's share, `None` exactly where all of it is ingested. `AllocError`: no memory.
fn next_record<'a, Q: Query, J: Naming>(parts: &Parts<'a, Q, J>) -> Result<Option<Rec>, AllocError>
    ensures none { let o = outline_of (table_of Q.facts J.job) J.job in
        IfOk result (λ next. IfNone next ((x : Name) → CanMake o Ingest parts.now.worker x → ⊥)) }
    ensures next { let q = table_of Q.facts J.job in let s = parts.now.worker in
        IfOk result (λ next. IfSome next (IsNextRecord q J.job s.number s.log)) }
{
    let next = parts.log.ingested() as usize;
    let Some(index) = parts.job.share(parts.log.worker()).get(next) else {
        return Ok(None);
    };
    Ok(Some(parts.job.rec_at(*index)?))
}

// Makes room for a record that is ingested. `AllocError`: no memory, and nothing but rooms changes.
fn make_room_to_ingest<'a, Q: Query, J: Naming>(
    parts: &mut Parts<'a, Q, J>,
) -> Result<(), AllocError>
    ensures same { parts.new.worker ≡ parts.old.worker }
    ensures room { OnOk result (HasRoomToIngest parts.new) }
{
    parts.log.make_room(2)?;
    parts.routers[0].make_room(1)
}

// Ingests the record that is next. There is room for it.
fn ingest_record<'a, Q: Query, J: Naming>(parts: &mut Parts<'a, Q, J>, rec: Rec) -> Names
    requires next { let q = table_of Q.facts J.job in let s = parts.old.worker in IsNextRecord q J.job s.number s.log rec }
    requires room { HasRoomToIngest parts.old }
    ensures { MakesAlone (outline_of (table_of Q.facts J.job) J.job) Ingest parts.old.worker parts.new.worker result }
{
    let time = rec.time;
    let name = Name::Rec {
        stage: 0,
        time,
        key: rec.key,
        tag: rec.tag,
    };
    let changes = [one_less(Loc::Source, time), one_more(Loc::Route(0), time)];
    let Ok(()) = parts.log.push(LogList::Ingested, name, &changes) else {
        unreachable!()
    };
    let Ok(()) = parts.routers[0].hold(rec) else {
        unreachable!()
    };
    Names {
        first: name,
        count: 1,
    }
}
