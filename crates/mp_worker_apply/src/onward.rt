//! Where the outputs of a group go: to the router of the next stage, and from the last one to the answer rows to be sent.
ghost use Rattle.std.specs.Prelude.{◌≡◌, ◌≤◌, ◌<◌, ◌+◌, ℕ, [], All, Contains, IsOk, None, OnOk, Some, length, map, slice_get};
ghost use Rattle.mp_names.specs.Logs.{Log};
ghost use Rattle.mp_names.specs.Limits.{last_time};
ghost use Rattle.mp_model.specs.Folds.{outputs_at};
ghost use Rattle.mp_model.specs.Stages.{answer_rows};
ghost use Rattle.mp_model.specs.Tables.{table_of};
ghost use Rattle.mp_outline.specs.JobOutline.{name_of_record, name_of_row};
ghost use Rattle.mp_msg.specs.Contents.{IsRecordOf};
ghost use Rattle.mp_route.specs.Routed.{Routed};
ghost use Rattle.mp_route.specs.Unsent.{HoldsAllBut, HoldsUnsent};
ghost use Rattle.mp_rows_laws.specs.Changes.{location_after};
ghost use Rattle.mp_worker_apply.specs.Onward.{content, records_at};
ghost use Rattle.mp_worker_invariant.specs.Parts.{HoldsRowsBut};

use mp_model::{Naming, Output, Query, Rec, Time, Value};
use mp_names::{Loc, Tag};
use mp_output::Unsent;
use mp_route::Router;
use std::alloc::AllocError;

/// The location at which the outputs of a stage are counted until they are sent.
pub(crate) fn location_after(stage: u32, stages: u32) -> Loc
    requires { stage < stages }
    ensures { result ≡ location_after stage stages }
{
    if stage + 1 == stages {
        Loc::OutRoute
    } else {
        Loc::Route(stage + 1)
    }
}

/// Makes room for this many outputs that go to the stage `at`: in its router, or where there is no such stage in the answer
/// rows. `AllocError`: no memory, and nothing but rooms changes.
pub(crate) fn make_room_onward<Q: Query, J: Naming>(
    at: usize,
    count: u64,
    routers: &mut [Router<Q, J>],
    unsent: &mut Unsent<Q, J>,
) -> Result<(), AllocError>
    ensures held { map content routers.new ≡ map content routers.old }
    ensures rows { unsent.new.rows ≡ unsent.old.rows }
    ensures router { OnOk result ((r : Routed) → slice_get routers.new at ≡ Some r → count ≤ r.room) }
    ensures unsent { OnOk result (slice_get routers.new at ≡ None → count ≤ unsent.new.room) }
{
    if at < routers.len() {
        routers[at].make_room(count)
    } else {
        unsent.make_room(count)
    }
}

/// How many outputs of a group, which has this time and key, make a record of a stage: those that have a key there.
pub(crate) fn count_onward<Q: Query, J: Naming>(
    query: &Q,
    stage: u32,
    time: Time,
    group: u64,
    outputs: &[Value],
) -> usize
    requires rules { Q.values query.now ≡ J.job.values }
    requires time { time ≤ last_time }
    requires next { 0 < stage }
    ensures records { let q = table_of Q.facts J.job in
        result ≡ length (records_at q stage time group outputs.now) }
    ensures few { result ≤ length outputs.now }
{
    let mut count = 0;
    for value in outputs {
        if query.key(stage, time, value).is_some() {
            count += 1;
        }
    }
    count
}

/// Gives the outputs of a group, which has this time and key, to the router of a stage, each that has a key there as a record
/// of it and with its place in its tag; the others are dropped. The router has room for them, so `AllocError` never comes.
pub(crate) fn hold_records<Q: Query, J: Naming>(
    query: &Q,
    stage: u32,
    time: Time,
    group: u64,
    outputs: Vec<Value>,
    router: &mut Router<Q, J>,
) -> Result<(), AllocError>
    requires rules { Q.values query.now ≡ J.job.values }
    requires time { time ≤ last_time }
    requires next { 0 < stage }
    requires stage { router.old.stage ≡ stage }
    requires records { let q = table_of Q.facts J.job in
        All (IsRecordOf q J.job stage) (records_at q stage time group outputs.items) }
    requires room { length outputs.items ≤ router.old.room }
    ensures done { IsOk result }
    ensures stage { router.new.stage ≡ router.old.stage }
    ensures held { let q = table_of Q.facts J.job in
        (w : ℕ) (log : Log)
        → HoldsAllBut q J.job w log (map (name_of_record stage) (records_at q stage time group outputs.items)) router.old
        → HoldsUnsent q J.job w log router.new }
{
    let mut place = 0;
    for value in outputs {
        let tag = Tag(group, place);
        place += 1;
        let Some(key) = query.key(stage, time, &value) else {
            continue;
        };
        router.hold(Rec {
            time,
            key,
            tag,
            value,
        })?;
    }
    Ok(())
}

/// Gives the outputs of a group of the last stage, which has this time and key, to the answer rows to be sent, each with its
/// place in its tag. There is room for them, so `AllocError` never comes.
pub(crate) fn hold_rows<Q: Query, J: Naming>(
    time: Time,
    group: u64,
    outputs: Vec<Value>,
    unsent: &mut Unsent<Q, J>,
) -> Result<(), AllocError>
    requires rows { All (Contains (answer_rows (table_of Q.facts J.job) J.job.events)) (outputs_at time group outputs.items) }
    requires room { length outputs.items ≤ unsent.old.room }
    ensures done { IsOk result }
    ensures held { let q = table_of Q.facts J.job in
        (w : ℕ) (log : Log)
        → HoldsRowsBut q J.job w log (map name_of_row (outputs_at time group outputs.items)) unsent.old.rows
        → HoldsRowsBut q J.job w log [] unsent.new.rows }
{
    let mut place = 0;
    for value in outputs {
        unsent.hold(Output {
            time,
            tag: Tag(group, place),
            value,
        })?;
        place += 1;
    }
    Ok(())
}
