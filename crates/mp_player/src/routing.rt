//! Records that are routed.
ghost use Rattle.std.specs.Prelude.{◌≡◌, ◌<◌, [], ℕ, IfNone, IfSome, Ok, OnOk, get_or, length, true, false};
ghost use Rattle.mp_names.specs.declared.kinds.Kind.{Kind};
ghost use Rattle.mp_names.specs.declared.names.Name.{Name};
ghost use Rattle.mp_names.specs.Outlines.{Outline};
ghost use Rattle.mp_machine.specs.Steps.{CanStep, stepped};
ghost use Rattle.mp_machine.specs.Worlds.{World};
ghost use Rattle.mp_player.specs.Shows.{Makes, Shows};
ghost use Rattle.mp_player.specs.Routing.{IsFirstBundle, IsNextBundle, records_to, without_first};

use crate::state::State;
use mp_chart::Chart;
use mp_names::{Kind, Loc};
use mp_stamps::passed;
use mp_standing::{Message, Standing, work_done};
use std::alloc::AllocError;

/// Makes a worker's step that routes records of a stage, where its condition is true: whether it did. Else nothing changes.
/// `AllocError`: no memory.
pub fn route<C: Chart>(
    chart: &C,
    depth: u32,
    worker: u32,
    stage: u32,
    state: &mut State,
) -> Result<bool, AllocError>
    ensures made { result ≡ Ok true → Makes (C.outline chart.now) depth worker (Kind.Route stage) state.old state.new }
    ensures refused { result ≡ Ok false → (world : World) → Shows (C.outline chart.now) depth state.old world
        → (x : Name) → CanStep (C.outline chart.now) depth world worker (Kind.Route stage) x → ⊥ }
    ensures same { result ≡ Ok false → state.new ≡ state.old }
{
    let Some(message) = next_bundle(chart, depth, worker, stage, state) else {
        return Ok(false);
    };
    send_bundle(worker, stage, message, state)?;
    Ok(true)
}

// The message with which a worker can route records of a stage, if it can.
fn next_bundle<C: Chart>(
    chart: &C,
    depth: u32,
    worker: u32,
    stage: u32,
    state: &State,
) -> Option<Message>
    ensures standing { IfSome result (λ m. worker < length state.now.standings.items) }
    ensures next { IfSome result (λ m. (world : World) → Shows (C.outline chart.now) depth state.now world
        → IsNextBundle (C.outline chart.now) depth worker stage world m) }
    ensures none { IfNone result ((world : World) → Shows (C.outline chart.now) depth state.now world
        → (x : Name) → CanStep (C.outline chart.now) depth world worker (Kind.Route stage) x → ⊥) }
{
    if worker >= chart.workers() || worker as usize >= state.standings.len() {
        return None;
    }
    let standing = &state.standings[worker as usize];
    let Some(message) = first_bundle(standing, stage, chart.bundle()) else {
        return None;
    };
    if !passed(standing.seen.frontier(Loc::CtlMail), message.first.time) {
        return None;
    }
    if state.mail.count(worker, message.first.receiver) >= depth as usize {
        return None;
    }
    Some(message)
}

// The least of the records of a stage that a worker holds, with how many go in one message with it; `None` exactly where it holds
// none.
fn first_bundle(standing: &Standing, stage: u32, most: u32) -> Option<Message>
    ensures some { IfSome result (λ m. IsFirstBundle (get_or standing.now.held.items stage []) most m) }
    ensures none { IfNone result ((v : ℕ) → records_to (get_or standing.now.held.items stage []) v ≡ []) }
{
    if stage as usize >= standing.held.len() {
        return None;
    }
    let held = &standing.held[stage as usize];
    let Some(first) = held.first() else {
        return None;
    };
    let count = held.run(first.receiver, first.time, most);
    Some(Message { first, count })
}

// Sends these records of a stage in one message.
fn send_bundle(
    worker: u32,
    stage: u32,
    message: Message,
    state: &mut State,
) -> Result<(), AllocError>
    requires { worker < length state.old.standings.items }
    ensures { OnOk result ((o : Outline) (depth : ℕ) (world : World) → Shows o depth state.old world
        → (next : IsNextBundle o depth worker stage world message)
        → Shows o depth state.new (stepped o world worker (Kind.Route stage) next.name)) }
{
    state.mail.push(worker, message.first.receiver, message)?;
    let work = work_done(Kind::Route(stage), message.first, message.count);
    let standing = &mut state.standings[worker as usize];
    standing.note(Kind::Route(stage), work)?;
    take_off(standing, stage, message);
    Ok(())
}

// The records of a message go from those of a stage that a worker holds.
fn take_off(standing: &mut Standing, stage: u32, message: Message)
    ensures held { standing.new.held.items ≡ without_first standing.old.held.items stage message.first.receiver message.count }
    ensures done { standing.new.done ≡ standing.old.done }
    ensures work { standing.new.since ≡ standing.old.since }
    ensures changed { standing.new.changed ≡ standing.old.changed }
    ensures seen { standing.new.seen ≡ standing.old.seen }
{
    if (stage as usize) < standing.held.len() {
        standing.held[stage as usize].drop_first(message.first.receiver, message.count);
    }
}
