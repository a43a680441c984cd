//! Steps along lists.
ghost use Rattle.std.specs.Prelude.{◌≡◌, ◌↔◌, ◌-◌, ◌<◌, ◌^◌, ℕ, IfNone, IfSome, IsTrue, Ok, OnOk, length, true, false};
ghost use Rattle.std.specs.List.{slice_get};
ghost use Rattle.mp_names.specs.declared.names.Name.{Name};
ghost use Rattle.mp_machine.specs.Steps.{CanStep, stepped};
ghost use Rattle.mp_machine.specs.Worlds.{World};
ghost use Rattle.mp_chart.specs.Lists.{goes_along};
ghost use Rattle.mp_standing.specs.Boxes.{box_of};
ghost use Rattle.mp_standing.specs.Standings.{sends as sends_of};
ghost use Rattle.mp_player.specs.Shows.{CanBeNoted, IsNextAlong, Makes, Shows, mail_after};

use crate::state::State;
use mp_chart::{Chart, Entry};
use mp_names::Kind;
use mp_standing::{Mail, Message, advance, entry_at, fits, has_seen_enough, sends};
use std::alloc::AllocError;

/// Makes a worker's step of a kind that goes along a list, where its condition is true: whether it did. Else nothing changes.
/// `AllocError`: no memory.
pub fn go_along<C: Chart>(
    chart: &C,
    depth: u32,
    worker: u32,
    kind: Kind,
    state: &mut State,
) -> Result<bool, AllocError>
    requires { goes_along kind ≡ true }
    ensures made { result ≡ Ok true → Makes (C.outline chart.now) depth worker kind state.old state.new }
    ensures refused { result ≡ Ok false → (world : World) → Shows (C.outline chart.now) depth state.old world
        → (x : Name) → CanStep (C.outline chart.now) depth world worker kind x → ⊥ }
    ensures same { result ≡ Ok false → state.new ≡ state.old }
{
    let Some(entry) = next_along(chart, depth, worker, kind, state) else {
        return Ok(false);
    };
    make_along(chart, worker, kind, entry, state)?;
    Ok(true)
}

// The entry with which a worker's step of a kind that goes along a list can be made, if it can be.
fn next_along<C: Chart>(
    chart: &C,
    depth: u32,
    worker: u32,
    kind: Kind,
    state: &State,
) -> Option<Entry>
    requires { goes_along kind ≡ true }
    ensures noted { IfSome result (λ e. CanBeNoted (C.outline chart.now) worker kind state.now) }
    ensures next { IfSome result (λ e. (world : World) → Shows (C.outline chart.now) depth state.now world
        → IsNextAlong (C.outline chart.now) depth worker kind state.now world e) }
    ensures none { IfNone result ((world : World) → Shows (C.outline chart.now) depth state.now world
        → (x : Name) → CanStep (C.outline chart.now) depth world worker kind x → ⊥) }
{
    if worker >= chart.workers() {
        return None;
    }
    let Some(standing) = state.standings.get(worker as usize) else {
        return None;
    };
    let place = standing.done.count(kind);
    let Some(entry) = entry_at(chart, worker, kind, place) else {
        return None;
    };
    if !fits(chart, kind) {
        return None;
    }
    if !has_seen_enough(chart, worker, kind, entry, standing) {
        return None;
    }
    if !has_room(&state.mail, depth, worker, kind, entry) {
        return None;
    }
    Some(entry)
}

// Whether there is room for what a step along a list sends, if it sends.
fn has_room(mail: &Mail, depth: u32, worker: u32, kind: Kind, entry: Entry) -> bool
    ensures { IsTrue result ↔ (sends_of kind ≡ true → length (box_of mail.now worker entry.receiver) < depth) }
{
    !sends(kind) || mail.count(worker, entry.receiver) < depth as usize
}

// Makes the step along a list with this entry.
fn make_along<C: Chart>(
    chart: &C,
    worker: u32,
    kind: Kind,
    entry: Entry,
    state: &mut State,
) -> Result<(), AllocError>
    requires along { goes_along kind ≡ true }
    requires noted { CanBeNoted (C.outline chart.now) worker kind state.old }
    ensures { OnOk result ((depth : ℕ) (world : World) → Shows (C.outline chart.now) depth state.old world
        → (next : IsNextAlong (C.outline chart.now) depth worker kind state.old world entry)
        → Shows (C.outline chart.now) depth state.new (stepped (C.outline chart.now) world worker kind next.name)) }
{
    send(&mut state.mail, worker, kind, entry)?;
    advance(
        chart,
        worker,
        kind,
        entry,
        &mut state.standings[worker as usize],
    )?;
    Ok(())
}

// Sends what a step along a list sends, if it sends.
fn send(mail: &mut Mail, worker: u32, kind: Kind, entry: Entry) -> Result<(), AllocError>
    ensures { OnOk result (mail.new ≡ mail_after kind worker entry mail.old) }
{
    if sends(kind) {
        let message = Message {
            first: entry,
            count: 1,
        };
        mail.push(worker, entry.receiver, message)?;
    }
    Ok(())
}
