//! Messages that are taken.
ghost use Rattle.std.specs.Prelude.{◌≡◌, ◌<◌, ◌++◌, ◌∷◌, [], ℕ, IfNone, IfSome, Ok, OnOk, length, true, false};
ghost use Rattle.std.specs.List.{slice_get};
ghost use Rattle.mp_names.specs.declared.kinds.Kind.{Kind};
ghost use Rattle.mp_names.specs.declared.names.Name.{Name};
ghost use Rattle.mp_names.specs.Outlines.{Outline};
ghost use Rattle.mp_machine.specs.Steps.{CanStep, stepped};
ghost use Rattle.mp_machine.specs.Worlds.{World};
ghost use Rattle.mp_player.specs.Shows.{IsNextMessage, Makes, Shows};

use crate::state::State;
use mp_chart::Chart;
use mp_names::Kind;
use mp_standing::{Message, work_done};
use std::alloc::AllocError;

/// Takes the oldest message from a worker to another, where one waits: whether it did. Else nothing changes. `AllocError`: no
/// memory.
pub fn receive<C: Chart>(
    chart: &C,
    depth: u32,
    worker: u32,
    from: u32,
    state: &mut State,
) -> Result<bool, AllocError>
    ensures made { result ≡ Ok true → Makes (C.outline chart.now) depth worker (Kind.Receive from) state.old state.new }
    ensures refused { result ≡ Ok false → (world : World) → Shows (C.outline chart.now) depth state.old world
        → (x : Name) → CanStep (C.outline chart.now) depth world worker (Kind.Receive from) x → ⊥ }
    ensures same { result ≡ Ok false → state.new ≡ state.old }
{
    let Some(message) = next_message(chart, worker, from, state) else {
        return Ok(false);
    };
    take(worker, from, message, state)?;
    Ok(true)
}

// The message that a worker takes next from another, if one waits.
fn next_message<C: Chart>(chart: &C, worker: u32, from: u32, state: &State) -> Option<Message>
    ensures standing { IfSome result (λ m. worker < length state.now.standings.items) }
    ensures next { IfSome result (λ m. (depth : ℕ) (world : World) → Shows (C.outline chart.now) depth state.now world
        → IsNextMessage (C.outline chart.now) depth worker from world m) }
    ensures none { IfNone result ((depth : ℕ) (world : World) → Shows (C.outline chart.now) depth state.now world
        → (x : Name) → CanStep (C.outline chart.now) depth world worker (Kind.Receive from) x → ⊥) }
{
    let workers = chart.workers();
    if worker >= workers || from >= workers || worker as usize >= state.standings.len() {
        return None;
    }
    state.mail.first(from, worker)
}

// Takes this message, the oldest.
fn take(worker: u32, from: u32, message: Message, state: &mut State) -> Result<(), AllocError>
    requires { worker < length state.old.standings.items }
    ensures { OnOk result ((o : Outline) (depth : ℕ) (world : World) → Shows o depth state.old world
        → (next : IsNextMessage o depth worker from world message)
        → Shows o depth state.new (stepped o world worker (Kind.Receive from) next.name)) }
{
    state.mail.pop(from, worker);
    let work = work_done(Kind::Receive(from), message.first, message.count);
    state.standings[worker as usize].note(Kind::Receive(from), work)?;
    Ok(())
}
