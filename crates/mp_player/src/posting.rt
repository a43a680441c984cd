//! Exchanges.
ghost use Rattle.std.specs.Prelude.{◌≡◌, ◌↔◌, ◌<◌, ℕ, IsTrue, length, true, false};
ghost use Rattle.mp_names.specs.declared.kinds.Kind.{Kind};
ghost use Rattle.mp_names.specs.Outlines.{Outline};
ghost use Rattle.mp_machine.specs.Steps.{CanExchange, exchanged, version_after};
ghost use Rattle.mp_machine.specs.Worlds.{World};
ghost use Rattle.mp_player.specs.Shows.{MayExchange, Shows};

use crate::state::State;
use mp_chart::Chart;
use mp_standing::Standing;

/// Makes a worker's exchange, where its condition is true and it gives this version: whether it did. Else nothing changes.
pub fn exchange<C: Chart>(chart: &C, worker: u32, version: u64, state: &mut State) -> bool
    ensures made { result ≡ true → (depth : ℕ) (world : World) → Shows (C.outline chart.now) depth state.old world
        → CanExchange (C.outline chart.now) world worker Kind.Exchange × (version ≡ version_after world worker)
        × Shows (C.outline chart.now) depth state.new (exchanged (C.outline chart.now) world worker) }
    ensures refused { result ≡ false → (depth : ℕ) (world : World) → Shows (C.outline chart.now) depth state.old world
        → CanExchange (C.outline chart.now) world worker Kind.Exchange → version ≡ version_after world worker → ⊥ }
    ensures same { result ≡ false → state.new ≡ state.old }
{
    if worker >= chart.workers() || worker as usize >= state.standings.len() {
        return false;
    }
    if !may_exchange(&state.standings[worker as usize], state.version, version) {
        return false;
    }
    post(worker, version, state);
    true
}

/// Whether a worker's log is what it posted. So it is of one that the job hasn't.
pub fn is_posted(state: &State, worker: u32) -> bool
    ensures { (o : Outline) (depth : ℕ) (world : World) → Shows o depth state.now world
        → let w = world.worker worker in IsTrue result ↔ (w.log ≡ w.posted) }
{
    if worker as usize >= state.standings.len() {
        return true;
    }
    !state.standings[worker as usize].changed
}

// Whether a worker that stands there may make an exchange that gives this version, where the board has that one.
fn may_exchange(standing: &Standing, board: u64, version: u64) -> bool
    ensures { IsTrue result ↔ MayExchange standing.now.changed standing.now.seen.version board version }
{
    if standing.changed {
        version > 0 && version - 1 == board
    } else {
        version == board && standing.seen.version() != board
    }
}

// Makes an exchange that gives this version.
fn post(worker: u32, version: u64, state: &mut State)
    requires { worker < length state.old.standings.items }
    ensures { (o : Outline) (depth : ℕ) (world : World) → Shows o depth state.old world
        → CanExchange o world worker Kind.Exchange → version ≡ version_after world worker
        → Shows o depth state.new (exchanged o world worker) }
{
    let standing = &mut state.standings[worker as usize];
    state.left.do_all(&standing.since);
    standing.since.clear();
    standing.changed = false;
    standing.seen = state.left.seen(version);
    state.version = version;
}
