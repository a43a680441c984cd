//! When all is over.
ghost use Rattle.std.specs.Prelude.{◌≡◌, ◌↔◌, ◌≤◌, ℕ, IsTrue};
ghost use Rattle.mp_names.specs.Names.{In};
ghost use Rattle.mp_names.specs.Outlines.{answer_times};
ghost use Rattle.mp_names.specs.declared.names.Name.{Name};
ghost use Rattle.mp_machine.specs.Runs.{IsFinished};
ghost use Rattle.mp_machine.specs.Worlds.{World};
ghost use Rattle.mp_player.specs.Shows.{Shows};

use crate::state::State;
use mp_chart::Chart;
use mp_names::Kind;

/// Whether all is over.
pub fn is_finished<C: Chart>(chart: &C, state: &State) -> bool
    ensures { (depth : ℕ) (world : World) → Shows (C.outline chart.now) depth state.now world → IsTrue result ↔ IsFinished (C.outline chart.now) world }
{
    let is_done = state.left.is_done(chart.until());
    let is_written = has_written_all(chart, state);
    both(is_done, is_written)
}

fn both(a: bool, b: bool) -> bool
    ensures { IsTrue result ↔ (IsTrue a × IsTrue b) }
{
    a && b
}

// Whether worker 0 has written all times of answer rows.
fn has_written_all<C: Chart>(chart: &C, state: &State) -> bool
    ensures { (depth : ℕ) (world : World) → let o = C.outline chart.now in Shows o depth state.now world
        → IsTrue result ↔ ((x : Name) → In x (answer_times o) → In x (world.worker 0).log.settled) }
{
    if chart.workers() == 0 || state.standings.is_empty() {
        return false;
    }
    let written = state.standings[0].done.count(Kind::Write);
    is_within(chart.list(0, Kind::Write).len(), written)
}

fn is_within(least: usize, number: usize) -> bool
    ensures { IsTrue result ↔ least ≤ number }
{
    least <= number
}
