//! Which checkpoints a file may say.
ghost use Rattle.std.specs.Prelude.{◌≡◌, ◌↔◌, ◌≤◌, IsTrue};
ghost use Rattle.mp_names.specs.Limits.{greatest_time};
ghost use Rattle.mp_model.specs.QueryLaws.{WakeIsBefore};
ghost use Rattle.mp_opening.specs.Checkpoints.{KeyIsBefore};
ghost use Rattle.mp_checkpoint_laws.specs.Files.{CellStands, CheckpointFits, WakeStands, format_of};
ghost use Rattle.mp_checkpoint.specs.Fitting.{CellsFit, WakesFit};

use mp_model::Time;
use mp_names::limits::{LAST_TIME, MAX_ID, MAX_TIME};
use mp_opening::{Checkpoint, KeyCell, KeyWake};
use mp_saved::Saved;

/// Whether a file may say this checkpoint of the query: its time is 1 to 2^47; its cells may be saved then, and ascend by
/// stage and key; its wakes, which queries below q4 have none of, are of the first stage, from its time on, and ascend by
/// key and time; keys are at most 2^48.
pub fn fits<Q: Saved>(query: &Q, checkpoint: &Checkpoint<Q>) -> bool
    ensures { IsTrue result ↔ CheckpointFits (format_of Q.NUMBER (Q.values query.now) (Q.facts (Q.values query.now)) Q.text_of) checkpoint.now }
{
    if !time_fits(checkpoint.time) {
        return false;
    }
    if !cells_fit(query, checkpoint.time, &checkpoint.cells) {
        return false;
    }
    wakes_fit(query, checkpoint.time, &checkpoint.wakes)
}

fn time_fits(time: Time) -> bool
    ensures { IsTrue result ↔ ((1 ≤ time) × (time ≤ greatest_time)) }
{
    1 <= time && time <= MAX_TIME
}

fn cells_fit<Q: Saved>(query: &Q, time: Time, cells: &[KeyCell<Q::Cell>]) -> bool
    ensures { IsTrue result ↔ CellsFit (format_of Q.NUMBER (Q.values query.now) (Q.facts (Q.values query.now)) Q.text_of) time cells.now }
{
    for i in 0..cells.len() {
        if !cell_stands(query, time, &cells[i]) {
            return false;
        }
        if i > 0 && !is_cell_before(&cells[i - 1], &cells[i]) {
            return false;
        }
    }
    true
}

fn wakes_fit<Q: Saved>(query: &Q, time: Time, wakes: &[KeyWake]) -> bool
    ensures { IsTrue result ↔ WakesFit (format_of Q.NUMBER (Q.values query.now) (Q.facts (Q.values query.now)) Q.text_of) time wakes.now }
{
    for i in 0..wakes.len() {
        if !wake_stands(query, time, &wakes[i]) {
            return false;
        }
        if i > 0 && !is_wake_before(&wakes[i - 1], &wakes[i]) {
            return false;
        }
    }
    true
}

fn cell_stands<Q: Saved>(query: &Q, time: Time, cell: &KeyCell<Q::Cell>) -> bool
    ensures { IsTrue result ↔ CellStands (format_of Q.NUMBER (Q.values query.now) (Q.facts (Q.values query.now)) Q.text_of) time cell.now }
{
    cell.stage < query.stages()
        && cell.key <= MAX_ID
        && query.is_allowed(cell.stage, cell.key, time, &cell.cell)
}

fn wake_stands<Q: Saved>(_query: &Q, time: Time, wake: &KeyWake) -> bool
    ensures { IsTrue result ↔ WakeStands (format_of Q.NUMBER (Q.values _query.now) (Q.facts (Q.values _query.now)) Q.text_of) time wake.now }
{
    4 <= Q::NUMBER
        && wake.stage == 0
        && wake.key <= MAX_ID
        && time <= wake.time
        && wake.time <= LAST_TIME
}

// Whether a cell stands in front of another.
fn is_cell_before<C>(cell: &KeyCell<C>, other: &KeyCell<C>) -> bool
    ensures { IsTrue result ↔ KeyIsBefore cell.now other.now }
{
    cell.stage < other.stage || cell.stage == other.stage && cell.key < other.key
}

// Whether a wake stands in front of another.
fn is_wake_before(wake: &KeyWake, other: &KeyWake) -> bool
    ensures { IsTrue result ↔ WakeIsBefore wake.now other.now }
{
    if wake.stage != other.stage {
        return wake.stage < other.stage;
    }
    wake.key < other.key || wake.key == other.key && wake.time < other.time
}
