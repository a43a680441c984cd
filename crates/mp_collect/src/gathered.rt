//! The cells and wakes of states, one state after the other.
ghost use Rattle.std.specs.Prelude.{◌++◌, IfOk, IsPermutation, OnOk, map};
ghost use Rattle.std.specs.List.{flat_map};
ghost use Rattle.mp_msg.specs.States.{by_key};
ghost use Rattle.mp_collect.specs.Gathered.{as_cell, as_wake, cells_of, wakes_of};

use mp_msg::BinState;
use mp_opening::{KeyCell, KeyWake};
use mp_postdated::Wakes;
use std::alloc::{AllocError, Global};
use std::collections::HashMap;

/// The cells of the states of all workers, and their wakes, in no order. `AllocError`: no memory.
pub fn gather<C: Drop>(
    alloc: Global,
    states: Vec<Vec<(u32, BinState<C>)>>,
) -> Result<(Vec<KeyCell<C>>, Vec<KeyWake>), AllocError>
    ensures cells { IfOk result (λ both. IsPermutation (cells_of (flat_map (λ own. own.items) states.items)) both.0.items) }
    ensures wakes { IfOk result (λ both. IsPermutation (wakes_of (flat_map (λ own. own.items) states.items)) both.1.items) }
{
    let mut cells = Vec::new(alloc);
    let mut wakes = Vec::new(alloc);
    for own in states {
        add_states(&mut cells, &mut wakes, own)?;
    }
    Ok((cells, wakes))
}

// Adds the cells and wakes of the states of a worker. `AllocError`: no memory.
fn add_states<C: Drop>(
    cells: &mut Vec<KeyCell<C>>,
    wakes: &mut Vec<KeyWake>,
    states: Vec<(u32, BinState<C>)>,
) -> Result<(), AllocError>
    ensures cells { OnOk result (IsPermutation (cells.old.items ++ cells_of states.items) cells.new.items) }
    ensures wakes { OnOk result (IsPermutation (wakes.old.items ++ wakes_of states.items) wakes.new.items) }
{
    for (stage, state) in states {
        add_state(cells, wakes, stage, state)?;
    }
    Ok(())
}

// Adds the cells and wakes of a state. `AllocError`: no memory.
fn add_state<C: Drop>(
    cells: &mut Vec<KeyCell<C>>,
    wakes: &mut Vec<KeyWake>,
    stage: u32,
    state: BinState<C>,
) -> Result<(), AllocError>
    ensures cells { OnOk result (IsPermutation (cells.old.items ++ map (as_cell stage) state.cells) cells.new.items) }
    ensures wakes { OnOk result (IsPermutation (wakes.old.items ++ map (as_wake stage) state.wakes) wakes.new.items) }
{
    let BinState {
        cells: own,
        wakes: due,
    } = state;
    add_cells(cells, stage, own)?;
    add_wakes(wakes, stage, &due)
}

// Adds cells by key. `AllocError`: no memory.
fn add_cells<C: Drop>(
    cells: &mut Vec<KeyCell<C>>,
    stage: u32,
    own: HashMap<u64, C>,
) -> Result<(), AllocError>
    ensures { OnOk result (IsPermutation (cells.old.items ++ map (as_cell stage) (by_key own.entries)) cells.new.items) }
{
    for (key, cell) in own {
        cells.push(KeyCell { stage, key, cell })?;
    }
    Ok(())
}

// Adds wakes. `AllocError`: no memory.
fn add_wakes(wakes: &mut Vec<KeyWake>, stage: u32, due: &Wakes) -> Result<(), AllocError>
    ensures { OnOk result (IsPermutation (wakes.old.items ++ map (as_wake stage) due.now.wakes) wakes.new.items) }
{
    for (time, key) in due.iter() {
        wakes.push(KeyWake {
            stage,
            key: *key,
            time: *time,
        })?;
    }
    Ok(())
}
