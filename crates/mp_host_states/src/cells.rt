//! The cells of keys.
ghost use Rattle.std.specs.Prelude.{◌≡◌, ◌≢◌, ◌==◌, ◌⊎◌, ℕ, Some, nat_eq, true, cond, IfOk, OnErr, OnOk};
ghost use Rattle.std.specs.HashMap.{get};
ghost use Rattle.mp_host_states.specs.Cells.{cell_of};

use mp_model::{Group, Query, Value};
use std::alloc::{AllocError, Global};
use std::collections::HashMap;

/// Applies a group to the cell of its key, which is fresh where there is none: the outputs, in order. A cell that is fresh
/// then isn't kept. `AllocError`: no memory, and each cell stays as it was.
pub fn step_in<Q: Query>(
    alloc: Global,
    query: &Q,
    stage: u32,
    cells: &mut HashMap<u64, Q::Cell>,
    group: &Group,
) -> Result<Vec<Value>, AllocError>
    requires fits { let q = Q.facts (Q.values query.now) in
        q.fits stage (cell_of (q.fresh stage) cells.old group.now.key) group.now ≡ true }
    ensures cells { let q = Q.facts (Q.values query.now) in
        OnOk result ((l : ℕ) → cell_of (q.fresh stage) cells.new l
        ≡ cond (l == group.now.key) (q.step stage (cell_of (q.fresh stage) cells.old group.now.key) group.now) (cell_of (q.fresh stage) cells.old l)) }
    ensures kept { let q = Q.facts (Q.values query.now) in
        OnOk result ((l : ℕ) (c : Q.Cell) → get nat_eq cells.new l ≡ Some c
        → (get nat_eq cells.old l ≡ Some c) ⊎ ((l ≡ group.now.key) × (c ≢ q.fresh stage))) }
    ensures outputs { let q = Q.facts (Q.values query.now) in
        IfOk result (λ v. v.items ≡ q.gives stage (cell_of (q.fresh stage) cells.old group.now.key) group.now) }
    ensures unchanged { OnErr result (cells.new.entries ≡ cells.old.entries) }
{
    let key = group.key();
    match cells.get_mut(&key) {
        Some(cell) => {
            let outputs = query.step(alloc, stage, cell, group)?;
            if query.is_fresh(stage, cell) {
                cells.remove(&key);
            }
            Ok(outputs)
        }
        None => {
            let mut cell = query.fresh(alloc, stage);
            let outputs = query.step(alloc, stage, &mut cell, group)?;
            if !query.is_fresh(stage, &cell) {
                cells.insert(key, cell)?;
            }
            Ok(outputs)
        }
    }
}

/// No fewer than the outputs that a group will give.
pub fn most_in<Q: Query>(
    alloc: Global,
    query: &Q,
    stage: u32,
    cells: &HashMap<u64, Q::Cell>,
    group: &Group,
) -> u64
    requires fits { let q = Q.facts (Q.values query.now) in
        q.fits stage (cell_of (q.fresh stage) cells.now group.now.key) group.now ≡ true }
    ensures { let q = Q.facts (Q.values query.now) in
        result ≡ q.most stage (cell_of (q.fresh stage) cells.now group.now.key) group.now }
{
    match cells.get(&group.key()) {
        Some(cell) => query.most(stage, cell, group),
        None => query.most(stage, &query.fresh(alloc, stage), group),
    }
}
