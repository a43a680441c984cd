//! What a group makes of the state of its key's bin.
ghost use Rattle.std.specs.Prelude.{◌≡◌, ◌≢◌, ◌↔◌, ◌⊎◌, ◌==◌, ℕ, false, true, cond, Contains, IfOk, OnErr, OnOk};
ghost use Rattle.mp_msg.specs.States.{IsInOrder, cell_in};
ghost use Rattle.mp_postdated.specs.Wakes.{Has, IsWake};
ghost use Rattle.mp_host_steps.specs.Changes.{changes_wakes};

use crate::cells::{most_in, step_in};
use mp_host_steps::{make_room_for, step_wakes};
use mp_model::{Group, Query, Time, Value};
use mp_msg::BinState;
use std::alloc::{AllocError, Global};

/// Applies a group to the state of its key's bin: the outputs, in order. Its wake is used up, the times that its records
/// post are wakes, and a cell that is fresh then isn't kept. `AllocError`: no memory, and the state stays as it was.
pub fn step_state<Q: Query>(
    alloc: Global,
    query: &Q,
    stage: u32,
    state: &mut BinState<Q::Cell>,
    group: &Group,
    posts: &[Time],
) -> Result<Vec<Value>, AllocError>
    requires fits { let q = Q.facts (Q.values query.now) in
        q.fits stage (cell_in (q.fresh stage) state.old.cells group.now.key) group.now ≡ true }
    requires woken { Has state.old.wakes group.now.time group.now.key → group.now.woken ≡ true }
    ensures wakes { OnOk result ((t k : ℕ) → Has state.new.wakes t k
        ↔ ((Has state.old.wakes t k × (IsWake group.now.time group.now.key (t, k) → ⊥)) ⊎ ((k ≡ group.now.key) × Contains posts.now t))) }
    ensures cells { let q = Q.facts (Q.values query.now) in
        OnOk result ((l : ℕ) → cell_in (q.fresh stage) state.new.cells l
        ≡ cond (l == group.now.key) (q.step stage (cell_in (q.fresh stage) state.old.cells group.now.key) group.now) (cell_in (q.fresh stage) state.old.cells l)) }
    ensures kept { let q = Q.facts (Q.values query.now) in
        OnOk result ((l : ℕ) (c : Q.Cell) → Contains state.new.cells (l, c)
        → Contains state.old.cells (l, c) ⊎ ((l ≡ group.now.key) × (c ≢ q.fresh stage))) }
    ensures outputs { let q = Q.facts (Q.values query.now) in
        IfOk result (λ v. v.items ≡ q.gives stage (cell_in (q.fresh stage) state.old.cells group.now.key) group.now) }
    ensures same_wakes { OnOk result (changes_wakes group.now posts.now ≡ false → state.new.wakes ≡ state.old.wakes) }
    ensures unchanged { OnErr result (state.new ≡ state.old) }
    ensures in_order { IsInOrder state.new }
{
    make_room_for(&mut state.wakes, posts)?;
    let outputs = step_in(alloc, query, stage, &mut state.cells, group)?;
    step_wakes(&mut state.wakes, group, posts);
    Ok(outputs)
}

/// No fewer than the outputs that a group of a key of the state's bin will give.
pub fn most_of_state<Q: Query>(
    alloc: Global,
    query: &Q,
    stage: u32,
    state: &BinState<Q::Cell>,
    group: &Group,
) -> u64
    requires fits { let q = Q.facts (Q.values query.now) in
        q.fits stage (cell_in (q.fresh stage) state.now.cells group.now.key) group.now ≡ true }
    ensures { let q = Q.facts (Q.values query.now) in
        result ≡ q.most stage (cell_in (q.fresh stage) state.now.cells group.now.key) group.now }
{
    most_in(alloc, query, stage, &state.cells, group)
}
