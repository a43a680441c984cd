//! The wakes of a bin: those that it begins with, and those that a group of a key of it leaves.
ghost use Rattle.std.specs.Prelude.{◌≡◌, ◌↔◌, ◌⊎◌, ◌≤◌, ℕ, false, true, Contains, IfOk, OnOk, length};
ghost use Rattle.mp_postdated.specs.Wakes.{Has, IsAscending, IsWake};
ghost use Rattle.mp_host_steps.specs.Changes.{changes_wakes};

use mp_model::{Group, Time};
use mp_postdated::Wakes;
use std::alloc::{AllocError, Global};

/// These wakes, which take time linear in their number where they ascend. `AllocError`: no memory.
pub fn wakes_of(alloc: Global, due: &[(Time, u64)]) -> Result<Wakes, AllocError>
    ensures same { IfOk result (λ w. (u k : ℕ) → Has w.wakes u k ↔ Contains due.now (u, k)) }
    ensures ascending { IfOk result (λ w. IsAscending w.wakes) }
{
    let mut wakes = Wakes::new(alloc);
    wakes.make_room(due.len())?;
    for (time, key) in due {
        wakes.add(*time, *key)?;
    }
    Ok(wakes)
}

/// Whether a group that posts these times may change the wakes of its key's bin.
pub fn changes_wakes(group: &Group, posts: &[Time]) -> bool
    ensures { result ≡ changes_wakes group.now posts.now }
{
    group.is_woken() || !posts.is_empty()
}

/// Makes room for wakes at these times, if there are any. `AllocError`: no memory.
pub fn make_room_for(wakes: &mut Wakes, posts: &[Time]) -> Result<(), AllocError>
    ensures room { OnOk result (length posts.now ≤ wakes.new.room) }
    ensures same { wakes.new.wakes ≡ wakes.old.wakes }
{
    if posts.is_empty() {
        return Ok(());
    }
    wakes.make_room(posts.len())
}

/// Makes of a bin's wakes what a group leaves: its own is used up, and the times that its records post are wakes of its key.
/// There is room for them. Takes no memory.
pub fn step_wakes(wakes: &mut Wakes, group: &Group, posts: &[Time])
    requires room { length posts.now ≤ wakes.old.room }
    requires woken { Has wakes.old.wakes group.now.time group.now.key → group.now.woken ≡ true }
    ensures exact { (t k : ℕ) → Has wakes.new.wakes t k
        ↔ ((Has wakes.old.wakes t k × (IsWake group.now.time group.now.key (t, k) → ⊥)) ⊎ ((k ≡ group.now.key) × Contains posts.now t)) }
    ensures same { changes_wakes group.now posts.now ≡ false → IsAscending wakes.old.wakes → wakes.new.wakes ≡ wakes.old.wakes }
    ensures ascending { IsAscending wakes.new.wakes }
{
    take_wake(wakes, group);
    wakes.add_all(group.key(), posts);
}

// Takes the wake of a group out, if it has one.
fn take_wake(wakes: &mut Wakes, group: &Group)
    requires { Has wakes.old.wakes group.now.time group.now.key → group.now.woken ≡ true }
    ensures exact { (t k : ℕ) → Has wakes.new.wakes t k ↔ (Has wakes.old.wakes t k × (IsWake group.now.time group.now.key (t, k) → ⊥)) }
    ensures room { wakes.old.room ≤ wakes.new.room }
{
    if group.is_woken() {
        wakes.take_due(group.time(), group.key());
    }
}
