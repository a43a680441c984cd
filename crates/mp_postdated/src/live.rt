//! The set of wakes that are to come.
ghost use Rattle.std.specs.Prelude.{◌≡◌, ◌↔◌, ◌≤◌, ◌+◌, ℕ, [], length};
ghost use Rattle.std.specs.HashSet.{spare};
ghost use Rattle.mp_postdated.specs.Wakes.{Has};

use mp_model::Time;
use std::collections::HashSet;

/// Puts wakes into an empty set, in their order. There is room for them. Takes no memory.
pub fn fill(live: &mut HashSet<(Time, u64)>, wakes: &[(Time, u64)])
    requires empty { live.old.keys ≡ [] }
    requires room { length wakes.now ≤ spare live.old }
    ensures exact { (t k : ℕ) → Has live.new.keys t k ↔ Has wakes.now t k }
    ensures room { spare live.old ≤ spare live.new + length wakes.now }
{
    for wake in wakes {
        let Ok(_) = live.insert(*wake) else {
            unreachable!()
        };
    }
}
