//! How the state of a bin is taken out of those in hand.
ghost use Rattle.std.specs.Prelude.{◌≡◌, ◌<◌, ◌+◌, length, slice_index_or};
ghost use Rattle.std.specs.List.{swap_remove};
ghost use Rattle.std.specs.Vec.{vec_capacity, vec_len};

use mp_host_laws::Held;

/// Takes out the state at a place, all that it has, and keeps nothing of it; the last one takes the place. Takes no memory.
pub fn take_out<C: Drop>(held: &mut Vec<Held<C>>, at: usize) -> Held<C>
    requires { at < length held.old.items }
    ensures taken { result ≡ slice_index_or held.old.items at result }
    ensures left { held.new.items ≡ swap_remove held.old.items at result }
    ensures len { vec_len held.new + 1 ≡ vec_len held.old }
    ensures capacity { vec_capacity held.new ≡ vec_capacity held.old }
{
    held.swap_remove(at)
}
