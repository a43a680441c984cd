//! The state of a bin of the tests.
ghost use Rattle.std.specs.Prelude.{◌≡◌, IfOk};
ghost use Rattle.mp_samples.specs.States.{state_of_bin};

use mp_msg::BinState;
use mp_postdated::Wakes;
use std::alloc::{AllocError, Global};
use std::collections::HashMap;

/// What the bin of auction 7 has just before it moves, in the job that `one_move` makes: the auction is marked, and woken at
/// 15. `AllocError`: no memory.
pub fn state_of_bin(alloc: Global) -> Result<BinState<u64>, AllocError>
    ensures { IfOk result (λ s. s ≡ state_of_bin) }
{
    let mut cells = HashMap::new(alloc);
    cells.insert(7, 1)?;
    let mut wakes = Wakes::new(alloc);
    wakes.add(15, 7)?;
    Ok(BinState { cells, wakes })
}
