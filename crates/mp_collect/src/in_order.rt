//! Cells and wakes in the order of a checkpoint.
ghost use Rattle.std.specs.Prelude.{◌≡◌, IsPermutation};
ghost use Rattle.std.specs.List.Sorted.{IsSortedByKey};
ghost use Rattle.mp_collect.specs.Gathered.{pair_cmp, place_of_cell, place_of_wake, triple_cmp};

use mp_model::Time;
use mp_opening::{KeyCell, KeyWake};

/// Puts cells in the order of their stages, and then of their keys. Takes n log n comparisons of n cells.
pub fn put_cells_in_order<C: Drop>(cells: &mut Vec<KeyCell<C>>)
    ensures same { IsPermutation cells.old.items cells.new.items }
    ensures order { IsSortedByKey place_of_cell pair_cmp cells.new.items }
{
    cells.sort_unstable_by_key(
        |cell: &KeyCell<C>| -> (u32, u64)
            ensures { result ≡ place_of_cell cell.now }
        { (cell.stage, cell.key) },
    );
}

/// Puts wakes in the order of their stages, then of their keys, and then of their times. Takes n log n comparisons of n
/// wakes.
pub fn put_wakes_in_order(wakes: &mut Vec<KeyWake>)
    ensures same { IsPermutation wakes.old.items wakes.new.items }
    ensures order { IsSortedByKey place_of_wake triple_cmp wakes.new.items }
{
    wakes.sort_unstable_by_key(
        |wake: &KeyWake| -> (u32, u64, Time)
            ensures { result ≡ place_of_wake wake.now }
        { (wake.stage, wake.key, wake.time) },
    );
}
