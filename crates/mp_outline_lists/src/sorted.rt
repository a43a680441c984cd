//! Names in rank order.
ghost use Rattle.std.specs.Prelude.{◌≡◌, IfOk, true};
ghost use Rattle.std.specs.List.Sorted.{IsSortedByKey};
ghost use Rattle.std.specs.Ordering.{is_le};
ghost use Rattle.mp_names.specs.Names.{ascending};
ghost use Rattle.mp_outline_lists.specs.Ranks.{rank_cmp, rank_of};

use crate::by_time::by_time;
use crate::rank::{Rank, rank_of};
use mp_names::Name;
use std::alloc::{AllocError, Global};

/// Puts names in rank order, and keeps each once. Takes n log n comparisons of n names.
pub fn put_in_order(names: &mut Vec<Name>)
    ensures { names.new.items ≡ ascending names.old.items }
{
    if are_sorted(names) {
        names.dedup();
        return;
    }
    names.sort_unstable_by_key(
        |name: &Name| -> Rank
            ensures { result ≡ rank_of name.now }
        { rank_of(*name) },
    );
    names.dedup();
}

// Whether names stand in rank order.
fn are_sorted(names: &[Name]) -> bool
    ensures { result ≡ true → IsSortedByKey rank_of rank_cmp names.now }
{
    names.is_sorted_by(
        |name: &Name, next: &Name| -> bool
            ensures { result ≡ is_le (rank_cmp (rank_of name.now) (rank_of next.now)) }
        { rank_of(*name).cmp(&rank_of(*next)).is_le() },
    )
}

/// Names in rank order, each once. `AllocError`: no memory.
pub fn in_order(alloc: Global, names: &[Name]) -> Result<Vec<Name>, AllocError>
    ensures { IfOk result (λ sorted. sorted.items ≡ ascending names.now) }
{
    let mut sorted = by_time(alloc, names)?;
    put_in_order(&mut sorted);
    Ok(sorted)
}
