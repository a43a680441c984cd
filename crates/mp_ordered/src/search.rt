//! Searches in slices by halving.
ghost use Rattle.std.specs.Prelude.{◌≡◌, ◌≤◌, ◌<◌, length, slice_get};
ghost use Rattle.std.specs.List.{insert, prefix_len};
ghost use Rattle.std.specs.List.Sorted.{IsPartitionedBy};
ghost use Rattle.mp_ordered.specs.InOrder.{IsInOrder, begins, first_from, put_in_order};

use crate::cut::{Before, Cut};
use crate::order::Order;
use std::marker::PhantomData;

/// How many items of a slice in order come before one. Where that is at an end, the others aren't searched.
pub fn place_of<T, O: Order<T>>(items: &[T], item: &T) -> usize
    requires { IsInOrder O.rank items.now }
    ensures inside { result ≤ length items.now }
    ensures place { insert items.now result item.now ≡ put_in_order O.rank item.now items.now }
    ensures from { slice_get items.now result ≡ first_from O.rank item.now items.now }
{
    let before: Before<T, O> = Before {
        item,
        of: PhantomData,
    };
    cut_in_slice(items, &before)
}

/// How many items of a slice stand in front of a cut. Where it is at an end of the slice it isn't searched for.
pub fn cut_in_slice<T, C: Cut<T>>(items: &[T], cut: &C) -> usize
    requires { IsPartitionedBy (C.front cut.now) items.now }
    ensures { result ≡ prefix_len (C.front cut.now) items.now }
{
    let Some(last) = items.last() else {
        return 0;
    };
    if cut.is_in_front(last) {
        return items.len();
    }
    if !cut.is_in_front(&items[0]) {
        return 0;
    }
    cut_searched(items, cut)
}

// The same, found by halving: it is at least `base`, and at most `size` more than that.
fn cut_searched<T, C: Cut<T>>(items: &[T], cut: &C) -> usize
    requires some { 0 < length items.now }
    requires parted { IsPartitionedBy (C.front cut.now) items.now }
    ensures { result ≡ prefix_len (C.front cut.now) items.now }
{
    let mut base = 0;
    let mut size = items.len();
    while size > 1 {
        let half = size / 2;
        if cut.is_in_front(&items[base + half]) {
            base += half;
        }
        size -= half;
    }
    if cut.is_in_front(&items[base]) {
        base + 1
    } else {
        base
    }
}

/// Whether a slice begins with an item in front of the cut.
pub fn slice_begins_in_front<T, C: Cut<T>>(items: &[T], cut: &C) -> bool
    ensures { result ≡ begins (C.front cut.now) items.now }
{
    match items.first() {
        Some(first) => cut.is_in_front(first),
        None => false,
    }
}
