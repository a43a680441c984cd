//! Looks into blocks that begin where the last one ended.
ghost use Rattle.std.specs.Prelude.{◌≡◌, ◌≤◌, ◌<◌, ◌+◌, ◌-◌, ◌^◌, false, get_or, length, slice_get, take, IfNone, IfSome, IsTrue, Some};
ghost use Rattle.std.specs.List.{prefix_len};
ghost use Rattle.std.specs.List.Sorted.{IsPartitionedBy};
ghost use Rattle.std.specs.declared.collections.VecDeque.{VecDeque};
ghost use Rattle.std.specs.declared.alloc.Global.{Global};
ghost use Rattle.mp_ordered.specs.Blocks.{AreFilled, items_of};

use crate::block::{cut_block, cut_in, item_from};
use crate::cut::Cut;
use std::cell::Cell;
use std::collections::VecDeque;

/// Where a look ended. As items come and go it points to others, or to none.
#[derive(Clone, Copy, Drop)]
pub struct Spot {
    /// The block, from 0.
    pub block: usize,
    /// The item in it, from 0.
    pub place: usize,
}

/// The last item in front of a cut; `None` exactly where there is none. Where `hint` points to it no others are searched;
/// else they are, and then it points to the item.
pub fn last_hinted<'b, T, C: Cut<T>>(
    blocks: &'b [VecDeque<T>],
    cut: &C,
    hint: &Cell<Spot>,
) -> Option<&'b T>
    requires parted { IsPartitionedBy (C.front cut.now) (items_of blocks.now) }
    requires filled { AreFilled blocks.now }
    ensures some { IfSome result (λ x. slice_get (items_of blocks.now) (prefix_len (C.front cut.now) (items_of blocks.now) - 1) ≡ Some x.now) }
    ensures some_in_front { IfSome result (λ x. 0 < prefix_len (C.front cut.now) (items_of blocks.now)) }
    ensures none { IfNone result (prefix_len (C.front cut.now) (items_of blocks.now) ≡ 0) }
{
    let found = last_at(blocks, cut, hint.get());
    if found.is_some() {
        return found;
    }
    last_searched(blocks, cut, hint)
}

// The item at a spot, if it is the last one in front of a cut.
fn last_at<'b, T, C: Cut<T>>(blocks: &'b [VecDeque<T>], cut: &C, spot: Spot) -> Option<&'b T>
    requires parted { IsPartitionedBy (C.front cut.now) (items_of blocks.now) }
    requires filled { AreFilled blocks.now }
    ensures some { IfSome result (λ x. slice_get (items_of blocks.now) (prefix_len (C.front cut.now) (items_of blocks.now) - 1) ≡ Some x.now) }
    ensures some_in_front { IfSome result (λ x. 0 < prefix_len (C.front cut.now) (items_of blocks.now)) }
{
    let Spot { block, place } = spot;
    if !has_item(blocks, block, place) {
        return None;
    }
    let item = item_from(blocks, block, place)?;
    if cut.is_in_front(item) && is_end(blocks, cut, block, place + 1) {
        return Some(item);
    }
    None
}

/// The last item in front of a cut, found by halving, to which `hint` points then; `None` exactly where there is none.
pub fn last_searched<'b, T, C: Cut<T>>(
    blocks: &'b [VecDeque<T>],
    cut: &C,
    hint: &Cell<Spot>,
) -> Option<&'b T>
    requires parted { IsPartitionedBy (C.front cut.now) (items_of blocks.now) }
    requires filled { AreFilled blocks.now }
    ensures some { IfSome result (λ x. slice_get (items_of blocks.now) (prefix_len (C.front cut.now) (items_of blocks.now) - 1) ≡ Some x.now) }
    ensures some_in_front { IfSome result (λ x. 0 < prefix_len (C.front cut.now) (items_of blocks.now)) }
    ensures none { IfNone result (prefix_len (C.front cut.now) (items_of blocks.now) ≡ 0) }
{
    if blocks.is_empty() {
        return None;
    }
    let block = cut_block(blocks, cut);
    let count = cut_in(&blocks[block], cut);
    if count == 0 {
        return None;
    }
    let place = count - 1;
    hint.set(Spot { block, place });
    item_from(blocks, block, place)
}

// Whether an item stands there.
fn has_item<T>(blocks: &[VecDeque<T>], at: usize, place: usize) -> bool
    ensures at { IsTrue result → at < length blocks.now }
    ensures place { IsTrue result → (d : VecDeque T Global) → place < length (get_or blocks.now at d).items }
    ensures fits { IsTrue result → place + 1 < 2 ^ 64 }
{
    at < blocks.len() && place < blocks[at].len()
}

// Whether no item in front of a cut stands at a place in a block, or behind the block's last one at the next block's first.
fn is_end<T, C: Cut<T>>(blocks: &[VecDeque<T>], cut: &C, at: usize, place: usize) -> bool
    requires at { at < length blocks.now }
    requires place { (d : VecDeque T Global) → place ≤ length (get_or blocks.now at d).items }
    requires filled { AreFilled blocks.now }
    ensures { IsTrue result → (d : T) → length (items_of (take at blocks.now)) + place < length (items_of blocks.now) → C.front cut.now (get_or (items_of blocks.now) (length (items_of (take at blocks.now)) + place) d) ≡ false }
{
    match item_from(blocks, at, place) {
        Some(next) => !cut.is_in_front(next),
        None => true,
    }
}
