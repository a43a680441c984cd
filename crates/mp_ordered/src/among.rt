//! The place of an item among those of all blocks.
ghost use Rattle.std.specs.Prelude.{◌≡◌, ◌≤◌, ◌<◌, ◌↔◌, get_or, length, IsTrue};
ghost use Rattle.std.specs.List.{insert, prefix_len};
ghost use Rattle.std.specs.declared.collections.VecDeque.{VecDeque};
ghost use Rattle.std.specs.declared.alloc.Global.{Global};
ghost use Rattle.mp_names.specs.Names.{is_before};
ghost use Rattle.mp_ordered.specs.Blocks.{IsBlockFor, items_of};
ghost use Rattle.mp_ordered.specs.InOrder.{IsInOrder, put_in_order};

use crate::block::{begins_in_front, cut_block, place_in};
use crate::cut::Before;
use crate::hinted::Spot;
use crate::order::Order;
use std::collections::VecDeque;
use std::marker::PhantomData;

/// Where an item has its place: in which block, and how many of its items come before it. The last item of all is asked
/// first: most items go behind it.
pub fn spot_of<T, O: Order<T>>(blocks: &[VecDeque<T>], item: &T) -> Spot
    requires some { 0 < length blocks.now }
    requires order { IsInOrder O.rank (items_of blocks.now) }
    ensures at { result.block < length blocks.now }
    ensures block { IsBlockFor O.rank item.now blocks.now result.block }
    ensures inside { (d : VecDeque T Global) → result.place ≤ length (get_or blocks.now result.block d).items }
    ensures place { (d : VecDeque T Global) → insert (get_or blocks.now result.block d).items result.place item.now
        ≡ put_in_order O.rank item.now (get_or blocks.now result.block d).items }
{
    let last = blocks.len() - 1;
    let end = &blocks[last];
    if ends_before::<T, O>(end, item) {
        return Spot {
            block: last,
            place: end.len(),
        };
    }
    let block = block_of::<T, O>(blocks, item);
    let place = place_in::<T, O>(&blocks[block], item);
    Spot { block, place }
}

// Whether a block has items, which all come before one.
fn ends_before<T, O: Order<T>>(block: &VecDeque<T>, item: &T) -> bool
    requires { IsInOrder O.rank block.now.items }
    ensures { IsTrue result ↔ ((0 < length block.now.items)
        × (prefix_len (λ y. is_before (O.rank y) (O.rank item.now)) block.now.items ≡ length block.now.items)) }
{
    match block.back() {
        Some(last) => O::is_before(last, item),
        None => false,
    }
}

/// The block in which an item has its place. The last one is asked first.
pub fn block_of<T, O: Order<T>>(blocks: &[VecDeque<T>], item: &T) -> usize
    requires { 0 < length blocks.now }
    ensures inside { result < length blocks.now }
    ensures place { IsBlockFor O.rank item.now blocks.now result }
{
    let before: Before<T, O> = Before {
        item,
        of: PhantomData,
    };
    let last = blocks.len() - 1;
    if last > 0 && begins_in_front(&blocks[last], &before) {
        return last;
    }
    cut_block(blocks, &before)
}
