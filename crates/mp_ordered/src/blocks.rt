//! Items in order, in blocks.
ghost use Rattle.std.specs.Prelude.{◌≡◌, ◌≤◌, ◌<◌, ◌+◌, ◌*◌, ◌-◌, ◌^◌, ◌∷◌, [], ◌↔◌, drop, length, max, slice_get, IfNone, IfOk, IfSome, IsOk, IsTrue, None, OnErr, OnOk, Some};
ghost use Rattle.std.specs.List.{prefix_len, remove};
ghost use Rattle.std.specs.List.Sorted.{IsPartitionedBy};
ghost use Rattle.mp_ordered.specs.Blocks.{items_of};
ghost use Rattle.mp_ordered.specs.InOrder.{GoesBack, IsInOrder, first_from, put_in_order};

use crate::among::{block_of, spot_of};
use crate::block::{
    FULL, copied, cut_block, cut_in, have_blocks, item_at, item_from, past_half, place_in, put_in,
    retire, take_at, take_first,
};
use crate::cut::Cut;
use crate::front::{count_of, cut_near, drop_front, end_of, retire_first};
use crate::hinted::{Spot, last_hinted, last_searched};
use crate::order::Order;
use crate::row::{split_used, take_front, used};
use std::alloc::{AllocError, Global};
use std::cell::Cell;
use std::collections::VecDeque;
use std::marker::{Model, PhantomData};

/// Items in the order `O`, the first one first, in blocks. Contracts see an `InOrder`: the items, and how many more there is
/// room for. To put an item among them takes time by the logarithm of their number, to take out the first one no more than
/// its block needs.
///
/// The block of an item is found by halving, and its place there too; then the items that follow it in the block move. A full
/// block is split in two, for which there are spare ones.
#[derive(Drop)]
pub struct OrderedBlocks<T, O: Order<T>> {
    blocks: Vec<VecDeque<T>>,
    // So many of the blocks, the first ones, are no longer used.
    gone: usize,
    spare: Vec<VecDeque<T>>,
    len: usize,
    // How many items are more than half of their block, each block for itself.
    past: usize,
    room: usize,
    of: PhantomData<O>,
}

impl<T, O: Order<T>> Model for OrderedBlocks<T, O> {
    ghost use Rattle.std.specs.Prelude.{◌≤◌, drop, length};
    ghost use Rattle.mp_ordered.specs.Blocks.{AreBlocks, items_of, row_of};
    ghost use Rattle.mp_ordered.specs.InOrder.{InOrder};

    ghost Value = { InOrder T };

    ghost view = { λ o. record { items = items_of (drop o.gone o.blocks.items); room = o.room } };

    ghost invariant = { λ o. (o.gone ≤ length o.blocks.items)
        × AreBlocks O.rank (row_of o.blocks o.gone) o.spare o.len o.past o.room };
}

impl<T: Drop, O: Order<T>> OrderedBlocks<T, O> {
    /// No items.
    pub fn new(alloc: Global) -> OrderedBlocks<T, O>
        ensures items { result.items ≡ [] }
        ensures room { result.room ≡ 0 }
    {
        OrderedBlocks {
            blocks: Vec::new(alloc),
            gone: 0,
            spare: Vec::new(alloc),
            len: 0,
            past: 0,
            room: 0,
            of: PhantomData,
        }
    }

    /// How many items there are.
    pub fn len(&self) -> usize
        ensures { result ≡ length self.now.items }
    {
        self.len
    }

    /// For how many more there is room.
    pub fn room(&self) -> usize
        ensures { result ≡ self.now.room }
    {
        self.room
    }

    /// Whether there are no items.
    pub fn is_empty(&self) -> bool
        ensures { IsTrue result ↔ (self.now.items ≡ []) }
    {
        self.len == 0
    }

    /// Makes room, so that the next `count` calls of `insert` answer `Ok`. `AllocError`: no memory, and nothing
    /// changes.
    pub fn make_room(&mut self, count: u64) -> Result<(), AllocError>
        ensures room { OnOk result (count ≤ self.new.room) }
        ensures exact { OnOk result (self.new.room ≡ max count self.old.room) }
        ensures items { self.new.items ≡ self.old.items }
        ensures no_less { self.old.room ≤ self.new.room }
        ensures unchanged { OnErr result (self.new ≡ self.old) }
    {
        let count = count as usize;
        if count <= self.room {
            return Ok(());
        }
        if count > usize::MAX - self.len {
            return Err(AllocError);
        }
        let wanted = self.blocks.len() - self.gone + (self.past + count) / (FULL / 2) + 1;
        have_blocks(&mut self.blocks, self.gone, &mut self.spare, wanted)?;
        self.room = count;
        Ok(())
    }

    /// Puts an item at its place, in front of those of its rank. `AllocError`: no memory, never where there is
    /// room, and nothing changes.
    // Inlined, as is what it calls, so that an item is moved to its place at once.
    #[inline(always)]
    pub fn insert(&mut self, item: T) -> Result<(), AllocError>
        ensures put { OnOk result (self.new.items ≡ put_in_order O.rank item self.old.items) }
        ensures room { OnOk result (self.old.room ≤ self.new.room + 1) }
        ensures unchanged { OnErr result (self.new ≡ self.old) }
        ensures never_refused_with_room { 0 < self.old.room → IsOk result }
    {
        if self.room == 0 {
            self.make_room(1)?;
        }
        self.insert_reserved(item);
        Ok(())
    }

    /// Puts an item at its place, in front of those of its rank, where there is room.
    #[inline(always)]
    pub fn insert_reserved(&mut self, item: T)
        requires { 0 < self.old.room }
        ensures put { self.new.items ≡ put_in_order O.rank item self.old.items }
        ensures room { self.old.room ≡ self.new.room + 1 }
    {
        let Spot { block: at, place } = spot_of::<T, O>(used(&self.blocks, self.gone), &item);
        let block = &mut self.blocks[self.gone + at];
        put_in(block, place, item);
        let count = block.len();
        self.len += 1;
        self.room -= 1;
        self.past += past_half(count) - past_half(count - 1);
        if count == FULL {
            split_used(&mut self.blocks, &mut self.gone, &mut self.spare, at);
            self.past -= FULL / 2;
        }
    }

    /// The first item; `None` exactly where there is none. It would go back to its place.
    pub fn first(&self) -> Option<&T>
        ensures some { IfSome result (λ x. slice_get self.now.items 0 ≡ Some x.now) }
        ensures none { IfNone result (self.now.items ≡ []) }
        ensures in_order { IsInOrder O.rank self.now.items }
        ensures goes_back { GoesBack O.rank }
    {
        used(&self.blocks, self.gone).first()?.front()
    }

    /// The first item that doesn't come before another one; `None` exactly where there is none.
    pub fn first_from(&self, item: &T) -> Option<&T>
        ensures some { IfSome result (λ x. first_from O.rank item.now self.now.items ≡ Some x.now) }
        ensures none { IfNone result (first_from O.rank item.now self.now.items ≡ None) }
    {
        let blocks = used(&self.blocks, self.gone);
        if blocks.is_empty() {
            return None;
        }
        let at = block_of::<T, O>(blocks, item);
        item_from(blocks, at, place_in::<T, O>(&blocks[at], item))
    }

    /// The item at an index, from 0 in order; `None` exactly where there are no more. Goes from block to block.
    pub fn get(&self, index: usize) -> Option<&T>
        ensures some { IfSome result (λ x. slice_get self.now.items index ≡ Some x.now) }
        ensures none { IfNone result (length self.now.items ≤ index) }
    {
        item_at(used(&self.blocks, self.gone), index)
    }

    /// Takes out the first item; `None` exactly where there is none. It leaves its room, so `insert` takes it back
    /// to its place.
    pub fn pop_first(&mut self) -> Option<T>
        ensures some { IfSome result (λ x. self.old.items ≡ x ∷ self.new.items) }
        ensures none { IfNone result (self.old.items ≡ []) }
        ensures unchanged { IfNone result (self.new ≡ self.old) }
        ensures room { IfSome result (λ x. self.new.room ≡ self.old.room + 1) }
    {
        if self.len == 0 {
            return None;
        }
        let block = &mut self.blocks[self.gone];
        let item = take_first(block);
        let count = block.len();
        self.len -= 1;
        self.past -= past_half(count + 1) - past_half(count);
        self.room += 1;
        if count == 0 && self.blocks.len() - self.gone > 1 {
            let empty = take_front(&mut self.blocks, &mut self.gone);
            self.spare.push_reserved(empty);
        }
        Some(item)
    }

    /// Drops the first `count` items, at most all of them. They leave their room.
    pub fn drop_first(&mut self, count: usize)
        requires { count ≤ length self.old.items }
        ensures items { self.new.items ≡ drop count self.old.items }
        ensures room { self.new.room ≡ self.old.room + count }
    {
        if count == 0 {
            return;
        }
        let (at, place) = end_of(used(&self.blocks, self.gone), count);
        self.past = retire_first(
            &mut self.blocks,
            &mut self.gone,
            &mut self.spare,
            at,
            self.past,
        );
        let block = &mut self.blocks[self.gone];
        let len = block.len();
        drop_front(block, place);
        self.past -= past_half(len) - past_half(len - place);
        self.len -= count;
        self.room += count;
    }

    /// The items in order, in the blocks that they stand in.
    pub fn as_blocks(&self) -> &[VecDeque<T>]
        ensures items { items_of result.now ≡ self.now.items }
        ensures in_order { IsInOrder O.rank self.now.items }
        ensures few { length self.now.items < 2 ^ 64 }
    {
        used(&self.blocks, self.gone)
    }

    /// How many items stand in front of a cut. Goes from block to block: the first ones are asked first.
    pub fn count_in_front<C: Cut<T>>(&self, cut: &C) -> usize
        requires { IsPartitionedBy (C.front cut.now) self.now.items }
        ensures { result ≡ prefix_len (C.front cut.now) self.now.items }
    {
        let blocks = used(&self.blocks, self.gone);
        if blocks.is_empty() {
            return 0;
        }
        let at = cut_block(blocks, cut);
        count_of(&blocks[..at]) + cut_near(&blocks[at], cut)
    }

    /// The last item in front of a cut; `None` exactly where there is none.
    pub fn last_in_front<C: Cut<T>>(&self, cut: &C) -> Option<&T>
        requires { IsPartitionedBy (C.front cut.now) self.now.items }
        ensures some { IfSome result (λ x. slice_get self.now.items (prefix_len (C.front cut.now) self.now.items - 1) ≡ Some x.now) }
        ensures some_in_front { IfSome result (λ x. 0 < prefix_len (C.front cut.now) self.now.items) }
        ensures none { IfNone result (prefix_len (C.front cut.now) self.now.items ≡ 0) }
    {
        last_searched(
            used(&self.blocks, self.gone),
            cut,
            &Cell::new(Spot { block: 0, place: 0 }),
        )
    }

    /// The last item in front of a cut; `None` exactly where there is none. `hint` is where an earlier look ended, or any
    /// spot. Where it still points to that item no others are searched; else they are, and then it points to the item.
    pub fn last_in_front_hinted<C: Cut<T>>(&self, cut: &C, hint: &Cell<Spot>) -> Option<&T>
        requires { IsPartitionedBy (C.front cut.now) self.now.items }
        ensures some { IfSome result (λ x. slice_get self.now.items (prefix_len (C.front cut.now) self.now.items - 1) ≡ Some x.now) }
        ensures some_in_front { IfSome result (λ x. 0 < prefix_len (C.front cut.now) self.now.items) }
        ensures none { IfNone result (prefix_len (C.front cut.now) self.now.items ≡ 0) }
    {
        last_hinted(used(&self.blocks, self.gone), cut, hint)
    }

    /// The first item behind a cut; `None` exactly where there is none.
    pub fn first_behind<C: Cut<T>>(&self, cut: &C) -> Option<&T>
        requires { IsPartitionedBy (C.front cut.now) self.now.items }
        ensures some { IfSome result (λ x. slice_get self.now.items (prefix_len (C.front cut.now) self.now.items) ≡ Some x.now) }
        ensures none { IfNone result (length self.now.items ≡ prefix_len (C.front cut.now) self.now.items) }
    {
        let blocks = used(&self.blocks, self.gone);
        if blocks.is_empty() {
            return None;
        }
        let at = cut_block(blocks, cut);
        item_from(blocks, at, cut_in(&blocks[at], cut))
    }

    /// Takes out the last item in front of a cut. It doesn't leave its room.
    pub fn take_last_in_front<C: Cut<T>>(&mut self, cut: &C) -> T
        requires parted { IsPartitionedBy (C.front cut.now) self.old.items }
        requires some { 0 < prefix_len (C.front cut.now) self.old.items }
        ensures item { slice_get self.old.items (prefix_len (C.front cut.now) self.old.items - 1) ≡ Some result }
        ensures items { self.new.items ≡ remove self.old.items (prefix_len (C.front cut.now) self.old.items - 1) }
        ensures room { self.new.room ≡ self.old.room }
    {
        let at = cut_block(used(&self.blocks, self.gone), cut);
        let block = &mut self.blocks[self.gone + at];
        let place = cut_in(block, cut) - 1;
        let item = take_at(block, place);
        let count = block.len();
        self.len -= 1;
        self.past -= past_half(count + 1) - past_half(count);
        if count == 0 && self.blocks.len() - self.gone > 1 {
            retire(&mut self.blocks, &mut self.spare, self.gone + at);
        }
        item
    }
}

impl<T: Copy + Drop, O: Order<T>> OrderedBlocks<T, O> {
    /// All items in order. `AllocError`: no memory.
    pub fn to_vec(&self) -> Result<Vec<T>, AllocError>
        ensures { IfOk result (λ v. v.items ≡ self.now.items) }
    {
        copied(*self.blocks.allocator(), used(&self.blocks, self.gone))
    }
}
