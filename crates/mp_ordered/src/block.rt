//! Blocks of items, each a ring with memory for 128 and with fewer items.
ghost use Rattle.std.specs.Prelude.{◌≡◌, ◌≤◌, ◌<◌, ◌+◌, ◌-◌, ◌⊎◌, ◌++◌, ◌∷◌, [], All, drop, get_or, length, slice_get, take, IfNone, IfOk, IfSome, IsTrue, OnErr, OnOk, Some, true};
ghost use Rattle.std.specs.List.{insert, prefix_len, remove};
ghost use Rattle.std.specs.List.Sorted.{IsPartitionedBy};
ghost use Rattle.std.specs.declared.collections.VecDeque.{VecDeque};
ghost use Rattle.std.specs.Vec.{vec_capacity};
ghost use Rattle.std.specs.VecDeque.{deque_capacity};
ghost use Rattle.std.specs.declared.alloc.Global.{Global};
ghost use Rattle.mp_names.specs.Names.{is_before};
ghost use Rattle.mp_ordered.specs.Blocks.{AreFilled, HasMemory, IsCutIn, IsSpare, IsSplit, begins_before, items_of, row_of};
ghost use Rattle.mp_ordered.specs.InOrder.{IsInOrder, begins, put_in_order};

use crate::cut::{Before, Cut};
use crate::order::Order;
use crate::search::{cut_in_slice, slice_begins_in_front};
use std::alloc::{AllocError, Global};
use std::collections::VecDeque;
use std::marker::PhantomData;

/// As many items as a block is split at, which is twice as many as each half has.
pub const FULL: usize = 128;

/// How many items of a block come before one.
pub fn place_in<T, O: Order<T>>(block: &VecDeque<T>, item: &T) -> usize
    requires { IsInOrder O.rank block.now.items }
    ensures inside { result ≤ length block.now.items }
    ensures place { insert block.now.items result item.now ≡ put_in_order O.rank item.now block.now.items }
    ensures count { result ≡ prefix_len (λ y. is_before (O.rank y) (O.rank item.now)) block.now.items }
{
    let before: Before<T, O> = Before {
        item,
        of: PhantomData,
    };
    cut_in(block, &before)
}

/// How many items of a block stand in front of a cut.
pub fn cut_in<T, C: Cut<T>>(block: &VecDeque<T>, cut: &C) -> usize
    requires { IsPartitionedBy (C.front cut.now) block.now.items }
    ensures { result ≡ prefix_len (C.front cut.now) block.now.items }
{
    let (first, second) = block.as_slices();
    if slice_begins_in_front(second, cut) {
        return first.len() + cut_in_slice(second, cut);
    }
    cut_in_slice(first, cut)
}

/// The block in which a cut is: the last one that begins in front of it, or the first one. Where that isn't the first it is
/// found by halving.
pub fn cut_block<T, C: Cut<T>>(blocks: &[VecDeque<T>], cut: &C) -> usize
    requires { 0 < length blocks.now }
    ensures inside { result < length blocks.now }
    ensures cut { IsCutIn (C.front cut.now) blocks.now result }
{
    if blocks.len() == 1 || !begins_in_front(&blocks[1], cut) {
        return 0;
    }
    let mut at = 1;
    let mut count = blocks.len() - 1;
    while count > 1 {
        let half = count / 2;
        if begins_in_front(&blocks[at + half], cut) {
            at += half;
            count -= half;
        } else {
            count = half;
        }
    }
    at
}

/// Whether a block begins with an item in front of the cut.
pub fn begins_in_front<T, C: Cut<T>>(block: &VecDeque<T>, cut: &C) -> bool
    ensures { result ≡ begins (C.front cut.now) block.now.items }
{
    match block.front() {
        Some(first) => cut.is_in_front(first),
        None => false,
    }
}

/// The item at an index, from 0, of those of all blocks; `None` exactly where there are no more.
pub fn item_at<T>(blocks: &[VecDeque<T>], index: usize) -> Option<&T>
    ensures some { IfSome result (λ x. slice_get (items_of blocks.now) index ≡ Some x.now) }
    ensures none { IfNone result (length (items_of blocks.now) ≤ index) }
{
    let mut left = index;
    for block in blocks {
        if left < block.len() {
            return Some(&block[left]);
        }
        left -= block.len();
    }
    None
}

/// The item at a place in a block, or behind the block's last one the first of the next block; `None` exactly where there
/// are no more.
pub fn item_from<T>(blocks: &[VecDeque<T>], at: usize, place: usize) -> Option<&T>
    requires at { at < length blocks.now }
    requires place { (d : VecDeque T Global) → place ≤ length (get_or blocks.now at d).items }
    requires filled { AreFilled blocks.now }
    ensures some { IfSome result (λ x. slice_get (items_of blocks.now) (length (items_of (take at blocks.now)) + place) ≡ Some x.now) }
    ensures none { IfNone result (length (items_of blocks.now) ≡ length (items_of (take at blocks.now)) + place) }
{
    if place < blocks[at].len() {
        return Some(&blocks[at][place]);
    }
    if at + 1 < blocks.len() {
        return Some(&blocks[at + 1][0]);
    }
    None
}

/// The items of all blocks, one block after the other. `AllocError`: no memory.
pub fn copied<T: Copy + Drop>(alloc: Global, blocks: &[VecDeque<T>]) -> Result<Vec<T>, AllocError>
    ensures { IfOk result (λ v. v.items ≡ items_of blocks.now) }
{
    let mut items = Vec::new(alloc);
    for block in blocks {
        let (front, back) = block.as_slices();
        items.extend_from_slice(front)?;
        items.extend_from_slice(back)?;
    }
    Ok(items)
}

/// Puts an item at a place in a block, which has memory for it.
#[inline(always)]
pub fn put_in<T: Drop>(block: &mut VecDeque<T>, at: usize, item: T)
    requires inside { at ≤ length block.old.items }
    requires memory { length block.old.items < deque_capacity block.old }
    ensures items { block.new.items ≡ insert block.old.items at item }
    ensures memory { deque_capacity block.old ≤ deque_capacity block.new }
{
    if at == block.len() {
        block.push_back_reserved(item);
        return;
    }
    let Ok(()) = block.insert(at, item) else {
        unreachable!()
    };
}

/// Takes the item at a place out of a block.
pub fn take_at<T: Drop>(block: &mut VecDeque<T>, at: usize) -> T
    requires { at < length block.old.items }
    ensures item { slice_get block.old.items at ≡ Some result }
    ensures items { block.new.items ≡ remove block.old.items at }
    ensures memory { deque_capacity block.new ≡ deque_capacity block.old }
{
    let Some(item) = block.remove(at) else {
        unreachable!()
    };
    item
}

/// Takes the first item out of a block.
pub fn take_first<T: Drop>(block: &mut VecDeque<T>) -> T
    requires { 0 < length block.old.items }
    ensures item { slice_get block.old.items 0 ≡ Some result }
    ensures items { block.new.items ≡ remove block.old.items 0 }
    ensures memory { deque_capacity block.new ≡ deque_capacity block.old }
{
    let Some(item) = block.pop_front() else {
        unreachable!()
    };
    item
}

/// How many of so many items in a block are more than half of them.
pub fn past_half(len: usize) -> usize
    ensures { result ≡ len - 64 }
{
    len.saturating_sub(FULL / 2)
}

/// Splits a full block in two, the second of which is a spare one.
pub fn split<T: Drop>(blocks: &mut Vec<VecDeque<T>>, spare: &mut Vec<VecDeque<T>>, at: usize)
    requires inside { at < length blocks.old.items }
    requires full { (d : VecDeque T Global) → length (get_or blocks.old.items at d).items ≡ 128 }
    requires some { 0 < length spare.old.items }
    requires spare { All IsSpare spare.old.items }
    requires memory { length blocks.old.items < vec_capacity blocks.old }
    ensures split { IsSplit at blocks.old.items blocks.new.items }
    ensures spare { All IsSpare spare.new.items }
    ensures one_less { length spare.old.items ≡ length spare.new.items + 1 }
    ensures memory { (vec_capacity blocks.old ≤ vec_capacity blocks.new) × (vec_capacity spare.new ≡ vec_capacity spare.old) }
{
    let Some(mut upper) = spare.pop() else {
        unreachable!()
    };
    move_upper(&mut blocks[at], &mut upper);
    let Ok(()) = blocks.insert(at + 1, upper) else {
        unreachable!()
    };
}

// Moves the upper half of a full block.
fn move_upper<T: Drop>(block: &mut VecDeque<T>, upper: &mut VecDeque<T>)
    requires full { length block.old.items ≡ 128 }
    requires spare { IsSpare upper.old }
    ensures items { block.new.items ++ upper.new.items ≡ block.old.items }
    ensures halves { (length block.new.items ≡ 64) × (length upper.new.items ≡ 64) }
    ensures memory { (deque_capacity block.new ≡ deque_capacity block.old) × (deque_capacity upper.old ≤ deque_capacity upper.new) }
{
    for _moved in 0..FULL / 2 {
        let Some(item) = block.pop_back() else {
            unreachable!()
        };
        upper.push_front_reserved(item);
    }
}

/// Makes a block that has no items a spare one.
pub fn retire<T: Drop>(blocks: &mut Vec<VecDeque<T>>, spare: &mut Vec<VecDeque<T>>, at: usize)
    requires inside { at < length blocks.old.items }
    requires memory { length spare.old.items < vec_capacity spare.old }
    ensures blocks { blocks.new.items ≡ remove blocks.old.items at }
    ensures spare { (d : VecDeque T Global) → spare.new.items ≡ spare.old.items ++ get_or blocks.old.items at d ∷ [] }
    ensures memory { (vec_capacity blocks.new ≡ vec_capacity blocks.old) × (vec_capacity spare.old ≤ vec_capacity spare.new) }
{
    let block = blocks.remove(at);
    spare.push_reserved(block);
}

/// Makes blocks, until there are `wanted` with the spare ones. `AllocError`: no memory, and there may be some more.
pub fn have_blocks<T: Drop>(
    blocks: &mut Vec<VecDeque<T>>,
    gone: usize,
    spare: &mut Vec<VecDeque<T>>,
    wanted: usize,
) -> Result<(), AllocError>
    requires some { 0 < wanted }
    requires gone { gone ≤ length blocks.old.items }
    requires are { HasMemory (row_of blocks.old gone) spare.old }
    ensures gone { gone ≤ length blocks.new.items }
    ensures are { HasMemory (row_of blocks.new gone) spare.new }
    ensures same { (drop gone blocks.new.items ≡ drop gone blocks.old.items)
        ⊎ ((drop gone blocks.old.items ≡ []) × ((b : VecDeque T Global) × (IsSpare b × (drop gone blocks.new.items ≡ b ∷ [])))) }
    ensures no_less { length (drop gone blocks.old.items) + length spare.old.items ≤ length (drop gone blocks.new.items) + length spare.new.items }
    ensures wanted { OnOk result (wanted ≤ length (drop gone blocks.new.items) + length spare.new.items) }
{
    let alloc = *blocks.allocator();
    let used = blocks.len() - gone;
    if wanted <= used + spare.len() {
        return Ok(());
    }
    blocks.reserve(wanted - used)?;
    spare.reserve(wanted - spare.len())?;
    have_first(alloc, blocks, gone)?;
    add_spare(alloc, spare, wanted - (blocks.len() - gone))
}

// Makes the first block, where there is none. `AllocError`: no memory, and nothing changes.
fn have_first<T: Drop>(
    alloc: Global,
    blocks: &mut Vec<VecDeque<T>>,
    gone: usize,
) -> Result<(), AllocError>
    requires gone { gone ≤ length blocks.old.items }
    requires memory { length blocks.old.items < vec_capacity blocks.old }
    ensures some { OnOk result (gone < length blocks.new.items) }
    ensures same { (blocks.new.items ≡ blocks.old.items)
        ⊎ ((drop gone blocks.old.items ≡ []) × ((b : VecDeque T Global) × (IsSpare b × (drop gone blocks.new.items ≡ b ∷ [])))) }
    ensures memory { vec_capacity blocks.new ≡ vec_capacity blocks.old }
    ensures unchanged { OnErr result (blocks.new ≡ blocks.old) }
{
    if blocks.len() == gone {
        blocks.push_reserved(VecDeque::with_capacity(alloc, FULL)?);
    }
    Ok(())
}

// Makes spare blocks, until there are so many. `AllocError`: no memory, and there may be some more.
fn add_spare<T: Drop>(
    alloc: Global,
    spare: &mut Vec<VecDeque<T>>,
    wanted: usize,
) -> Result<(), AllocError>
    requires spare { All IsSpare spare.old.items }
    requires few { length spare.old.items ≤ wanted }
    requires memory { wanted ≤ vec_capacity spare.old }
    ensures spare { All IsSpare spare.new.items }
    ensures wanted { OnOk result (wanted ≤ length spare.new.items) }
    ensures few { length spare.new.items ≤ wanted }
    ensures no_less { length spare.old.items ≤ length spare.new.items }
    ensures memory { vec_capacity spare.old ≤ vec_capacity spare.new }
{
    for _made in spare.len()..wanted {
        spare.push_reserved(VecDeque::with_capacity(alloc, FULL)?);
    }
    Ok(())
}
