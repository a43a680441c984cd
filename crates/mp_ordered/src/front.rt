//! The first items of blocks: how many they are, where they end, and how they are dropped.
ghost use Rattle.std.specs.Prelude.{◌≡◌, ◌≤◌, ◌<◌, ◌+◌, ◌^◌, suc, All, drop, get_or, length, take};
ghost use Rattle.std.specs.List.{prefix_len};
ghost use Rattle.std.specs.List.Sorted.{IsPartitionedBy};
ghost use Rattle.std.specs.declared.alloc.Global.{Global};
ghost use Rattle.std.specs.declared.collections.VecDeque.{VecDeque};
ghost use Rattle.std.specs.Vec.{vec_capacity};
ghost use Rattle.std.specs.VecDeque.{deque_capacity};
ghost use Rattle.mp_ordered.specs.Blocks.{IsBlock, IsSpare, items_of, past_halves};

use crate::block::{cut_in, past_half};
use crate::cut::Cut;
use crate::row::take_front;
use std::collections::VecDeque;

// So many items are asked before others are searched.
const NEAR: usize = 4;

/// How many items all blocks have.
pub fn count_of<T>(blocks: &[VecDeque<T>]) -> usize
    requires { length (items_of blocks.now) < 2 ^ 64 }
    ensures { result ≡ length (items_of blocks.now) }
{
    let mut count = 0;
    for block in blocks {
        count += block.len();
    }
    count
}

/// How many items of a block stand in front of a cut, where that is likely to be few: the first ones are asked one by one.
pub fn cut_near<T, C: Cut<T>>(block: &VecDeque<T>, cut: &C) -> usize
    requires { IsPartitionedBy (C.front cut.now) block.now.items }
    ensures { result ≡ prefix_len (C.front cut.now) block.now.items }
{
    for place in 0..block.len().min(NEAR) {
        if !cut.is_in_front(&block[place]) {
            return place;
        }
    }
    cut_in(block, cut)
}

/// Where the first `count` items end: in which block, and how many of them it has. Those are all of its items only where no
/// other block follows.
pub fn end_of<T>(blocks: &[VecDeque<T>], count: usize) -> (usize, usize)
    requires some { 0 < length blocks.now }
    requires inside { count ≤ length (items_of blocks.now) }
    ensures at { result.0 < length blocks.now }
    ensures count { length (items_of (take result.0 blocks.now)) + result.1 ≡ count }
    ensures place { (d : VecDeque T Global) → result.1 ≤ length (get_or blocks.now result.0 d).items }
    ensures last { (d : VecDeque T Global)
        → result.1 ≡ length (get_or blocks.now result.0 d).items → suc result.0 ≡ length blocks.now }
{
    let mut left = count;
    for (at, block) in blocks.iter().enumerate() {
        if left < block.len() {
            return (at, left);
        }
        left -= block.len();
    }
    let last = blocks.len() - 1;
    (last, blocks[last].len())
}

/// Makes the first `count` blocks spare ones. Answers how many items of the others are more than half of their block, each
/// block for itself.
pub fn retire_first<T: Drop>(
    blocks: &mut Vec<VecDeque<T>>,
    gone: &mut usize,
    spare: &mut Vec<VecDeque<T>>,
    count: usize,
    past: usize,
) -> usize
    requires gone { gone.old ≤ length blocks.old.items }
    requires inside { count ≤ length (drop gone.old blocks.old.items) }
    requires low { All IsBlock (drop gone.old blocks.old.items) }
    requires empty { All IsSpare spare.old.items }
    requires past { past ≡ past_halves (drop gone.old blocks.old.items) }
    requires memory { length spare.old.items + count ≤ vec_capacity spare.old }
    ensures gone { gone.new ≤ length blocks.new.items }
    ensures blocks { drop gone.new blocks.new.items ≡ drop count (drop gone.old blocks.old.items) }
    ensures empty { All IsSpare spare.new.items }
    ensures more { length spare.new.items ≡ length spare.old.items + count }
    ensures past { result ≡ past_halves (drop gone.new blocks.new.items) }
    ensures memory { (vec_capacity blocks.new ≡ vec_capacity blocks.old)
        × (vec_capacity spare.new ≡ vec_capacity spare.old) }
{
    let mut left = past;
    for _retired in 0..count {
        let mut block = take_front(blocks, gone);
        left -= past_half(block.len());
        block.clear();
        spare.push_reserved(block);
    }
    left
}

/// Drops the first `count` items of a block.
pub fn drop_front<T: Drop>(block: &mut VecDeque<T>, count: usize)
    requires { count ≤ length block.old.items }
    ensures items { block.new.items ≡ drop count block.old.items }
    ensures memory { deque_capacity block.new ≡ deque_capacity block.old }
{
    for _dropped in 0..count {
        let _ = block.pop_front();
    }
}
