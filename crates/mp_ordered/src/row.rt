//! A list of blocks whose first ones go without a move of the others: in place of those that are gone there stay some without
//! memory, until the list is full.
ghost use Rattle.std.specs.Prelude.{◌≡◌, ◌≤◌, ◌<◌, ◌+◌, ◌∷◌, All, drop, get_or, length};
ghost use Rattle.std.specs.declared.alloc.Global.{Global};
ghost use Rattle.std.specs.declared.collections.VecDeque.{VecDeque};
ghost use Rattle.std.specs.Vec.{vec_capacity};
ghost use Rattle.mp_ordered.specs.Blocks.{IsSpare, IsSplit};

use crate::block::split;
use std::collections::VecDeque;
use std::mem;

/// The blocks that are still used.
pub fn used<T>(blocks: &Vec<VecDeque<T>>, gone: usize) -> &[VecDeque<T>]
    requires { gone ≤ length blocks.now.items }
    ensures { result.now ≡ drop gone blocks.now.items }
{
    &blocks[gone..]
}

/// Takes out the first block that is still used. In its place there stays one without memory.
pub fn take_front<T: Drop>(blocks: &mut Vec<VecDeque<T>>, gone: &mut usize) -> VecDeque<T>
    requires { gone.old < length blocks.old.items }
    ensures inside { gone.new ≤ length blocks.new.items }
    ensures blocks { drop gone.old blocks.old.items ≡ result ∷ drop gone.new blocks.new.items }
    ensures memory { vec_capacity blocks.new ≡ vec_capacity blocks.old }
{
    let empty = VecDeque::new(*blocks.allocator());
    let block = mem::replace(&mut blocks[*gone], empty);
    *gone += 1;
    block
}

/// Splits a full block in two, the second of which is a spare one.
pub fn split_used<T: Drop>(
    blocks: &mut Vec<VecDeque<T>>,
    gone: &mut usize,
    spare: &mut Vec<VecDeque<T>>,
    at: usize,
)
    requires gone { gone.old ≤ length blocks.old.items }
    requires inside { at < length (drop gone.old blocks.old.items) }
    requires full { (d : VecDeque T Global) → length (get_or (drop gone.old blocks.old.items) at d).items ≡ 128 }
    requires some { 0 < length spare.old.items }
    requires spare { All IsSpare spare.old.items }
    requires memory { length (drop gone.old blocks.old.items) < vec_capacity blocks.old }
    ensures gone { gone.new ≤ length blocks.new.items }
    ensures split { IsSplit at (drop gone.old blocks.old.items) (drop gone.new blocks.new.items) }
    ensures spare { All IsSpare spare.new.items }
    ensures one_less { length spare.old.items ≡ length spare.new.items + 1 }
    ensures memory { (vec_capacity blocks.old ≤ vec_capacity blocks.new) × (vec_capacity spare.new ≡ vec_capacity spare.old) }
{
    make_place(blocks, gone);
    split(blocks, spare, *gone + at);
}

// Makes place in the list for one more block, for which there is memory. Only where the list is full the others are moved.
fn make_place<T: Drop>(blocks: &mut Vec<VecDeque<T>>, gone: &mut usize)
    requires gone { gone.old ≤ length blocks.old.items }
    requires memory { length (drop gone.old blocks.old.items) < vec_capacity blocks.old }
    ensures gone { gone.new ≤ length blocks.new.items }
    ensures blocks { drop gone.new blocks.new.items ≡ drop gone.old blocks.old.items }
    ensures place { length blocks.new.items < vec_capacity blocks.new }
    ensures memory { vec_capacity blocks.new ≡ vec_capacity blocks.old }
{
    if blocks.len() == blocks.capacity() {
        settle(blocks, gone);
    }
}

// Takes those that are gone out of the list.
fn settle<T: Drop>(blocks: &mut Vec<VecDeque<T>>, gone: &mut usize)
    requires { gone.old ≤ length blocks.old.items }
    ensures gone { gone.new ≡ 0 }
    ensures blocks { blocks.new.items ≡ drop gone.old blocks.old.items }
    ensures memory { vec_capacity blocks.new ≡ vec_capacity blocks.old }
{
    let count = blocks.len() - *gone;
    blocks.rotate_left(*gone);
    blocks.truncate(count);
    *gone = 0;
}
