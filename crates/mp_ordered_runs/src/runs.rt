//! Items in order, the first ones of a kind together.
ghost use Rattle.std.specs.Prelude.{◌≡◌, ◌≤◌, ◌<◌, ◌+◌, ◌⊎◌, ◌^◌, ◌++◌, [], Bool, drop, false, length, slice_get, IfNone, IfSome, IsOk, IsTrue, None, OnErr, OnOk, Some};
ghost use Rattle.std.specs.Vec.{vec_capacity};
ghost use Rattle.mp_ordered.specs.Blocks.{begins_before};
ghost use Rattle.mp_ordered.specs.InOrder.{IsInOrder, first_from, put_in_order};
ghost use Rattle.mp_ordered_runs.specs.Runs.{GoesBehindRun, GoesIntoRun, IsOneKind, continues, first_run};

use crate::place::put;
use mp_ordered::{Order, OrderedBlocks, place_of};
use std::alloc::{AllocError, Global};
use std::marker::Model;

/// Which items are of one kind, as contracts alone see.
pub trait Kinds<T> {
    ghost same: { T → T → Bool };

    /// Whether two items are of one kind.
    fn is_same(first: &T, second: &T) -> bool
        ensures { result ≡ same first.now second.now };
}

/// Items in the order `O`, the first one first. Contracts see an `InOrder`: the items, and how many more there is room for.
/// The first item and those of its kind that follow it are one slice, and the others stand in blocks. To put an item among
/// them takes time by the logarithm of their number.
#[derive(Drop)]
pub struct OrderedRuns<T, O: Order<T> + Kinds<T>> {
    run: Vec<T>,
    rest: OrderedBlocks<T, O>,
}

impl<T, O: Order<T> + Kinds<T>> Model for OrderedRuns<T, O> {
    ghost use Rattle.std.specs.Prelude.{◌-◌, ◌++◌, length};
    ghost use Rattle.std.specs.Vec.{vec_capacity};
    ghost use Rattle.mp_ordered.specs.InOrder.{InOrder};
    ghost use Rattle.mp_ordered_runs.specs.Runs.{IsRun};

    ghost Value = { InOrder T };

    ghost view = { λ o. record { items = o.run.items ++ o.rest.items; room = o.rest.room - length o.run.items } };

    ghost invariant = { λ o. IsRun O.rank O.same o.run.items (vec_capacity o.run) o.rest };
}

impl<T: Drop, O: Order<T> + Kinds<T>> OrderedRuns<T, O> {
    /// No items.
    pub fn new(alloc: Global) -> OrderedRuns<T, O>
        ensures { result.items ≡ [] }
    {
        OrderedRuns {
            run: Vec::new(alloc),
            rest: OrderedBlocks::new(alloc),
        }
    }

    /// For how many more there is room.
    pub fn room(&self) -> usize
        ensures { result ≡ self.now.room }
    {
        self.rest.room() - self.run.len()
    }

    /// Makes room, so that the next `count` calls of `insert` answer `Ok`. `AllocError`: no memory, and nothing
    /// changes.
    pub fn make_room(&mut self, count: u64) -> Result<(), AllocError>
        ensures room { OnOk result (count ≤ self.new.room) }
        ensures items { self.new.items ≡ self.old.items }
        ensures no_less { self.old.room ≤ self.new.room }
        ensures unchanged { OnErr result (self.new ≡ self.old) }
    {
        let count = count as usize;
        if count <= self.room() {
            return Ok(());
        }
        let all = self.run.len().checked_add(count).ok_or(AllocError)?;
        let more = self.rest.len().checked_add(count).ok_or(AllocError)?;
        self.run.reserve(more)?;
        self.rest.make_room(all as u64)
    }

    /// Puts an item at its place, in front of those of its rank. `AllocError`: no memory, never where there is
    /// room, and nothing changes.
    pub fn insert(&mut self, item: T) -> Result<(), AllocError>
        ensures put { OnOk result (self.new.items ≡ put_in_order O.rank item self.old.items) }
        ensures room { OnOk result (self.old.room ≤ self.new.room + 1) }
        ensures unchanged { OnErr result (self.new ≡ self.old) }
        ensures never_refused_with_room { 0 < self.old.room → IsOk result }
    {
        if self.rest.room() == self.run.len() {
            self.make_room(1)?;
        }
        self.put(item);
        Ok(())
    }

    // The same, where there is room.
    fn put(&mut self, item: T)
        requires { 0 < self.old.room }
        ensures put { self.new.items ≡ put_in_order O.rank item self.old.items }
        ensures room { self.old.room ≡ self.new.room + 1 }
    {
        let at = place_of::<T, O>(&self.run, &item);
        if goes_into_run::<T, O>(&self.run, &self.rest, at, &item) {
            put(&mut self.run, at, item);
        } else if goes_behind_run::<T, O>(&self.run, at, &item) {
            self.rest.insert_reserved(item);
        } else {
            put_back(&mut self.run, &mut self.rest);
            self.rest.insert_reserved(item);
            take_run(&mut self.run, &mut self.rest);
        }
    }

    /// The first item and those of its kind that follow it.
    pub fn first_run(&self) -> &[T]
        ensures run { result.now ≡ first_run O.same self.now.items }
        ensures in_order { IsInOrder O.rank self.now.items }
    {
        &self.run
    }

    /// The first item; `None` exactly where there is none.
    pub fn first(&self) -> Option<&T>
        ensures some { IfSome result (λ x. slice_get self.now.items 0 ≡ Some x.now) }
        ensures none { IfNone result (self.now.items ≡ []) }
    {
        self.run.first()
    }

    /// The first item that doesn't come before another one; `None` exactly where there is none.
    pub fn first_from(&self, item: &T) -> Option<&T>
        ensures some { IfSome result (λ x. first_from O.rank item.now self.now.items ≡ Some x.now) }
        ensures none { IfNone result (first_from O.rank item.now self.now.items ≡ None) }
        ensures in_order { IsInOrder O.rank self.now.items }
    {
        match self.run.get(place_of::<T, O>(&self.run, item)) {
            Some(found) => Some(found),
            None => self.rest.first_from(item),
        }
    }

    /// The item at an index, from 0 in order; `None` exactly where there are no more. Goes from block to block.
    pub fn get(&self, index: usize) -> Option<&T>
        ensures some { IfSome result (λ x. slice_get self.now.items index ≡ Some x.now) }
        ensures none { IfNone result (length self.now.items ≤ index) }
        ensures few { length self.now.items < 2 ^ 63 }
    {
        if index < self.run.len() {
            return Some(&self.run[index]);
        }
        self.rest.get(index - self.run.len())
    }

    /// Drops the first `count` items: none, or the first and those of its kind that follow it. They leave their room.
    pub fn drop_first(&mut self, count: usize)
        requires { (count ≡ 0) ⊎ (count ≡ length (first_run O.same self.old.items)) }
        ensures items { self.new.items ≡ drop count self.old.items }
        ensures room { self.new.room ≡ self.old.room + count }
    {
        if count > 0 {
            self.run.clear();
            take_run(&mut self.run, &mut self.rest);
        }
    }
}

// Whether an item that comes after so many of the first run is to be put among them.
fn goes_into_run<T: Drop, O: Order<T> + Kinds<T>>(
    run: &[T],
    rest: &OrderedBlocks<T, O>,
    at: usize,
    item: &T,
) -> bool
    requires inside { at ≤ length run.now }
    requires place { slice_get run.now at ≡ first_from O.rank item.now run.now }
    ensures { IsTrue result → GoesIntoRun O.rank O.same item.now run.now rest.now.items at }
{
    if at == 0 {
        return false;
    }
    if !O::is_same(&run[0], item) {
        return false;
    }
    if at < run.len() {
        return true;
    }
    !begins_before(rest, item)
}

// Whether one is to be put behind them, and they stay the first run.
fn goes_behind_run<T, O: Order<T> + Kinds<T>>(run: &[T], at: usize, item: &T) -> bool
    requires inside { at ≤ length run.now }
    requires place { slice_get run.now at ≡ first_from O.rank item.now run.now }
    ensures { IsTrue result → GoesBehindRun O.rank O.same item.now run.now }
{
    if at == 0 {
        return false;
    }
    if at < run.len() {
        return false;
    }
    !O::is_same(&run[0], item)
}

// Whether the first of the items comes before this one.
fn begins_before<T: Drop, O: Order<T>>(items: &OrderedBlocks<T, O>, item: &T) -> bool
    ensures { result ≡ begins_before O.rank item.now items.now.items }
{
    match items.first() {
        Some(first) => O::is_before(first, item),
        None => false,
    }
}

// Puts the items of the first run back among the others.
fn put_back<T: Drop, O: Order<T>>(run: &mut Vec<T>, rest: &mut OrderedBlocks<T, O>)
    requires order { IsInOrder O.rank (run.old.items ++ rest.old.items) }
    requires room { length run.old.items ≤ rest.old.room }
    ensures run { run.new.items ≡ [] }
    ensures rest { rest.new.items ≡ run.old.items ++ rest.old.items }
    ensures room { rest.old.room ≡ rest.new.room + length run.old.items }
    ensures memory { vec_capacity run.new ≡ vec_capacity run.old }
{
    while let Some(item) = run.pop() {
        rest.insert_reserved(item);
    }
}

// Takes the first run out of the others.
fn take_run<T: Drop, O: Order<T> + Kinds<T>>(run: &mut Vec<T>, rest: &mut OrderedBlocks<T, O>)
    requires none { run.old.items ≡ [] }
    requires memory { length rest.old.items ≤ vec_capacity run.old }
    ensures items { run.new.items ++ rest.new.items ≡ rest.old.items }
    ensures kind { IsOneKind O.same run.new.items }
    ensures ends { continues O.same run.new.items rest.new.items ≡ false }
    ensures room { rest.new.room ≡ rest.old.room + length run.new.items }
    ensures memory { vec_capacity run.old ≤ vec_capacity run.new }
{
    while continues(run, rest) {
        let Some(item) = rest.pop_first() else {
            unreachable!()
        };
        run.push_reserved(item);
    }
}

// Whether the next of the others is of the run's kind, or there is no run.
fn continues<T: Drop, O: Order<T> + Kinds<T>>(run: &[T], rest: &OrderedBlocks<T, O>) -> bool
    ensures { result ≡ continues O.same run.now rest.now.items }
{
    let Some(next) = rest.first() else {
        return false;
    };
    match run.first() {
        Some(first) => O::is_same(first, next),
        None => true,
    }
}
