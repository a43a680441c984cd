//! A tournament among wakes: the first of them is one look, and a change goes up from its place to the top.
ghost use Rattle.std.specs.Prelude.{◌≡◌, ◌<◌, ◌^◌, IfOk, Some, drop, length, replicate, slice_set};
ghost use Rattle.mp_tournament.specs.Firsts.{IsTournamentBut, earlier_of, first_among};

use mp_model::Time;
use std::alloc::{AllocError, Global};
use std::marker::Model;

/// The first of a fixed number of wakes, each a time and a key or none. A change takes time logarithmic in their number.
/// Contracts see the wakes by place, from 0.
#[derive(Drop)]
pub struct Firsts {
    count: usize,
    // Behind as many entries as there are wakes, the wakes. Entry 0 isn't used, and each of the others in front of the wakes
    // is the earlier of two: entry j that of 2j and 2j + 1.
    tree: Vec<Option<(Time, u64)>>,
}

impl Model for Firsts {
    ghost use Rattle.std.specs.Prelude.{ℕ, List, Option, drop};
    ghost use Rattle.mp_tournament.specs.Firsts.{IsTournament};

    ghost Value = { List (Option (ℕ × ℕ)) };

    ghost view = { λ f. drop f.count f.tree.items };

    ghost invariant = { λ f. IsTournament f.count f.tree.items };
}

impl Firsts {
    /// So many places, from 1 to 2^32 - 1, without a wake. `AllocError`: no memory.
    pub fn new(alloc: Global, count: usize) -> Result<Firsts, AllocError>
        requires some { 0 < count }
        requires few { count < 2 ^ 32 }
        ensures { IfOk result (λ f. f ≡ replicate count None) }
    {
        let tree = vec![in alloc; None; 2 * count]?;
        Ok(Firsts { count, tree })
    }

    /// Changes the wake at a place, from 0. Takes no memory.
    pub fn set(&mut self, at: usize, wake: Option<(Time, u64)>)
        requires { at < length self.old }
        ensures { self.new ≡ slice_set self.old at wake }
    {
        if self.tree[self.count + at] != wake {
            self.put(at, wake);
        }
    }

    // Changes the wake at a place, and the entries above it.
    fn put(&mut self, at: usize, wake: Option<(Time, u64)>)
        requires { at < length self.old }
        ensures { self.new ≡ slice_set self.old at wake }
    {
        let leaf = self.count + at;
        self.tree[leaf] = wake;
        renew(&mut self.tree, self.count, leaf / 2);
    }

    /// The first wake by time and then by key; `None` exactly where there is none.
    pub fn first(&self) -> Option<(Time, u64)>
        ensures { result ≡ first_among self.now }
    {
        self.tree[1]
    }

    /// How many places there are.
    pub fn len(&self) -> usize
        ensures { result ≡ length self.now }
    {
        self.count
    }
}

// Makes an entry and those above it the earlier of two again, where the others are so.
fn renew(tree: &mut [Option<(Time, u64)>], count: usize, from: usize)
    requires { IsTournamentBut from count tree.old }
    ensures order { IsTournamentBut 0 count tree.new }
    ensures wakes { drop count tree.new ≡ drop count tree.old }
{
    let mut entry = from;
    while entry > 0 {
        tree[entry] = earlier_of(tree[2 * entry], tree[2 * entry + 1]);
        entry /= 2;
    }
}

/// Of two groups, each a time and a key, the first by time and then by key.
pub fn earlier_of(one: Option<(Time, u64)>, other: Option<(Time, u64)>) -> Option<(Time, u64)>
    ensures { result ≡ earlier_of one other }
{
    match (one, other) {
        (Some(first), Some(second)) => Some(earlier(first, second)),
        (None, _) => other,
        (Some(_), None) => one,
    }
}

// Of two groups the first by time and then by key. Without a branch, which would be taken in no order.
fn earlier(one: (Time, u64), other: (Time, u64)) -> (Time, u64)
    ensures { Some result ≡ earlier_of (Some one) (Some other) }
{
    let is_other = (other.0 < one.0) | ((other.0 == one.0) & (other.1 < one.1));
    if is_other { other } else { one }
}
