//! What the records of the first stage post.
ghost use Rattle.std.specs.Prelude.{◌≡◌, ◌-◌, ◌<◌, ◌≤◌, ℕ, All, IfOk, List, Some, drop, length, map, slice_get, take};
ghost use Rattle.mp_names.specs.Limits.{last_time};
ghost use Rattle.mp_job_lists.specs.Cut.{start_of};

use mp_model::{Query, Rec, Time};
use std::alloc::{AllocError, Global};
use std::marker::Model;

/// Lists of times, one behind the other. Contracts see the list of them.
#[derive(Drop)]
pub struct Posts {
    times: Vec<Time>,
    // Where each list ends.
    ends: Vec<usize>,
}

impl Model for Posts {
    ghost use Rattle.std.specs.Prelude.{ℕ, List, length};
    ghost use Rattle.mp_job_lists.specs.Cut.{EndAt, cut};

    ghost Value = { List (List ℕ) };

    ghost view = { λ p. cut 0 p.times.items p.ends.items };

    ghost invariant = { λ p. EndAt 0 p.ends.items (length p.times.items) };
}

impl Posts {
    /// What each of these records of the first stage posts. No record is later than 2^47 + 43,200. `AllocError`: no memory.
    pub fn of<Q: Query>(alloc: Global, query: &Q, recs: &[Rec]) -> Result<Posts, AllocError>
        requires { All (λ r. r.time ≤ last_time) recs.now }
        ensures { IfOk result (λ posts. posts ≡ map ((Q.facts (Q.values query.now)).posts 0) recs.now) }
    {
        let mut times = Vec::new(alloc);
        let mut ends = Vec::new(alloc);
        for rec in recs {
            times.extend_from_slice(query.posts(0, rec).as_slice())?;
            ends.push(times.len())?;
        }
        Ok(Posts { times, ends })
    }

    /// The list at a place; nothing where there is none.
    pub fn at(&self, place: usize) -> &[Time]
        ensures { (list : List ℕ) → slice_get self.now place ≡ Some list → result.now ≡ list }
    {
        if place >= self.ends.len() {
            return &[];
        }
        part(&self.times, start_of(&self.ends, place), self.ends[place])
    }
}

// What stands between two places.
fn part(times: &[Time], start: usize, end: usize) -> &[Time]
    requires order { start ≤ end }
    requires within { end ≤ length times.now }
    ensures { result.now ≡ take (end - start) (drop start times.now) }
{
    &times[start..end]
}

// Where the list at a place begins.
fn start_of(ends: &[usize], place: usize) -> usize
    requires { place < length ends.now }
    ensures { result ≡ start_of 0 ends.now place }
{
    if place == 0 {
        return 0;
    }
    ends[place - 1]
}
