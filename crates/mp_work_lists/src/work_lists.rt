//! All work of a job, and its times.
ghost use Rattle.std.specs.Prelude.{◌≡◌, ◌<◌, ℕ, Contains, IfOk, map};
ghost use Rattle.std.specs.List.Sorted.{IsStrictlyIncreasing};
ghost use Rattle.mp_names.specs.declared.locations.Loc.{Loc};
ghost use Rattle.mp_chart.specs.Left.{work_at};
ghost use Rattle.mp_outline_lists.specs.Moments.{AreMomentsOf};
ghost use Rattle.mp_work_lists.specs.Works.{IsAllWork};

use crate::parts::add_job;
use mp_chart::Work;
use mp_names::Time;
use mp_outline_lists::{Moment, OutlineLists};
use std::alloc::{AllocError, Global};
use std::marker::Model;

/// All work of a job by location and time, and the times of it. Contracts see a `Listed`.
#[derive(Drop)]
pub struct WorkLists {
    times: Vec<Time>,
    work: Vec<Work>,
}

impl Model for WorkLists {
    ghost use Rattle.mp_work_lists.specs.Works.{Listed};

    ghost Value = { Listed };

    ghost view = { λ w. record { times = w.times.items; work = w.work.items } };
}

impl WorkLists {
    /// All work of the job with these lists and moments of groups by stage, of which nothing is done. `AllocError`: no memory.
    pub fn of<L: OutlineLists>(
        alloc: Global,
        lists: &L,
        moments: &[Vec<Moment>],
    ) -> Result<WorkLists, AllocError>
        requires { AreMomentsOf (L.outline lists.now) (map (λ own. own.items) moments.now) }
        ensures { IfOk result (λ listed. IsAllWork (L.outline lists.now) listed) }
    {
        lists.are_sound();
        let mut work = Vec::new(alloc);
        add_job(alloc, lists, moments, &mut work)?;
        let times = times_of(alloc, &work)?;
        Ok(WorkLists { times, work })
    }

    /// The times of all work, ascending, each once.
    pub fn times(&self) -> &[Time]
        ensures { result.now ≡ self.now.times }
    {
        &self.times
    }

    /// All work, each part of it at a location of the job and of some names.
    pub fn work(&self) -> &[Work]
        ensures { result.now ≡ self.now.work }
    {
        &self.work
    }
}

// The times at which there is work, ascending, each once. They stand in a few ascending parts, which a stable sort merges.
// `AllocError`: no memory.
fn times_of(alloc: Global, work: &[Work]) -> Result<Vec<Time>, AllocError>
    ensures rising { IfOk result (λ times. IsStrictlyIncreasing times.items) }
    ensures all { IfOk result (λ times. (a : Loc) (t : ℕ) → 0 < work_at a t work.now → Contains times.items t) }
{
    let mut times = times_in(alloc, work)?;
    times.sort()?;
    times.dedup();
    Ok(times)
}

// The times of the entries, in their order. `AllocError`: no memory.
fn times_in(alloc: Global, work: &[Work]) -> Result<Vec<Time>, AllocError>
    ensures { IfOk result (λ times. times.items ≡ map (λ w. w.time) work.now) }
{
    work.iter().map(|part| part.time).collect(alloc)
}
