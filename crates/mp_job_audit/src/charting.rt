//! A chart made of lists.
ghost use Rattle.std.specs.Prelude.{◌≡◌, IfOk};

use mp_chart::{Chart, Entry, Work};
use mp_group_lists::GroupLists;
use mp_names::{Kind, Time};
use mp_outline_lists::{OutlineLists, moments_by_stage};
use mp_step_lists::StepLists;
use mp_work_lists::WorkLists;
use std::alloc::{AllocError, Global};
use std::marker::Model;

/// The chart of a job whose outline is given as lists. Contracts see the lists.
#[derive(Drop)]
pub struct Charted<L: OutlineLists> {
    lists: L,
    steps: StepLists,
    groups: GroupLists,
    work: WorkLists,
}

impl<L: OutlineLists> Model for Charted<L> {
    ghost use Rattle.mp_job_audit.specs.Charting.{AreChartOf};

    ghost Value = { L };

    ghost view = { λ c. c.lists };

    ghost invariant = { λ c. AreChartOf (L.outline c.lists) c.steps c.groups c.work };
}

impl<L: OutlineLists + Drop> Charted<L> {
    /// The chart of the job with these lists. Takes n log n steps for n names. `AllocError`: no memory.
    pub fn of(alloc: Global, lists: L) -> Result<Charted<L>, AllocError>
        ensures { IfOk result (λ chart. chart ≡ lists) }
    {
        lists.are_sound();
        let steps = StepLists::of(alloc, &lists)?;
        let moments = moments_by_stage(alloc, &lists)?;
        let groups = GroupLists::of(alloc, &lists, &moments)?;
        let work = WorkLists::of(alloc, &lists, &moments)?;
        Ok(Charted {
            lists,
            steps,
            groups,
            work,
        })
    }
}

impl<L: OutlineLists> Chart for Charted<L> {
    ghost outline = { λ chart. L.outline chart };

    fn workers(&self) -> u32 {
        self.lists.workers()
    }

    fn stages(&self) -> u32 {
        self.lists.stages()
    }

    fn bundle(&self) -> u32 {
        self.lists.bundle()
    }

    fn until(&self) -> Option<Time> {
        self.lists.until()
    }

    fn list(&self, worker: u32, kind: Kind) -> &[Entry] {
        match kind {
            Kind::Apply(stage) => self.groups.groups(worker, stage),
            Kind::SendRow => self.groups.rows(worker),
            _ => self.steps.list(worker, kind),
        }
    }

    fn pace(&self, _worker: u32, place: usize) -> Option<Time> {
        self.steps.pace(place)
    }

    fn given(&self, worker: u32, stage: u32, place: usize) -> &[Entry] {
        self.groups.given(worker, stage, place)
    }

    fn groups_before(&self, worker: u32, place: usize) -> usize {
        self.groups.groups_before(worker, place)
    }

    fn times(&self) -> &[Time] {
        self.work.times()
    }

    fn work(&self) -> &[Work] {
        self.work.work()
    }
}
