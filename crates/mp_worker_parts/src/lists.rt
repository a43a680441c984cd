//! Lists of what a step changes at the counts. Room in them is made before the step, as nothing may be refused after that.
ghost use Rattle.std.specs.Prelude.{◌≡◌, ◌≤◌, ◌<◌, ◌+◌, ◌^◌, [], OnOk};
ghost use Rattle.std.specs.Vec.{vec_capacity};

use mp_model::Time;
use mp_rows::Change;
use std::alloc::{AllocError, Global};

/// Lists that a worker keeps, so that its steps take memory only the first time, and where one changes more than all before.
#[derive(Drop)]
pub struct ChangeLists {
    /// How many groups of each time begin to wait with a packet that is taken.
    pub numbers: Vec<(Time, u64)>,
    /// What a packet that is taken, or a group that is applied, changes at the counts of outstanding work.
    pub changes: Vec<Change>,
}

impl ChangeLists {
    /// Empty lists, with no room.
    pub fn new(alloc: Global) -> ChangeLists {
        ChangeLists {
            numbers: Vec::new(alloc),
            changes: Vec::new(alloc),
        }
    }

    /// Empties the lists and makes room for a packet whose wakes are of so many times. `AllocError`: no memory.
    pub fn make_room(&mut self, times: usize) -> Result<(), AllocError>
        requires { times + 2 < 2 ^ 64 }
        ensures empty { (self.new.numbers.items ≡ []) × (self.new.changes.items ≡ []) }
        ensures room { OnOk result ((times ≤ vec_capacity self.new.numbers) × (times + 1 ≤ vec_capacity self.new.changes)) }
    {
        self.numbers.clear();
        self.changes.clear();
        self.numbers.reserve(times)?;
        self.changes.reserve(times + 1)
    }

    /// Empties the list of changes and makes room for so many. `AllocError`: no memory.
    pub fn make_room_for_changes(&mut self, count: u64) -> Result<(), AllocError>
        ensures empty { self.new.changes.items ≡ [] }
        ensures room { OnOk result (count ≤ vec_capacity self.new.changes) }
    {
        self.changes.clear();
        self.changes.reserve(count as usize)
    }
}
