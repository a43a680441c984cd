//! Where a worker stands.
ghost use Rattle.std.specs.Prelude.{◌≡◌, ◌++◌, ◌∷◌, ◌+◌, ◌<◌, ◌-◌, ◌^◌, [], OnOk, get_or, slice_set, true};
ghost use Rattle.mp_names.specs.declared.kinds.Kind.{Kind};
ghost use Rattle.mp_standing.specs.Held.{with_all};
ghost use Rattle.mp_standing.specs.Numbers.{IsCounted, done_at};

use crate::done::Done;
use crate::held::Held;
use mp_chart::{Entry, Work};
use mp_names::Kind;
use mp_stamps::Seen;
use std::alloc::AllocError;

/// Where a worker stands.
#[derive(Drop)]
pub struct Standing {
    /// How far it is in each list.
    pub done: Done,
    /// The records that it holds to route, by stage.
    pub held: Vec<Held>,
    /// What it saw at its last exchange.
    pub seen: Seen,
    /// The work that it has done since it last posted.
    pub since: Vec<Work>,
    /// Whether its log isn't what it posted.
    pub changed: bool,
}

impl Standing {
    /// A step of a kind is made. `AllocError`: no memory.
    pub fn note(&mut self, kind: Kind, work: Work) -> Result<(), AllocError>
        requires { done_at self.old.done kind < 2 ^ 64 - 1 }
        ensures more { OnOk result (IsCounted kind → done_at self.new.done kind ≡ done_at self.old.done kind + 1) }
        ensures others { OnOk result ((k : Kind) → ¬ (k ≡ kind) → done_at self.new.done k ≡ done_at self.old.done k) }
        ensures work { OnOk result (self.new.since.items ≡ self.old.since.items ++ work ∷ []) }
        ensures changed { OnOk result (self.new.changed ≡ true) }
        ensures held { OnOk result (self.new.held ≡ self.old.held) }
        ensures seen { OnOk result (self.new.seen ≡ self.old.seen) }
    {
        self.done.add(kind);
        self.since.push(work)?;
        self.changed = true;
        Ok(())
    }

    /// Records of a stage come to those that it holds. `AllocError`: no memory.
    pub fn give(&mut self, stage: usize, records: &[Entry]) -> Result<(), AllocError>
        ensures held { OnOk result (self.new.held.items ≡
            slice_set self.old.held.items stage (with_all (get_or self.old.held.items stage []) records.now)) }
        ensures done { OnOk result (self.new.done ≡ self.old.done) }
        ensures work { OnOk result (self.new.since ≡ self.old.since) }
        ensures changed { OnOk result (self.new.changed ≡ self.old.changed) }
        ensures seen { OnOk result (self.new.seen ≡ self.old.seen) }
    {
        if stage >= self.held.len() {
            return Ok(());
        }
        self.held[stage].put_all(records)?;
        Ok(())
    }
}
