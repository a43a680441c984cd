//! What a control record that is taken changes at the counts.
ghost use Rattle.std.specs.Prelude.{◌≡◌, ◌≤◌, length};
ghost use Rattle.mp_rows_laws.specs.Changes.{control_taken_at};

use mp_names::{Change, Loc, Pointstamp, Time};
use std::marker::Model;

/// The changes of a control record that is taken, one or two. Contracts see the list of them.
#[derive(Drop)]
pub struct ControlChanges {
    both: [Change; 2],
    count: usize,
    ghost few: { count ≤ 2 },
}

impl Model for ControlChanges {
    ghost use Rattle.std.specs.Prelude.{List, take};
    ghost use Rattle.mp_names.specs.declared.pointstamps.Change.{Change};

    ghost Value = { List Change };

    ghost view = { λ c. take c.count c.both };
}

impl ControlChanges {
    /// Those of a control record of this stage and time: it is on its way no longer, and its time is to be settled from now
    /// on, unless one of that stage and time was noted before.
    pub fn new(stage: u32, time: Time, noted: bool) -> ControlChanges
        ensures { result ≡ control_taken_at stage time noted }
    {
        let comes = Pointstamp {
            loc: Loc::CtlMail,
            time,
        };
        let waits = Pointstamp {
            loc: Loc::Move(stage),
            time,
        };
        let both = [Change { at: comes, by: -1 }, Change { at: waits, by: 1 }];
        let count = if noted { 1 } else { 2 };
        ControlChanges { both, count }
    }

    /// They, in the order of the locations.
    pub fn as_slice(&self) -> &[Change]
        ensures all { result.now ≡ self.now }
        ensures few { length self.now ≤ 2 }
    {
        &self.both[..self.count]
    }
}
