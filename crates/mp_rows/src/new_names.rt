//! Names that go into a log at once. They stand in proofs alone: nothing that runs reads one back.
ghost use Rattle.std.specs.Prelude.{◌≡◌, ◌∷◌, ◌<◌, [], length, map};
ghost use Rattle.mp_outline.specs.JobOutline.{name_of_record};

use crate::name_list::{NameList, no_list, one_after};
use mp_model::Rec;
use mp_names::Name;
use std::marker::Model;
use std::snapshot::Snapshot;

/// Names that go into a log at once: one or more, in order. Nothing that runs reads one back but how many they are.
/// Contracts see the list of them.
#[derive(Drop)]
pub struct NewNames {
    pub(crate) before: Snapshot<NameList>,
    pub(crate) last: Name,
    count: u64,
}

impl Model for NewNames {
    ghost use Rattle.std.specs.Prelude.{◌≡◌, ◌++◌, ◌∷◌, [], List, length};
    ghost use Rattle.mp_names.specs.declared.names.Name.{Name};

    ghost Value = { List Name };

    ghost view = { λ names. names.before.value ++ names.last ∷ [] };

    ghost invariant = { λ names. names.count ≡ length (names.before.value ++ names.last ∷ []) };
}

impl NewNames {
    /// One name.
    pub fn one(name: Name) -> NewNames
        ensures { result ≡ name ∷ [] }
    {
        NewNames {
            before: no_list(),
            last: name,
            count: 1,
        }
    }

    /// The names of records of a stage, of which there are some.
    pub fn of_records(stage: u32, recs: &[Rec]) -> NewNames
        requires { 0 < length recs.now }
        ensures { result ≡ map (name_of_record stage) recs.now }
    {
        let mut before = no_list();
        let mut last = name_of(stage, &recs[0]);
        for place in 1..recs.len() {
            before = one_after(before, last);
            last = name_of(stage, &recs[place]);
        }
        NewNames {
            before,
            last,
            count: recs.len() as u64,
        }
    }

    /// How many they are.
    pub fn count(&self) -> u64
        ensures count { result ≡ length self.now }
        ensures some { 0 < length self.now }
    {
        self.count
    }
}

// What a record of a stage is called.
fn name_of(stage: u32, rec: &Rec) -> Name
    ensures { result ≡ name_of_record stage rec.now }
{
    Name::Rec {
        stage,
        time: rec.time,
        key: rec.key,
        tag: rec.tag,
    }
}
