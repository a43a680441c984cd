//! Records that travel together.
ghost use Rattle.std.specs.Prelude.{◌≡◌, ◌<◌, IsSome, Some, length, slice_get};
ghost use Rattle.mp_msg.specs.Bundles.{names_in};

use crate::Names;
use mp_model::Rec;
use mp_names::Name;
use std::marker::Model;

/// Records of one stage, in the order of their tags. A message takes only those of one time, sender and receiver, at most
/// [`MAX_BUNDLE`](mp_names::limits::MAX_BUNDLE). Contracts see a `Bundled`.
pub struct Bundle {
    stage: u32,
    recs: Vec<Rec>,
}

// By hand, so that crates above call it and don't write out the drop of each field.
impl Drop for Bundle {
    fn drop(self) {
        let Bundle { stage: _, recs: _ } = self;
    }
}

impl Model for Bundle {
    ghost use Rattle.mp_msg.specs.Bundles.{Bundled};

    ghost Value = { Bundled };

    ghost view = { λ b. record { stage = b.stage; recs = b.recs.items } };
}

impl Bundle {
    /// These records of a stage.
    pub fn new(stage: u32, recs: Vec<Rec>) -> Bundle
        ensures { result ≡ record { stage = stage; recs = recs.items } }
    {
        Bundle { stage, recs }
    }

    /// Their stage.
    pub fn stage(&self) -> u32
        ensures { result ≡ self.now.stage }
    {
        self.stage
    }

    /// The records.
    pub fn recs(&self) -> &[Rec]
        ensures { result.now ≡ self.now.recs }
    {
        &self.recs
    }

    /// The records, to keep.
    pub fn into_recs(self) -> Vec<Rec>
        ensures { result.items ≡ self.recs }
    {
        let Bundle { stage: _, recs } = self;
        recs
    }

    /// What they are called in the workers' logs.
    pub fn names(&self) -> Names
        requires { 0 < length self.now.recs }
        ensures first { slice_get (names_in self.now) 0 ≡ Some result.first }
        ensures count { result.count ≡ length (names_in self.now) }
    {
        let rec = &self.recs[0];
        let first = Name::Rec {
            stage: self.stage,
            time: rec.time,
            key: rec.key,
            tag: rec.tag,
        };
        Names {
            first,
            count: self.recs.len() as u64,
        }
    }
}
