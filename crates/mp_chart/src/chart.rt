//! What a chart is.
ghost use Rattle.std.specs.Prelude.{◌≡◌, ◌↔◌, ◌<◌, ◌≤◌, ◌-◌, ◌+◌, ℕ, All, Contains};
ghost use Rattle.std.specs.List.Sorted.{IsStrictlyIncreasing};
ghost use Rattle.mp_names.specs.Limits.{most_stages};
ghost use Rattle.mp_names.specs.Locations.{IsLocation};
ghost use Rattle.mp_names.specs.Logs.{empty_log, owned_groups};
ghost use Rattle.mp_names.specs.Outlines.{Outline};
ghost use Rattle.mp_names.specs.declared.locations.Loc.{Loc};
ghost use Rattle.mp_names.specs.declared.names.Name.{Name};
ghost use Rattle.mp_names.specs.declared.kinds.Kind.TheVariants.{Apply, SendControl, SendRow};
ghost use Rattle.mp_player_laws.specs.Numbers.{StandsAt};
ghost use Rattle.mp_player_laws.specs.Counted.{IsGivenWithin};
ghost use Rattle.mp_player_laws.specs.WorkLeft.{work_left};
ghost use Rattle.mp_chart.specs.Left.{work_at};
ghost use Rattle.mp_chart.specs.Entries.{entries_of, records_given};
ghost use Rattle.mp_chart.specs.Lists.{IsPaceOf, to_do};

use crate::entry::Entry;
use crate::work::Work;
use mp_names::{Kind, Time};

/// The outline of a job as lists. Workers and stages are numbers of the job.
pub trait Chart {
    /// The outline.
    ghost outline: { Self → Outline };

    /// How many workers there are.
    fn workers(&self) -> u32
        ensures { result ≡ (outline self.now).workers };

    /// How many stages there are, at most `MAX_STAGES`.
    fn stages(&self) -> u32
        ensures stages { result ≡ (outline self.now).stages }
        ensures few { result ≤ most_stages };

    /// How many records travel in one message at most.
    fn bundle(&self) -> u32
        ensures { result ≡ (outline self.now).bundle };

    /// The stop time, if there is one.
    fn until(&self) -> Option<Time>
        ensures { result ≡ (outline self.now).until };

    /// What a worker does with its steps of a kind, in this order; nothing, where the kind goes along no list.
    fn list(&self, worker: u32, kind: Kind) -> &[Entry]
        requires { worker < (outline self.now).workers }
        ensures { result.now ≡ entries_of (outline self.now) (to_do (outline self.now) worker kind) };

    /// The latest of the control times below that of the control record at a place of a worker's list, where the record waits
    /// for what moves then; `None`, where it waits for nothing.
    fn pace(&self, worker: u32, place: usize) -> Option<Time>
        requires { worker < (outline self.now).workers }
        ensures { let o = outline self.now in (x : Name) → StandsAt (to_do o worker SendControl) place x → IsPaceOf o x result };

    /// The records of the next stage that the group at a place of a worker's list of a stage gives, in their order.
    fn given(&self, worker: u32, stage: u32, place: usize) -> &[Entry]
        requires { worker < (outline self.now).workers }
        ensures { let o = outline self.now in (x : Name) → StandsAt (to_do o worker (Apply stage)) place x → result.now ≡ entries_of o (records_given o x) };

    /// How many groups of the last stage a worker has to apply until it has the answer row at a place of its list.
    fn groups_before(&self, worker: u32, place: usize) -> usize
        requires { worker < (outline self.now).workers }
        ensures { let o = outline self.now in (x : Name) → StandsAt (to_do o worker SendRow) place x → (n : ℕ) → IsGivenWithin o worker n x ↔ result ≤ n };

    /// The times of all work, ascending, each once.
    fn times(&self) -> &[Time]
        ensures rising { IsStrictlyIncreasing result.now }
        ensures all { (a : Loc) (t : ℕ) → 0 < work_left (outline self.now) (λ w. empty_log) a t → Contains result.now t };

    /// All work, each part of it at a location of the job and of some names.
    fn work(&self) -> &[Work]
        ensures all { (a : Loc) (t : ℕ) → work_at a t result.now ≡ work_left (outline self.now) (λ w. empty_log) a t }
        ensures there { All (λ work. IsLocation (outline self.now).stages work.loc) result.now }
        ensures some { All (λ work. 0 < work.count) result.now };
}
