//! What a chart is made of.
ghost use Rattle.std.specs.Prelude.{◌≡◌, ◌<◌, ◌≤◌, ◌^◌, [], ℕ, suc, Some, length, slice_get};
ghost use Rattle.mp_names.specs.Limits.{most_bins, most_stages, most_workers};
ghost use Rattle.mp_names.specs.Names.{In};
ghost use Rattle.mp_names.specs.Outlines.{Outline, OutlineIsSound, owner_at, owner_before, packets_of};
ghost use Rattle.mp_names.specs.declared.names.Name.{Name};

use mp_names::{Control, Name, Time};

/// The fields of an outline as lists and looks. Stages, bins and workers are numbers of the job.
pub trait OutlineLists {
    /// The outline.
    ghost outline: { Self → Outline };

    /// How many workers there are, 1 to `MAX_WORKERS`.
    fn workers(&self) -> u32
        ensures workers { result ≡ (outline self.now).workers }
        ensures few { result ≤ most_workers };

    /// How many stages there are, 1 to `MAX_STAGES`.
    fn stages(&self) -> u32
        ensures stages { result ≡ (outline self.now).stages }
        ensures few { result ≤ most_stages };

    /// Into how many bins the keys of a stage are cut, 1 to `MAX_BINS`.
    fn bins(&self) -> u32
        ensures bins { result ≡ (outline self.now).bins }
        ensures few { result ≤ most_bins };

    /// How many records travel in one message at most.
    fn bundle(&self) -> u32
        ensures { result ≡ (outline self.now).bundle };

    /// The stop time, if there is one.
    fn until(&self) -> Option<Time>
        ensures { result ≡ (outline self.now).until };

    /// Whether control records of a time wait until all that moves at earlier times has arrived.
    fn is_paced(&self) -> bool
        ensures { result ≡ (outline self.now).paced };

    /// The control records, in the order of their list.
    fn controls(&self) -> &[Control]
        ensures controls { result.now ≡ (outline self.now).controls }
        ensures few { length result.now < 2 ^ 32 };

    /// The names of the records of a stage, in their order: those of stage 0 by index.
    fn records(&self, stage: u32) -> &[Name]
        requires { stage < (outline self.now).stages }
        ensures { result.now ≡ (outline self.now).records stage };

    /// The times that the record at a place of the first stage's list posts.
    fn posts(&self, place: usize) -> &[Time]
        ensures { (x : Name) → slice_get ((outline self.now).records 0) place ≡ Some x
            → result.now ≡ (outline self.now).posts x };

    /// The names of the groups that a stage is to wake from the beginning.
    fn opening(&self, stage: u32) -> &[Name]
        requires { stage < (outline self.now).stages }
        ensures { result.now ≡ (outline self.now).opening stage };

    /// The names of the answer rows, in their order.
    fn rows(&self) -> &[Name]
        ensures { result.now ≡ (outline self.now).rows };

    /// The packets of all moves, by time, stage and bin.
    fn packets(&self) -> &[Name]
        ensures { result.now ≡ packets_of (outline self.now) };

    /// The worker that owns a bin of a stage just before a time.
    fn owner_before(&self, stage: u32, bin: u32, time: Time) -> u32
        requires stage { stage < (outline self.now).stages }
        requires bin { bin < (outline self.now).bins }
        ensures owner { result ≡ owner_before (outline self.now) stage bin time }
        ensures worker { result < (outline self.now).workers };

    /// The worker that owns a bin of a stage at a time.
    fn owner_at(&self, stage: u32, bin: u32, time: Time) -> u32
        requires stage { stage < (outline self.now).stages }
        requires bin { bin < (outline self.now).bins }
        ensures owner { result ≡ owner_at (outline self.now) stage bin time }
        ensures worker { result < (outline self.now).workers };

    /// The bin of a key.
    fn bin_of(&self, key: u64) -> u32
        ensures bin { result ≡ (outline self.now).bin_of key }
        ensures within { result < (outline self.now).bins };

    /// Does nothing. What the lists tell is sound, and records of later stages post nothing.
    fn are_sound(&self)
        ensures sound { OutlineIsSound (outline self.now) }
        ensures later { (j : ℕ) (x : Name) → In x ((outline self.now).records (suc j)) → (outline self.now).posts x ≡ [] };
}
