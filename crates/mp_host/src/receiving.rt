//! How a host receives bundles of records.
ghost use Rattle.std.specs.Prelude.{◌≡◌, ◌≤◌, ◌<◌, ◌+◌, [], All, IfErr, IfOk, IsOk, OnErr, OnOk, length, reverse, slice_index_or, take};
ghost use Rattle.std.specs.List.{list_any};
ghost use Rattle.mp_names.specs.Logs.{Log, LogIsLegal};
ghost use Rattle.mp_model.specs.declared.record.Rec.{Rec};
ghost use Rattle.mp_model.specs.Tables.{table_of};
ghost use Rattle.mp_outline.specs.JobOutline.{outline_of};
ghost use Rattle.mp_msg.specs.Bundles.{names_in};
ghost use Rattle.mp_msg.specs.Contents.{IsRecordOf};
ghost use Rattle.mp_rows_laws.specs.Changes.{new_groups};
ghost use Rattle.mp_host_laws.specs.Hosted.{is_of};
ghost use Rattle.mp_host_laws.specs.HostOf.{IsHostOf};
ghost use Rattle.mp_host.specs.Receiving.{AreToCome, TakesRecords, begins_group};

use crate::Host;
use mp_model::{Naming, Query, Rec, Time};
use mp_msg::Bundle;
use std::alloc::AllocError;

impl<'a, Q: Query, J: Naming> Host<'a, Q, J> {
    /// Keeps the records of a bundle of the stage until their groups are applied. Each is moved to its place; those of the
    /// first group come to stand in one slice. The list in which they came is handed back empty. `AllocError`: no memory, never where
    /// there is room; the bundle is handed back, and nothing is held that wasn't.
    pub fn receive(&mut self, bundle: Bundle) -> Result<Vec<Rec>, (Bundle, AllocError)>
        requires stage { bundle.stage ≡ self.old.stage }
        requires content { All (IsRecordOf (table_of Q.facts J.job) J.job self.old.stage) bundle.recs }
        ensures held { OnOk result (TakesRecords (table_of Q.facts J.job) J.job bundle.recs self.old self.new) }
        ensures emptied { IfOk result (λ list. list.items ≡ []) }
        ensures room { OnOk result (self.old.room ≤ self.new.room + length bundle.recs) }
        ensures for_bins { self.new.room_for_bins ≡ self.old.room_for_bins }
        ensures stage { self.new.stage ≡ self.old.stage }
        ensures worker { self.new.worker ≡ self.old.worker }
        ensures back { IfErr result (λ e. e.0 ≡ bundle) }
        ensures unchanged { OnErr result (self.new ≡ self.old) }
        ensures never_refused_with_room { length bundle.recs ≤ self.old.room → IsOk result }
    {
        let count = bundle.recs().len();
        if self.records.room() < count && self.records.make_room(count as u64).is_err() {
            return Err((bundle, AllocError));
        }
        let mut recs = bundle.into_recs();
        recs.reverse();
        self.keep_all(&mut recs, count);
        Ok(recs)
    }

    // Keeps so many records, the last one first.
    fn keep_all(&mut self, recs: &mut Vec<Rec>, count: usize)
        requires count { count ≡ length recs.old.items }
        requires content { All (IsRecordOf (table_of Q.facts J.job) J.job self.old.stage) (reverse recs.old.items) }
        requires room { count ≤ self.old.room }
        ensures held { TakesRecords (table_of Q.facts J.job) J.job (reverse recs.old.items) self.old self.new }
        ensures emptied { recs.new.items ≡ [] }
        ensures room { self.old.room ≤ self.new.room + count }
        ensures for_bins { self.new.room_for_bins ≡ self.old.room_for_bins }
        ensures stage { self.new.stage ≡ self.old.stage }
        ensures worker { self.new.worker ≡ self.old.worker }
    {
        for _kept in 0..count {
            let Some(rec) = recs.pop() else {
                unreachable!()
            };
            let Ok(()) = self.keep(rec) else {
                unreachable!()
            };
        }
    }

    /// How many groups wait once the records of a bundle of the stage are received, and don't before. Takes no memory.
    pub fn new_groups(&self, bundle: &Bundle) -> u64
        requires { bundle.now.stage ≡ self.now.stage }
        ensures told { let q = table_of Q.facts J.job in let o = outline_of q J.job in
            (log : Log) → IsHostOf q J.job log self.now → LogIsLegal o self.now.worker log
            → AreToCome o log self.now.worker (names_in bundle.now) → result ≡ new_groups o self.now.worker log (names_in bundle.now) }
        ensures few { result ≤ length bundle.now.recs }
    {
        let _ = &self.job;
        let recs = bundle.recs();
        let mut count = 0;
        for at in 0..recs.len() {
            if self.begins_group(recs, at) {
                count += 1;
            }
        }
        count
    }

    // Whether the group of a record doesn't wait, and the record is the first of it in the list.
    fn begins_group(&self, recs: &[Rec], at: usize) -> bool
        requires { at < length recs.now }
        ensures { (d : Rec) → result ≡ begins_group self.now (take at recs.now) (slice_index_or recs.now at d) }
    {
        let rec = &recs[at];
        !self.waits(rec.time, rec.key) && !has_of(&recs[..at], rec.time, rec.key)
    }
}

// Whether one of the records is of the group of a key at a time.
fn has_of(recs: &[Rec], time: Time, key: u64) -> bool
    ensures { result ≡ list_any (is_of time key) recs.now }
{
    recs.iter().any(|rec| rec.time == time && rec.key == key)
}
