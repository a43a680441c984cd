//! A log with the changes that it hasn't posted.
ghost use Rattle.std.specs.Prelude.{◌≡◌, ◌==◌, ◌+◌, ◌-◌, ◌^◌, ◌<◌, ◌≤◌, IsOk, List, OnErr, OnOk, length, map, max};
ghost use Rattle.mp_names.specs.Laws.{log_size};
ghost use Rattle.mp_names.specs.Logs.{Log as NamesLog, empty_log};
ghost use Rattle.mp_names.specs.declared.names.Name.{Name};
ghost use Rattle.mp_rows.specs.Entries.{AreChanges};
ghost use Rattle.mp_outline.specs.JobOutline.{name_of_record};
ghost use Rattle.mp_rows.specs.Lists.{with_name, with_names};
ghost use Rattle.mp_rows.specs.WorkerLog.{IsUnposted};

use crate::Change;
use crate::lists::LogList;
use crate::names::{LogNames, no_names, one_more, several_more};
use crate::netting::net_all;
use crate::new_names::NewNames;
use crate::outlined::Outlined;
use mp_model::Rec;
use mp_names::Name;
use mp_stamps::Hints;
use std::alloc::{AllocError, Global};
use std::marker::{Model, PhantomData};
use std::mem;
use std::snapshot::Snapshot;

// How many names a log may have, and how many changes may come with one. No run comes near these; with them no sum of
// counts is past its type.
const MOST_NAMES: u64 = 1 << 33;

const MOST_CHANGES: u64 = 1 << 24;

/// The log of one worker of a job with this outline: how far its five lists of names have grown, and what that added to
/// the counts since the log was posted last. The names themselves stand in contracts alone, which see a `WorkerLog`.
pub struct Log<O: Outlined> {
    worker: u32,
    // The names, now and as they were posted last; and how many they are.
    names: Snapshot<LogNames>,
    posted: Snapshot<Snapshot<LogNames>>,
    size: u64,
    posted_size: u64,
    ingested: u64,
    applied: u64,
    // Their sum at each location and time is what the names since then add to the log's contribution.
    changes: Vec<Change>,
    // Where the entries of some locations and times stand among them.
    hints: Hints,
    // For how many more names and changes there is room.
    room_for_names: u64,
    room_for_changes: u64,
    of: PhantomData<O>,
}

// By hand, so that crates above call it and don't write out the drop of each field.
impl<O: Outlined> Drop for Log<O> {
    fn drop(self) {
        let Log {
            worker: _,
            names: _,
            posted: _,
            size: _,
            posted_size: _,
            ingested: _,
            applied: _,
            changes: _,
            hints: _,
            room_for_names: _,
            room_for_changes: _,
            of: _,
        } = self;
    }
}

impl<O: Outlined> Model for Log<O> {
    ghost use Rattle.std.specs.Prelude.{◌≡◌, ◌+◌, ◌≤◌, length, vec_len};
    ghost use Rattle.std.specs.Vec.{vec_capacity};
    ghost use Rattle.mp_names.specs.Laws.{log_size};
    ghost use Rattle.mp_rows.specs.WorkerLog.{IsUnposted, WorkerLog, most_changes, most_names};

    ghost Value = { WorkerLog };

    ghost view = { λ l.
        record {
          worker = l.worker;
          log = l.names.value;
          posted = l.posted.value.value;
          room_for_names = l.room_for_names;
          room_for_changes = l.room_for_changes;
        } };

    ghost invariant = { λ l.
        IsUnposted O.outline l.worker l.posted.value.value l.names.value l.changes.items
        × (l.size ≡ log_size l.names.value)
        × (l.posted_size ≡ log_size l.posted.value.value)
        × (l.ingested ≡ length l.names.value.ingested)
        × (l.applied ≡ length l.names.value.applied)
        × (l.size + l.room_for_names ≤ most_names)
        × (l.room_for_changes ≤ most_changes)
        × (vec_len l.changes + l.room_for_changes ≤ vec_capacity l.changes) };
}

impl<O: Outlined> Log<O> {
    /// The empty log of a worker, which counts as posted.
    pub fn open(alloc: Global, worker: u32) -> Log<O>
        ensures worker { result.worker ≡ worker }
        ensures log { result.log ≡ empty_log }
        ensures posted { result.posted ≡ empty_log }
    {
        let names = no_names();
        let posted = Snapshot::of(&names);
        Log {
            worker,
            names,
            posted,
            size: 0,
            posted_size: 0,
            ingested: 0,
            applied: 0,
            changes: Vec::new(alloc),
            hints: Hints::new(),
            room_for_names: 0,
            room_for_changes: 0,
            of: PhantomData,
        }
    }

    /// Adds a name at the end of a list. The changes, each location and time once and none by 0, are what that adds to
    /// the log's contributions. `AllocError`: no memory, and nothing changes; more than 2^33 names, or 2^24 changes with
    /// one, count as that.
    pub fn push(&mut self, list: LogList, name: Name, changes: &[Change]) -> Result<(), AllocError>
        requires changes { AreChanges O.outline self.old.worker self.old.log (with_name list name self.old.log) changes.now }
        ensures pushed { OnOk result (self.new ≡ record self.old {
          log = with_name list name self.old.log;
          room_for_names = self.old.room_for_names - 1;
          room_for_changes = self.old.room_for_changes - length changes.now;
        }) }
        ensures unchanged { OnErr result (self.new ≡ self.old) }
        ensures ready { 1 ≤ self.old.room_for_names → length changes.now ≤ self.old.room_for_changes → IsOk result }
    {
        if self.size >= MOST_NAMES || changes.len() as u64 > MOST_CHANGES {
            return Err(AllocError);
        }
        self.changes.reserve(changes.len())?;
        net_all(&mut self.changes, &mut self.hints, changes);
        let before = mem::replace(&mut self.names, no_names());
        self.names = one_more(before, list, name);
        self.size += 1;
        self.ingested = ingested_after(self.ingested, list);
        self.applied = applied_after(self.applied, list);
        self.room_for_names = self.room_for_names.saturating_sub(1);
        self.room_for_changes = self.room_for_changes.saturating_sub(changes.len() as u64);
        Ok(())
    }

    /// Adds the names of records of a stage at the end of a list, at least one. The changes, each location and time once
    /// and none by 0, are what that adds to the log's contributions. `AllocError`: no memory, and nothing changes; more
    /// than 2^33 names, or 2^24 changes, count as that.
    pub fn push_records(
        &mut self,
        list: LogList,
        stage: u32,
        recs: &[Rec],
        changes: &[Change],
    ) -> Result<(), AllocError>
        requires some { 0 < length recs.now }
        requires changes { AreChanges O.outline self.old.worker self.old.log
            (with_names list (map (name_of_record stage) recs.now) self.old.log) changes.now }
        ensures pushed { OnOk result (self.new ≡ record self.old {
          log = with_names list (map (name_of_record stage) recs.now) self.old.log;
          room_for_names = self.old.room_for_names - length recs.now;
          room_for_changes = self.old.room_for_changes - length changes.now;
        }) }
        ensures unchanged { OnErr result (self.new ≡ self.old) }
        ensures ready { length recs.now ≤ self.old.room_for_names → length changes.now ≤ self.old.room_for_changes → IsOk result }
    {
        self.push_all(list, NewNames::of_records(stage, recs), changes)
    }

    /// Adds names at the end of a list, all at once. The changes, each location and time once and none by 0, are what that
    /// adds to the log's contributions. `AllocError`: no memory, and nothing changes; more than 2^33 names, or 2^24 changes,
    /// count as that.
    pub fn push_all(
        &mut self,
        list: LogList,
        names: NewNames,
        changes: &[Change],
    ) -> Result<(), AllocError>
        requires changes { AreChanges O.outline self.old.worker self.old.log (with_names list names self.old.log) changes.now }
        ensures pushed { OnOk result (self.new ≡ record self.old {
          log = with_names list names self.old.log;
          room_for_names = self.old.room_for_names - length names;
          room_for_changes = self.old.room_for_changes - length changes.now;
        }) }
        ensures unchanged { OnErr result (self.new ≡ self.old) }
        ensures ready { length names ≤ self.old.room_for_names → length changes.now ≤ self.old.room_for_changes → IsOk result }
    {
        let count = names.count();
        if count > MOST_NAMES - self.size || changes.len() as u64 > MOST_CHANGES {
            return Err(AllocError);
        }
        self.changes.reserve(changes.len())?;
        net_all(&mut self.changes, &mut self.hints, changes);
        let before = mem::replace(&mut self.names, no_names());
        self.names = several_more(before, list, names);
        self.size += count;
        self.ingested = ingested_with(self.ingested, list, count);
        self.applied = applied_with(self.applied, list, count);
        self.room_for_names = self.room_for_names.saturating_sub(count);
        self.room_for_changes = self.room_for_changes.saturating_sub(changes.len() as u64);
        Ok(())
    }

    /// Makes room: the next `n` pushes with `n` changes in all then answer `Ok`. `AllocError`: no memory, and nothing
    /// changes; a number past what a log may have counts as that.
    pub fn make_room(&mut self, n: u64) -> Result<(), AllocError>
        ensures made { OnOk result (self.new ≡ record self.old {
          room_for_names = max self.old.room_for_names n;
          room_for_changes = max self.old.room_for_changes n;
        }) }
        ensures unchanged { OnErr result (self.new ≡ self.old) }
    {
        if n > MOST_CHANGES || n > MOST_NAMES - self.size {
            return Err(AllocError);
        }
        self.changes.reserve(n as usize)?;
        self.room_for_names = self.room_for_names.max(n);
        self.room_for_changes = self.room_for_changes.max(n);
        Ok(())
    }

    /// Takes the log as posted, once its changes are told. Takes no memory.
    pub fn post(&mut self)
        ensures { self.new ≡ record self.old { posted = self.old.log } }
    {
        self.changes.clear();
        self.posted = Snapshot::of(&self.names);
        self.posted_size = self.size;
    }

    /// What the log adds to the counts since it was posted last: at each location and time the sum of the changes that
    /// have these.
    pub fn changes(&self) -> &[Change]
        ensures { IsUnposted O.outline self.now.worker self.now.posted self.now.log result.now }
    {
        self.changes.as_slice()
    }

    /// Whether no name came since the log was posted last.
    pub fn is_posted(&self) -> bool
        ensures { result ≡ log_size self.now.log == log_size self.now.posted }
    {
        self.size == self.posted_size
    }

    /// How many records of its share the worker has ingested.
    pub fn ingested(&self) -> u64
        ensures { result ≡ length self.now.log.ingested }
    {
        self.ingested
    }

    /// How many groups it has applied.
    pub fn applied(&self) -> u64
        ensures { result ≡ length self.now.log.applied }
    {
        self.applied
    }

    /// Whose log it is.
    pub fn worker(&self) -> u32
        ensures { result ≡ self.now.worker }
    {
        self.worker
    }
}

// How many names the list of ingested records has after one more in this list.
fn ingested_after(ingested: u64, list: LogList) -> u64
    requires { ingested < 2 ^ 64 - 1 }
    ensures { (x : Name) (log : NamesLog) → ingested ≡ length log.ingested → result ≡ length (with_name list x log).ingested }
{
    match list {
        LogList::Ingested => ingested + 1,
        LogList::Sent | LogList::Took | LogList::Applied | LogList::Settled => ingested,
    }
}

// How many names the list of applied groups has after one more in this list.
fn applied_after(applied: u64, list: LogList) -> u64
    requires { applied < 2 ^ 64 - 1 }
    ensures { (x : Name) (log : NamesLog) → applied ≡ length log.applied → result ≡ length (with_name list x log).applied }
{
    match list {
        LogList::Applied => applied + 1,
        LogList::Ingested | LogList::Sent | LogList::Took | LogList::Settled => applied,
    }
}

// How many names the list of ingested records has after so many more in this list.
fn ingested_with(ingested: u64, list: LogList, count: u64) -> u64
    requires { ingested + count < 2 ^ 64 }
    ensures { (xs : List Name) (log : NamesLog) → ingested ≡ length log.ingested → count ≡ length xs
        → result ≡ length (with_names list xs log).ingested }
{
    match list {
        LogList::Ingested => ingested + count,
        LogList::Sent | LogList::Took | LogList::Applied | LogList::Settled => ingested,
    }
}

// How many names the list of applied groups has after so many more in this list.
fn applied_with(applied: u64, list: LogList, count: u64) -> u64
    requires { applied + count < 2 ^ 64 }
    ensures { (xs : List Name) (log : NamesLog) → applied ≡ length log.applied → count ≡ length xs
        → result ≡ length (with_names list xs log).applied }
{
    match list {
        LogList::Applied => applied + count,
        LogList::Ingested | LogList::Sent | LogList::Took | LogList::Settled => applied,
    }
}
