//! Lists that go by groups.
ghost use Rattle.std.specs.Prelude.{◌≡◌, ◌↔◌, ◌<◌, ◌≤◌, ◌-◌, ℕ, [], IfOk, get_or, map};
ghost use Rattle.mp_names.specs.Logs.{owned_groups};
ghost use Rattle.mp_names.specs.Outlines.{Outline, OutlineIsSound};
ghost use Rattle.mp_names.specs.declared.names.Name.{Name};
ghost use Rattle.mp_player_laws.specs.Decisions.{rows_to_send};
ghost use Rattle.mp_player_laws.specs.Numbers.{StandsAt};
ghost use Rattle.mp_player_laws.specs.Counted.{IsGivenWithin};
ghost use Rattle.mp_chart.specs.Entries.{entries_of, records_given};
ghost use Rattle.mp_outline_lists.specs.Moments.{AreMomentsOf};
ghost use Rattle.mp_group_lists.specs.Lists.{AreListsOf};
ghost use Rattle.mp_group_lists.specs.Parts.{next_records};

use crate::making::{groups_by_stage, records_by_stage, rows_by_worker};
use crate::moments::{count_upto, entries_at, moment_of};
use mp_chart::Entry;
use mp_outline_lists::{Moment, OutlineLists};
use std::alloc::{AllocError, Global};
use std::cell::Cell;

/// The groups of a job that each worker is to apply, the answer rows that it sends, and the records that each group gives.
#[derive(Drop)]
pub struct GroupLists {
    // Of each stage by worker, by time and key.
    groups: Vec<Vec<Vec<Entry>>>,
    // By worker, by time and tag.
    rows: Vec<Vec<Entry>>,
    // Of each stage but the first, by time and tag.
    records: Vec<Vec<Entry>>,
    // Where the last look among them ended.
    near: Cell<usize>,
}

impl GroupLists {
    /// The lists of an outline, of which these are the moments of groups by stage. Takes n log n steps for n names. `AllocError`: no memory.
    pub fn of<L: OutlineLists>(
        alloc: Global,
        lists: &L,
        moments: &[Vec<Moment>],
    ) -> Result<GroupLists, AllocError>
        requires { AreMomentsOf (L.outline lists.now) (map (λ own. own.items) moments.now) }
        ensures { IfOk result (λ made. AreListsOf (L.outline lists.now) made) }
    {
        Ok(GroupLists {
            groups: groups_by_stage(alloc, lists, moments)?,
            rows: rows_by_worker(alloc, lists)?,
            records: records_by_stage(alloc, lists)?,
            near: Cell::new(0),
        })
    }

    /// The groups of a stage that a worker is to apply, in its order.
    pub fn groups(&self, worker: u32, stage: u32) -> &[Entry]
        ensures { (o : Outline) → OutlineIsSound o → AreListsOf o self.now → worker < o.workers →
            result.now ≡ entries_of o (owned_groups o worker stage) }
    {
        match self.groups.get(stage as usize) {
            Some(parts) => part_of(parts, worker),
            None => &[],
        }
    }

    /// The answer rows that a worker sends, in its order.
    pub fn rows(&self, worker: u32) -> &[Entry]
        ensures { (o : Outline) → AreListsOf o self.now → worker < o.workers →
            result.now ≡ entries_of o (rows_to_send o worker) }
    {
        part_of(&self.rows, worker)
    }

    /// The records of the next stage that the group at a place of a worker's list of a stage gives, in their order.
    pub fn given(&self, worker: u32, stage: u32, place: usize) -> &[Entry]
        ensures { (o : Outline) (x : Name) → OutlineIsSound o → AreListsOf o self.now → worker < o.workers →
            StandsAt (owned_groups o worker stage) place x → result.now ≡ entries_of o (records_given o x) }
    {
        match self.groups(worker, stage).get(place) {
            Some(group) => {
                entries_at(self.records_after(stage), moment_of(group.name), &self.near)
            }
            None => &[],
        }
    }

    // The records of the next stage, in rank order; none behind the last stage.
    fn records_after(&self, stage: u32) -> &[Entry]
        ensures { (o : Outline) → OutlineIsSound o → AreListsOf o self.now → result.now ≡ next_records o stage }
    {
        part_of(&self.records, stage)
    }

    /// How many groups of the last stage a worker has to apply until it has the answer row at a place of its list. Where each group gives
    /// one row, they are as many as the row's place and one more.
    pub fn groups_before(&self, worker: u32, place: usize) -> usize
        ensures { (o : Outline) (x : Name) → OutlineIsSound o → AreListsOf o self.now → worker < o.workers →
            StandsAt (rows_to_send o worker) place x → (n : ℕ) → IsGivenWithin o worker n x ↔ result ≤ n }
    {
        match self.rows(worker).get(place) {
            Some(row) => count_upto(self.last_groups(worker), moment_of(row.name), place),
            None => 0,
        }
    }

    // The groups of the last stage that a worker is to apply, in its order.
    fn last_groups(&self, worker: u32) -> &[Entry]
        ensures { (o : Outline) → OutlineIsSound o → AreListsOf o self.now → worker < o.workers →
            result.now ≡ entries_of o (owned_groups o worker (o.stages - 1)) }
    {
        match self.groups.last() {
            Some(parts) => part_of(parts, worker),
            None => &[],
        }
    }
}

// The list at a number, empty where there is none.
fn part_of(parts: &[Vec<Entry>], number: u32) -> &[Entry]
    ensures { result.now ≡ get_or (map (λ part. part.items) parts.now) number [] }
{
    match parts.get(number as usize) {
        Some(part) => part,
        None => &[],
    }
}
