//! The control records that were noted, and the owners that they give.
ghost use Rattle.std.specs.Prelude.{◌≡◌, ◌<◌, ◌≤◌, ◌+◌, ◌*◌, ◌-◌, [], length, false, None, Some, cond, All, IfOk, OnOk, OnErr, IsOk, IfSome, IfNone};
ghost use Rattle.mp_bins.specs.Notes.{FirstFits, IsShape, IsWithin, first_owner, is_move_of, is_noted, move_of, moves_of, owner_at, owner_before, with_note};
ghost use Rattle.mp_bins.specs.Leaving.{IsNextLeaving, NoneLeaves};

use crate::changes::put_down;
use crate::finding::owner_below;
use crate::kept::{ByBin, ByOwner, StageBin};
use crate::ranked::first_from;
use mp_layout::{FirstOwners, bin_index};
use mp_names::{Control, First, Move, Shape, Time, TimedBin};
use mp_ordered::{OrderedBlocks, Spot};
use std::alloc::{AllocError, Global};
use std::cell::Cell;
use std::marker::Model;

/// A control record and its place in the list of all control records.
#[derive(Clone, Copy, Drop)]
pub struct Note {
    /// In the list of control records, from 0.
    pub index: u32,
    /// What it says.
    pub control: Control,
}

/// Who owns each bin of each stage at each time, by the control records noted so far. Records may be
/// noted in any order: they count in the order of their indices.
pub struct Owners {
    first: FirstOwners,
    // In the order of their ranks: by stage, bin, time and index.
    notes: OrderedBlocks<Note, ByBin>,
    // The moves among them, by stage, owner before, time and bin.
    changes: OrderedBlocks<Move, ByOwner>,
    // So many more notes there is room for, and twice as many moves.
    room: u64,
    // Where the last look for each bin of each stage ended, by stage and bin. A look tests what stands there, and searches
    // where it isn't the note that counts: no clause sees these hints.
    hints: Vec<Cell<Spot>>,
}

// By hand, so that crates above call it and don't write out the drop of each field.
impl Drop for Owners {
    fn drop(self) {
        let Owners {
            first: _,
            notes: _,
            changes: _,
            room: _,
            hints: _,
        } = self;
    }
}

impl Model for Owners {
    ghost use Rattle.std.specs.Prelude.{◌+◌, ◌≤◌};
    ghost use Rattle.mp_bins.specs.Notes.{Notes, AreInOrder, AreWithin, IsShape};
    ghost use Rattle.mp_bins.specs.Changes.{AreChangesOf};

    ghost Value = { Notes };

    ghost view = { λ o. record { layout = o.first; noted = o.notes.items; room = o.room } };

    ghost invariant = { λ o.
        IsShape o.first.shape
        × AreWithin o.first.shape o.notes.items
        × AreInOrder o.notes.items
        × AreChangesOf o.first o.notes.items o.changes.items
        × (o.room ≤ o.notes.room)
        × (o.room + o.room ≤ o.changes.room) };
}

impl Owners {
    /// The owners before any control record is noted: bin `b` is worker `b` modulo the number of workers'
    /// in each stage (this project's profile). Each part of the shape is at least 1. `AllocError`: no memory.
    pub fn new(alloc: Global, shape: Shape) -> Result<Owners, AllocError>
        requires { IsShape shape }
        ensures layout { IfOk result (λ o. o.layout ≡ record { shape = shape; firsts = [] }) }
        ensures none_noted { IfOk result (λ o. o.noted ≡ []) }
    {
        Owners::with_firsts(alloc, shape, &[])
    }

    /// The same, but for bins whose first owners these are.
    pub fn with_firsts(alloc: Global, shape: Shape, firsts: &[First]) -> Result<Owners, AllocError>
        requires shape { IsShape shape }
        requires firsts { All (FirstFits shape) firsts.now }
        ensures layout { IfOk result (λ o. o.layout ≡ record { shape = shape; firsts = firsts.now }) }
        ensures none_noted { IfOk result (λ o. o.noted ≡ []) }
    {
        Ok(Owners {
            first: FirstOwners::new(alloc, shape, firsts)?,
            notes: OrderedBlocks::new(alloc),
            changes: OrderedBlocks::new(alloc),
            room: 0,
            hints: no_hints(alloc, shape)?,
        })
    }

    /// Makes room, so that the next `count` calls of `note` answer `Ok`. `AllocError`: no memory, never where
    /// there is that room, and nothing changes.
    pub fn make_room(&mut self, count: u64) -> Result<(), AllocError>
        ensures room { OnOk result (count ≤ self.new.room) }
        ensures layout { self.new.layout ≡ self.old.layout }
        ensures noted { self.new.noted ≡ self.old.noted }
        ensures no_less { self.old.room ≤ self.new.room }
        ensures unchanged { OnErr result (self.new ≡ self.old) }
        ensures never_refused_with_room { count ≤ self.old.room → IsOk result }
    {
        if count <= self.room {
            return Ok(());
        }
        let Some(changes) = count.checked_mul(2) else {
            return Err(AllocError);
        };
        self.changes.make_room(changes)?;
        self.notes.make_room(count)?;
        self.room = count;
        Ok(())
    }

    /// Notes the control record that stands at `index` of the list of all control records. No record of
    /// that index is noted yet, and the record's worker, bin and stage are the job's. `AllocError`: no
    /// memory, never where there is room, and nothing changes.
    pub fn note(&mut self, index: u32, control: Control) -> Result<(), AllocError>
        requires not_yet { is_noted self.old.noted index ≡ false }
        requires within { IsWithin self.old.layout.shape control }
        ensures noted { OnOk result (self.new.noted ≡ with_note self.old.noted (record { index = index; control = control })) }
        ensures layout { self.new.layout ≡ self.old.layout }
        ensures room { OnOk result (self.old.room - 1 ≤ self.new.room) }
        ensures unchanged { OnErr result (self.new ≡ self.old) }
        ensures never_refused_with_room { 0 < self.old.room → IsOk result }
    {
        self.make_room(1)?;
        self.room -= 1;
        put_down(
            &mut self.notes,
            &mut self.changes,
            &self.first,
            Note { index, control },
        );
        Ok(())
    }

    /// The worker that owns a bin of a stage at a time: that of the noted record of this stage and bin with
    /// the greatest time up to then, of several at one time that of the greatest index; without one, the
    /// first owner. As in Megaphone's control stream; which of several counts is this project's profile.
    pub fn owner(&self, stage: u32, bin: u32, time: Time) -> u32
        requires stage { stage < self.now.layout.shape.stages }
        requires bin { bin < self.now.layout.shape.bins }
        ensures owner { result ≡ owner_at self.now stage bin time }
        ensures worker { result < self.now.layout.shape.workers }
    {
        self.worker_below(stage, bin, u128::from(time) + 1)
    }

    /// The same just before a time: a record of that time doesn't count yet. Just before time 0 it is the
    /// first owner.
    pub fn before(&self, stage: u32, bin: u32, time: Time) -> u32
        requires stage { stage < self.now.layout.shape.stages }
        requires bin { bin < self.now.layout.shape.bins }
        ensures owner { result ≡ owner_before self.now stage bin time }
        ensures worker { result < self.now.layout.shape.workers }
    {
        self.worker_below(stage, bin, u128::from(time))
    }

    /// The moves among the noted records, by time, stage and bin: each time at which the owner of a bin isn't
    /// the owner just before it. `AllocError`: no memory.
    pub fn moves(&self) -> Result<Vec<Move>, AllocError>
        ensures { IfOk result (λ moves. moves.items ≡ moves_of self.now) }
    {
        let mut moves = self.changes.to_vec()?;
        moves.sort_unstable();
        Ok(moves)
    }

    /// The next move, by time and then by bin, by which a bin of a stage leaves a worker, of those after a
    /// place (a time and a bin); of all where there is none. `None` where none is left. By what was noted.
    pub fn next_leaving(&self, stage: u32, worker: u32, after: Option<TimedBin>) -> Option<Move>
        requires { stage < self.now.layout.shape.stages }
        ensures next { IfSome result (IsNextLeaving self.now stage worker after) }
        ensures none_left { IfNone result (NoneLeaves self.now stage worker after) }
    {
        first_from(&self.changes, stage, worker, after)
    }

    // By the records of times below `limit`. Mostly no record is noted at all.
    fn worker_below(&self, stage: u32, bin: u32, limit: u128) -> u32
        ensures owner { result ≡ owner_before self.now stage bin limit }
        ensures worker { result < self.now.layout.shape.workers }
    {
        let of = self.stage_bin(stage, bin);
        if self.notes.is_empty() {
            return of.first;
        }
        self.noted_below(of, limit)
    }

    // The same where some are noted.
    #[inline(never)]
    fn noted_below(&self, of: StageBin, limit: u128) -> u32
        requires first { of.first ≡ first_owner self.now.layout of.stage of.bin }
        requires worker { of.first < self.now.layout.shape.workers }
        ensures owner { result ≡ owner_before self.now of.stage of.bin limit }
        ensures worker { result < self.now.layout.shape.workers }
    {
        let hint = self
            .hints
            .get(bin_index(self.first.shape(), of.stage, of.bin));
        owner_below(&self.notes, of, limit, hint)
    }

    fn stage_bin(&self, stage: u32, bin: u32) -> StageBin
        ensures is { result ≡ record { stage = stage; bin = bin; first = first_owner self.now.layout stage bin } }
        ensures worker { result.first < self.now.layout.shape.workers }
    {
        StageBin {
            stage,
            bin,
            first: self.first.of(stage, bin),
        }
    }
}

// A hint for each bin of each stage. `AllocError`: no memory.
fn no_hints(alloc: Global, shape: Shape) -> Result<Vec<Cell<Spot>>, AllocError>
    ensures { IfOk result (λ hints. length hints.items ≡ shape.stages * shape.bins) }
{
    let count = bin_index(shape, shape.stages, 0);
    Vec::from_elem(alloc, Cell::new(Spot { block: 0, place: 0 }), count)
}
