//! Which of the records that a router holds go along with its first one.
ghost use Rattle.std.specs.Prelude.{◌≡◌, ◌≤◌, ◌<◌, ◌+◌, ◌⊎◌, ◌++◌, [], All, IfOk, OnErr, drop, false, filter, length, not, take, true, vec_len};
ghost use Rattle.std.specs.Vec.{vec_capacity};
ghost use Rattle.mp_bins.specs.Bins.{IsBinCount};
ghost use Rattle.mp_ordered.specs.InOrder.{IsInOrder, begins};
ghost use Rattle.mp_route.specs.Along.{FirstGoes, IsCount, TakesAlong, along_with, goes_to, going, is_at, staying};
ghost use Rattle.mp_route.specs.Routed.{tag_rank};

use crate::by_tag::ByTag;
use mp_bins::{Owners, bin_of};
use mp_model::{Rec, Time};
use mp_names::limits::MAX_BUNDLE;
use mp_ordered::OrderedBlocks;
use std::alloc::{AllocError, Global};
use std::collections::VecDeque;

/// What records have to share to go along with one: its time, and the owner of its bin then.
#[derive(Clone, Copy, Drop)]
pub struct Along {
    /// Their stage.
    pub stage: u32,
    /// How many bins the keys are cut into.
    pub bins: u32,
    /// Their time.
    pub time: Time,
    /// The worker that they go to.
    pub owner: u32,
}

/// What goes along with a record of a stage, by what is noted.
pub fn along_with(rec: &Rec, stage: u32, owners: &Owners, bins: u32) -> Along
    requires stage { stage < owners.now.layout.shape.stages }
    requires bins { IsBinCount bins × (bins ≡ owners.now.layout.shape.bins) }
    ensures { result ≡ along_with owners.now stage bins rec.now }
{
    let owner = owners.owner(stage, bin_of(rec.key, bins), rec.time);
    Along {
        stage,
        bins,
        time: rec.time,
        owner,
    }
}

// How many of the first records are looked at, and how many of these go.
#[derive(Clone, Copy, Drop)]
struct Count {
    looked: usize,
    chosen: usize,
}

// Whether the bin of a record's key has the owner.
fn goes_to(owners: &Owners, along: Along, rec: &Rec) -> bool
    requires stage { along.stage < owners.now.layout.shape.stages }
    requires bins { IsBinCount along.bins × (along.bins ≡ owners.now.layout.shape.bins) }
    ensures { result ≡ goes_to owners.now along rec.now }
{
    let bin = bin_of(rec.key, along.bins);
    owners.owner(along.stage, bin, along.time) == along.owner
}

// The same, where so many in front of it go. The first one does, so its owner isn't asked for.
fn goes_next(owners: &Owners, along: Along, before: usize, rec: &Rec) -> bool
    requires stage { along.stage < owners.now.layout.shape.stages }
    requires bins { IsBinCount along.bins × (along.bins ≡ owners.now.layout.shape.bins) }
    requires first { before ≡ 0 → goes_to owners.now along rec.now ≡ true }
    ensures { result ≡ goes_to owners.now along rec.now }
{
    before == 0 || goes_to(owners, along, rec)
}

// Counts the first records, as far as they are of the time and no more than travel in one message go. The first one goes.
fn count_along(held: &OrderedBlocks<Rec, ByTag>, owners: &Owners, along: Along) -> Count
    requires first { FirstGoes owners.now along held.now.items }
    requires stage { along.stage < owners.now.layout.shape.stages }
    requires bins { IsBinCount along.bins × (along.bins ≡ owners.now.layout.shape.bins) }
    ensures count { IsCount owners.now along 64 held.now.items result.looked result.chosen }
    ensures in_order { IsInOrder tag_rank held.now.items }
{
    let mut all = Count {
        looked: 0,
        chosen: 0,
    };
    for block in held.as_blocks() {
        let here = count_in(block, owners, along, all.chosen);
        all = Count {
            looked: all.looked + here.looked,
            chosen: here.chosen,
        };
        if here.looked < block.len() {
            return all;
        }
    }
    all
}

// Counts the first records of a block, where so many of earlier ones go. Fewer than all are looked at only where the count
// ends.
fn count_in(block: &VecDeque<Rec>, owners: &Owners, along: Along, before: usize) -> Count
    requires few { before ≤ 64 }
    requires first { before ≡ 0 → FirstGoes owners.now along block.now.items }
    requires stage { along.stage < owners.now.layout.shape.stages }
    requires bins { IsBinCount along.bins × (along.bins ≡ owners.now.layout.shape.bins) }
    ensures inside { result.looked ≤ length block.now.items }
    ensures time { All (λ r. is_at along r ≡ true) (take result.looked block.now.items) }
    ensures chosen { result.chosen ≡ before + length (going owners.now along result.looked block.now.items) }
    ensures few { result.chosen ≤ 64 }
    ensures some { 0 < result.looked → 0 < result.chosen }
    ensures ends { (result.looked ≡ length block.now.items)
        ⊎ ((result.chosen ≡ 64) ⊎ (begins (is_at along) (drop result.looked block.now.items) ≡ false)) }
{
    let mut chosen = before;
    for looked in 0..block.len() {
        let rec = &block[looked];
        if chosen == MAX_BUNDLE || rec.time != along.time {
            return Count { looked, chosen };
        }
        if goes_next(owners, along, chosen, rec) {
            chosen += 1;
        }
    }
    Count {
        looked: block.len(),
        chosen,
    }
}

/// Takes out the first records of the time that go to the owner, as many as travel in one message, into a list that is empty. The
/// first of all does. The others stay, and those that are gone leave their room. `AllocError`: no memory, and nothing changes.
pub fn take_along(
    held: &mut OrderedBlocks<Rec, ByTag>,
    alloc: Global,
    mut gone: Vec<Rec>,
    owners: &Owners,
    along: Along,
) -> Result<Vec<Rec>, AllocError>
    requires first { FirstGoes owners.now along held.old.items }
    requires stage { along.stage < owners.now.layout.shape.stages }
    requires bins { IsBinCount along.bins × (along.bins ≡ owners.now.layout.shape.bins) }
    requires none { gone.items ≡ [] }
    ensures taken { IfOk result (λ v. TakesAlong owners.now along 64 held.old v.items held.new) }
    ensures unchanged { OnErr result (held.new ≡ held.old) }
{
    let count = count_along(held, owners, along);
    gone.reserve_exact(count.chosen)?;
    if count.chosen == count.looked {
        take_all(held, count.looked, &mut gone);
        return Ok(gone);
    }
    let mut kept = Vec::with_capacity(alloc, count.looked - count.chosen)?;
    take_first(held, owners, along, count.looked, &mut gone, &mut kept);
    put_back(held, &mut kept);
    Ok(gone)
}

// Takes out the first so many records, which all go.
fn take_all(held: &mut OrderedBlocks<Rec, ByTag>, count: usize, gone: &mut Vec<Rec>)
    requires inside { count ≤ length held.old.items }
    requires none { gone.old.items ≡ [] }
    requires memory { count ≤ vec_capacity gone.old }
    ensures gone { gone.new.items ≡ take count held.old.items }
    ensures held { held.new.items ≡ drop count held.old.items }
    ensures room { held.new.room ≡ held.old.room + count }
{
    for _taken in 0..count {
        let Some(rec) = held.pop_first() else {
            unreachable!()
        };
        gone.push_reserved(rec);
    }
}

// Takes out the first so many records: those that go, and those that stay.
fn take_first(
    held: &mut OrderedBlocks<Rec, ByTag>,
    owners: &Owners,
    along: Along,
    looked: usize,
    gone: &mut Vec<Rec>,
    kept: &mut Vec<Rec>,
)
    requires stage { along.stage < owners.now.layout.shape.stages }
    requires bins { IsBinCount along.bins × (along.bins ≡ owners.now.layout.shape.bins) }
    requires inside { looked ≤ length held.old.items }
    requires none { (gone.old.items ≡ []) × (kept.old.items ≡ []) }
    requires for_gone { length (going owners.now along looked held.old.items) ≤ vec_capacity gone.old }
    requires for_kept { length (staying owners.now along looked held.old.items) ≤ vec_capacity kept.old }
    ensures gone { gone.new.items ≡ going owners.now along looked held.old.items }
    ensures kept { kept.new.items ≡ staying owners.now along looked held.old.items }
    ensures held { held.new.items ≡ drop looked held.old.items }
    ensures room { held.new.room ≡ held.old.room + looked }
{
    for _taken in 0..looked {
        let Some(rec) = held.pop_first() else {
            unreachable!()
        };
        if goes_to(owners, along, &rec) {
            gone.push_reserved(rec);
        } else {
            kept.push_reserved(rec);
        }
    }
}

// Puts records that stood in front back there.
fn put_back(held: &mut OrderedBlocks<Rec, ByTag>, kept: &mut Vec<Rec>)
    requires order { IsInOrder tag_rank (kept.old.items ++ held.old.items) }
    requires room { length kept.old.items ≤ held.old.room }
    ensures held { held.new.items ≡ kept.old.items ++ held.old.items }
    ensures room { held.old.room ≤ held.new.room + length kept.old.items }
{
    while let Some(rec) = kept.pop() {
        let Ok(()) = held.insert(rec) else {
            unreachable!()
        };
    }
}
