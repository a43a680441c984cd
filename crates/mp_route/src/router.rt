//! The records that a worker has to send on.
ghost use Rattle.std.specs.Prelude.{◌≡◌, ◌≤◌, ◌<◌, ◌+◌, ◌++◌, ◌∷◌, [], ℕ, All, List, IfSome, IfNone, IsOk, OnErr, OnOk, length};
ghost use Rattle.mp_names.specs.declared.names.Name.{Name};
ghost use Rattle.mp_names.specs.Logs.{Log, LogIsLegal, empty_log};
ghost use Rattle.mp_bins.specs.Bins.{IsBinCount};
ghost use Rattle.mp_ordered.specs.InOrder.{IsInOrder, put_in_order};
ghost use Rattle.mp_outline.specs.JobOutline.{name_of_record, outline_of};
ghost use Rattle.mp_msg.specs.Bundles.{IsBundle, names_in};
ghost use Rattle.mp_msg.specs.Contents.{IsRecordOf};
ghost use Rattle.mp_route.specs.Routed.{IsFree, IsLeastHeld, tag_rank};
ghost use Rattle.mp_route.specs.Sending.{IfNoneSent, IfSent, IsBundleOf};
ghost use Rattle.mp_route.specs.Unsent.{HoldsAllBut, HoldsOneMore, HoldsUnsent, MayGo, OwnersAreKnown, with_all_sent};
ghost use Rattle.mp_model.specs.Tables.{table_of};

use crate::along::{along_with, take_along};
use crate::by_tag::ByTag;
use mp_bins::Owners;
use mp_model::{Naming, Query, Rec};
use mp_msg::Bundle;
use mp_names::{Loc, Name};
use mp_ordered::OrderedBlocks;
use mp_stamps::{Seen, passed};
use std::alloc::{AllocError, Global};
use std::marker::{Model, PhantomData};

// As many bundles as a round of a worker makes.
const MOST_SPARE: usize = 64;

/// The records of a stage of the job J that a worker has and hasn't sent. As in Megaphone, a record is held until the
/// frontier of control records has passed its time: from then on it is known who owns its key. Contracts see a
/// `Routed`.
pub struct Router<Q: Query, J: Naming> {
    stage: u32,
    held: OrderedBlocks<Rec, ByTag>,
    // Lists for the records of the next bundles: a round makes many before it takes one in.
    spare: Vec<Vec<Rec>>,
    of: PhantomData<(Q, J)>,
}

// By hand, so that crates above call it and don't write out the drop of each field.
impl<Q: Query, J: Naming> Drop for Router<Q, J> {
    fn drop(self) {
        let Router {
            stage: _,
            held: _,
            spare: _,
            of: _,
        } = self;
    }
}

impl<Q: Query, J: Naming> Model for Router<Q, J> {
    ghost use Rattle.std.specs.Prelude.{◌<◌, All};
    ghost use Rattle.mp_msg.specs.Contents.{IsRecordOf};
    ghost use Rattle.mp_route.specs.Routed.{Routed};
    ghost use Rattle.mp_model.specs.Tables.{table_of};

    ghost Value = { Routed };

    ghost view = { λ r. record { stage = r.stage; held = r.held.items; room = r.held.room } };

    ghost invariant = { λ r.
        (r.stage < J.job.shape.stages) × All (IsRecordOf (table_of Q.facts J.job) J.job r.stage) r.held.items };
}

impl<Q: Query, J: Naming> Router<Q, J> {
    /// A router of this stage, counted from 0, that holds nothing.
    pub fn new(alloc: Global, stage: u32) -> Router<Q, J>
        requires { stage < J.job.shape.stages }
        ensures stage { result.stage ≡ stage }
        ensures held { result.held ≡ [] }
        ensures unsent { (w : ℕ) → HoldsUnsent (table_of Q.facts J.job) J.job w empty_log result }
    {
        Router {
            stage,
            held: OrderedBlocks::new(alloc),
            spare: Vec::new(alloc),
            of: PhantomData,
        }
    }

    /// Makes room: the next `n` calls of `hold` then answer `Ok`. `AllocError`: no memory, and nothing changes.
    pub fn make_room(&mut self, n: u64) -> Result<(), AllocError>
        ensures room { OnOk result (n ≤ self.new.room) }
        ensures held { self.new.held ≡ self.old.held }
        ensures stage { self.new.stage ≡ self.old.stage }
        ensures unchanged { OnErr result (self.new ≡ self.old) }
    {
        self.held.make_room(n)
    }

    /// Holds a record of the stage, at its place by time and tag. `AllocError`: no memory, never where there is room.
    /// The record is then lost, and the router is as it was.
    pub fn hold(&mut self, rec: Rec) -> Result<(), AllocError>
        requires { IsRecordOf (table_of Q.facts J.job) J.job self.old.stage rec }
        ensures held { OnOk result (self.new.held ≡ put_in_order tag_rank rec self.old.held) }
        ensures stage { self.new.stage ≡ self.old.stage }
        ensures room { OnOk result (self.old.room ≤ self.new.room + 1) }
        ensures unchanged { OnErr result (self.new ≡ self.old) }
        ensures never_refused_with_room { 0 < self.old.room → IsOk result }
        ensures unsent { OnOk result ((w : ℕ) (old new : Log) → let q = table_of Q.facts J.job in
            HoldsUnsent q J.job w old self.old
            → HoldsOneMore q J.job w old new self.old.stage (name_of_record self.old.stage rec)
            → HoldsUnsent q J.job w new self.new) }
        ensures in_turn { OnOk result ((w : ℕ) (log : Log) (rest : List Name) → let q = table_of Q.facts J.job in
            HoldsAllBut q J.job w log (name_of_record self.old.stage rec ∷ rest) self.old
            → HoldsAllBut q J.job w log rest self.new) }
    {
        self.held.insert(rec)
    }

    /// The name of the first record by time and tag, if it is free to go: the frontier of control records on their way
    /// that was seen has passed its time. `None` exactly where nothing is held or the frontier hasn't.
    pub fn next_free(&self, seen: &Seen) -> Option<Name>
        ensures some { IfSome result (λ x. IsFree self.now seen.now x) }
        ensures none { IfNone result ((x : Name) → IsFree self.now seen.now x → ⊥) }
        ensures least { IfSome result (λ x. IsLeastHeld self.now x) }
        ensures in_order { IsInOrder tag_rank self.now.held }
        ensures may_go { IfSome result (λ x. (w : ℕ) (log : Log) → let q = table_of Q.facts J.job in
            HoldsUnsent q J.job w log self.now → MayGo q J.job w log self.now.stage seen.now x) }
        ensures none_may { IfNone result ((w : ℕ) (log : Log) (x : Name) → let q = table_of Q.facts J.job in
            HoldsUnsent q J.job w log self.now → MayGo q J.job w log self.now.stage seen.now x → ⊥) }
    {
        let first = self.held.first()?;
        if !passed(seen.frontier(Loc::CtlMail), first.time) {
            return None;
        }
        Some(Name::Rec {
            stage: self.stage,
            time: first.time,
            key: first.key,
            tag: first.tag,
        })
    }

    /// Gives up the record whose name is `next_free`, and `None` exactly where that is. With it go the held records of its
    /// time whose bin has the same owner, in the order of tags, the first 64 in all. Held records of that time with another
    /// owner are looked at and stay. The bundle leaves its room, so `give_back` takes it back. `AllocError`: no memory, and
    /// nothing changes.
    pub fn send_some(
        &mut self,
        alloc: Global,
        seen: &Seen,
        owners: &Owners,
        bins: u32,
    ) -> Result<Option<Bundle>, AllocError>
        requires bins { IsBinCount bins × (bins ≡ J.job.shape.bins) }
        requires owners { OwnersAreKnown (table_of Q.facts J.job) J.job owners.now seen.now self.old.stage }
        requires held { let q = table_of Q.facts J.job in
            (w : ℕ) × (log : Log) × LogIsLegal (outline_of q J.job) w log × HoldsUnsent q J.job w log self.old }
        ensures content { IfSent result (λ b. IsBundle (table_of Q.facts J.job) J.job b) }
        ensures stage { IfSent result (λ b. b.stage ≡ self.old.stage) }
        ensures may_go { IfSent result (λ b. (w : ℕ) (log : Log) → let q = table_of Q.facts J.job in
            HoldsUnsent q J.job w log self.old
            → (x : Name) × IsBundleOf q J.job w log self.old.stage x b × MayGo q J.job w log self.old.stage seen.now x) }
        ensures all_but { IfSent result (λ b. (w : ℕ) (log : Log) → let q = table_of Q.facts J.job in
            HoldsUnsent q J.job w log self.old → HoldsAllBut q J.job w log (names_in b) self.new) }
        ensures unsent { IfSent result (λ b. (w : ℕ) (log : Log) → let q = table_of Q.facts J.job in
            HoldsUnsent q J.job w log self.old → HoldsUnsent q J.job w (with_all_sent log (names_in b)) self.new) }
        ensures room { IfSent result (λ b. self.old.room + length b.recs ≤ self.new.room) }
        ensures same_stage { self.new.stage ≡ self.old.stage }
        ensures none { IfNoneSent result ((x : Name) → IsFree self.old seen.now x → ⊥) }
        ensures none_may { IfNoneSent result ((w : ℕ) (log : Log) (x : Name) → let q = table_of Q.facts J.job in
            HoldsUnsent q J.job w log self.old → MayGo q J.job w log self.old.stage seen.now x → ⊥) }
        ensures unchanged { IfNoneSent result (self.new ≡ self.old) }
        ensures refused { OnErr result (self.new ≡ self.old) }
    {
        let Some(_name) = self.next_free(seen) else {
            return Ok(None);
        };
        let Some(first) = self.held.first() else {
            unreachable!()
        };
        let along = along_with(first, self.stage, owners, bins);
        let list = empty_list(&mut self.spare, alloc);
        let recs = take_along(&mut self.held, alloc, list, owners, along)?;
        Ok(Some(Bundle::new(self.stage, recs)))
    }

    /// Keeps a list whose records nobody needs any longer for those of a later bundle, where there is room among 64 of them.
    pub fn keep_list(&mut self, list: Vec<Rec>)
        ensures { self.new ≡ self.old }
    {
        if self.spare.len() < MOST_SPARE {
            let _ = self.spare.push(list);
        }
    }

    /// Takes back a bundle that this router gave up, for which it has room. Takes no memory.
    pub fn give_back(&mut self, bundle: Bundle)
        requires content { All (IsRecordOf (table_of Q.facts J.job) J.job self.old.stage) bundle.recs }
        requires stage { bundle.stage ≡ self.old.stage }
        requires room { length bundle.recs ≤ self.old.room }
        ensures in_turn { (w : ℕ) (log : Log) (rest : List Name) → let q = table_of Q.facts J.job in
            HoldsAllBut q J.job w log (names_in bundle ++ rest) self.old → HoldsAllBut q J.job w log rest self.new }
        ensures stage { self.new.stage ≡ self.old.stage }
        ensures room { self.old.room ≤ self.new.room + length bundle.recs }
    {
        let mut recs = bundle.into_recs();
        while let Some(rec) = recs.pop() {
            let Ok(()) = self.hold(rec) else {
                unreachable!()
            };
        }
    }
}

// A list without records: one that is kept, if there is one.
fn empty_list(spare: &mut Vec<Vec<Rec>>, alloc: Global) -> Vec<Rec>
    ensures { result.items ≡ [] }
{
    match spare.pop() {
        Some(mut list) => {
            list.clear();
            list
        }
        None => Vec::new(alloc),
    }
}
