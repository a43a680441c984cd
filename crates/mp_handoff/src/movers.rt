//! What a worker has to hand off, and what it has settled.
ghost use Rattle.std.specs.Prelude.{◌≡◌, ◌↔◌, ◌≤◌, ◌<◌, ◌+◌, ◌∷◌, ◌++◌, [], ℕ, All, Contains, IfSome, IfNone, IsOk, IsTrue, OnErr, OnOk, false};
ghost use Rattle.mp_names.specs.declared.names.Name.TheVariants.{Ctrl, Packet, Settled};
ghost use Rattle.mp_names.specs.Frontiers.{HasReached};
ghost use Rattle.mp_names.specs.Logs.{Log, empty_log, is_noted, with_sent, with_settled, with_took};
ghost use Rattle.mp_names.specs.Names.{has};
ghost use Rattle.mp_stamps.specs.declared.seen.Seen.{Seen};
ghost use Rattle.mp_bins.specs.Leaving.{bin_at};
ghost use Rattle.mp_bins.specs.Notes.{Notes};
ghost use Rattle.mp_model.specs.Ascending.{placed};
ghost use Rattle.mp_model.specs.Tables.{table_of};
ghost use Rattle.mp_outline.specs.JobOutline.{layout_of, outline_of};
ghost use Rattle.mp_handoff.specs.Due.{MoversMatchLogAndSeen, CanLeave, CanSettle, IsLeastDue, IsMoveAway, LeavesBy, MayLeaveHere, MaySettleHere};
ghost use Rattle.mp_handoff.specs.Keys.{HasKeys, SentHasKeys};
ghost use Rattle.mp_handoff.specs.MoversOf.{IsMoversOf, IsNewControl};

use crate::by_time::{ByTime, UptoTime};
use crate::sent::Sent;
use mp_bins::{Move, Owners};
use mp_model::{Naming, Query, Time};
use mp_names::{Frontier, Loc, TimedBin};
use mp_ordered::OrderedBlocks;
use mp_stamps::{Seen, passed};
use std::alloc::{AllocError, Global};
use std::marker::{Model, PhantomData};

/// What one worker has to hand off of a stage of the job J: the times of control records that it has noted and not
/// settled, and which of the packets that it owes it has sent, with how many keys each. It owes them by time and then by
/// bin, so the last one tells which are sent. Contracts see a `MoversState`.
pub struct Movers<Q: Query, J: Naming> {
    stage: u32,
    worker: u32,
    // Each once.
    unsettled: OrderedBlocks<Time, ByTime>,
    // The last packet that was sent.
    last: Option<TimedBin>,
    // In the order in which they were sent.
    sent: Vec<Sent>,
    of: PhantomData<(Q, J)>,
}

// By hand, so that crates above call it and don't write out the drop of each field.
impl<Q: Query, J: Naming> Drop for Movers<Q, J> {
    fn drop(self) {
        let Movers {
            stage: _,
            worker: _,
            unsettled: _,
            last: _,
            sent: _,
            of: _,
        } = self;
    }
}

impl<Q: Query, J: Naming> Model for Movers<Q, J> {
    ghost use Rattle.std.specs.Prelude.{◌<◌, ◌-◌, All, length};
    ghost use Rattle.std.specs.Vec.{vec_capacity};
    ghost use Rattle.mp_handoff.specs.Keys.{SentHasKeys};
    ghost use Rattle.mp_handoff.specs.MoversState.{MoversState, Rises};
    ghost use Rattle.mp_model.specs.Tables.{table_of};

    ghost Value = { MoversState };

    ghost view = { λ m. record {
      stage = m.stage;
      worker = m.worker;
      unsettled = m.unsettled.items;
      last = m.last;
      room = m.unsettled.room;
      sent = m.sent.items;
      room_for_sent = vec_capacity m.sent - length m.sent.items;
    } };

    ghost invariant = { λ m.
        (m.stage < J.job.shape.stages) × Rises m.unsettled.items × All (SentHasKeys (table_of Q.facts J.job) J.job m.stage) m.sent.items };
}

impl<Q: Query, J: Naming> Movers<Q, J> {
    /// The movers of this stage on this worker, both counted from 0, that have noted and sent nothing.
    pub fn new(alloc: Global, stage: u32, worker: u32) -> Movers<Q, J>
        requires stage { stage < J.job.shape.stages }
        requires worker { worker < J.job.shape.workers }
        ensures stage { result.stage ≡ stage }
        ensures worker { result.worker ≡ worker }
        ensures unsettled { result.unsettled ≡ [] }
        ensures last { result.last ≡ None }
        ensures sent { result.sent ≡ [] }
        ensures held { IsMoversOf (outline_of (table_of Q.facts J.job) J.job) empty_log result }
    {
        Movers {
            stage,
            worker,
            unsettled: OrderedBlocks::new(alloc),
            last: None,
            sent: Vec::new(alloc),
            of: PhantomData,
        }
    }

    /// Makes room: the next `count` calls of `note` then answer `Ok`. `AllocError`: no memory, and nothing changes.
    pub fn make_room(&mut self, count: u64) -> Result<(), AllocError>
        ensures room { OnOk result (count ≤ self.new.room) }
        ensures same { self.new ≡ record self.old { room = self.new.room } }
        ensures held { (log : Log) → let o = outline_of (table_of Q.facts J.job) J.job in
            IsMoversOf o log self.old → IsMoversOf o log self.new }
        ensures unchanged { OnErr result (self.new ≡ self.old) }
    {
        self.unsettled.make_room(count)
    }

    /// Makes room: `sent` may then be called. `AllocError`: no memory, and nothing changes.
    pub fn make_room_for_sent(&mut self) -> Result<(), AllocError>
        ensures room { OnOk result (0 < self.new.room_for_sent) }
        ensures same { self.new ≡ record self.old { room_for_sent = self.new.room_for_sent } }
        ensures held { (log : Log) → let o = outline_of (table_of Q.facts J.job) J.job in
            IsMoversOf o log self.old → IsMoversOf o log self.new }
        ensures unchanged { OnErr result (self.new ≡ self.old) }
    {
        self.sent.reserve(1)
    }

    /// Notes the time of a control record of the stage, as one that isn't settled. A time that is there already changes
    /// nothing. `AllocError`: no memory, never where there is room, and nothing changes.
    pub fn note(&mut self, time: Time) -> Result<(), AllocError>
        ensures noted { OnOk result (self.new.unsettled ≡ placed self.old.unsettled time) }
        ensures same { self.new ≡ record self.old { unsettled = self.new.unsettled; room = self.new.room } }
        ensures there { Contains self.old.unsettled time → self.new ≡ self.old }
        ensures room { OnOk result (self.old.room ≤ self.new.room + 1) }
        ensures unchanged { OnErr result (self.new ≡ self.old) }
        ensures never_refused_with_room { 0 < self.old.room → IsOk result }
        ensures held { OnOk result ((log : Log) (i : ℕ) → let o = outline_of (table_of Q.facts J.job) J.job in
            IsMoversOf o log self.old
            → IsNewControl o log self.old time i
            → IsMoversOf o (with_took log (Ctrl i self.old.worker)) self.new) }
    {
        if self.unsettled(time) {
            return Ok(());
        }
        self.unsettled.insert(time)
    }

    /// Whether a time is noted and not settled.
    pub fn unsettled(&self, time: Time) -> bool
        ensures here { IsTrue result ↔ Contains self.now.unsettled time }
        ensures told { (log : Log) (i : ℕ) → let o = outline_of (table_of Q.facts J.job) J.job in
            IsMoversOf o log self.now
            → IsNewControl o log self.now time i
            → (result ≡ is_noted o log self.now.stage time) × (has log.settled (Settled self.now.stage time) ≡ false) }
    {
        match self.unsettled.last_in_front(&UptoTime { time }) {
            Some(last) => *last == time,
            None => false,
        }
    }

    /// The move of the packet that is to be sent now: the least that is due, by time and then by bin, once the frontier of
    /// the stage's hosts that was seen has come to its time. `None` exactly where there is none. This worker's log says
    /// what the movers hold, and the owners are noted as far as the frontier of control records on their way has passed.
    pub fn due(&self, seen: &Seen, owners: &Owners) -> Option<Move>
        requires { owners.now.layout ≡ layout_of J.job }
        ensures away { IfSome result (λ m. (log : Log) → let o = outline_of (table_of Q.facts J.job) J.job in
            MoversMatchLogAndSeen o log owners.now seen.now self.now → IsMoveAway o self.now.stage self.now.worker m) }
        ensures may_leave { IfSome result (λ m. (log : Log) → let o = outline_of (table_of Q.facts J.job) J.job in
            MoversMatchLogAndSeen o log owners.now seen.now self.now → MayLeaveHere o log seen.now self.now m.bin m.time) }
        ensures none_may { IfNone result ((log : Log) (b t : ℕ) → let o = outline_of (table_of Q.facts J.job) J.job in
            MoversMatchLogAndSeen o log owners.now seen.now self.now → MayLeaveHere o log seen.now self.now b t → ⊥) }
    {
        // No packet leaves before the first time that isn't settled, and to ask for that one costs less.
        let Some(first) = self.unsettled.first() else {
            return None;
        };
        if !self.may_leave(seen, *first) {
            return None;
        }
        self.due_by(seen, owners)
    }

    // The same, by a search of the owners.
    fn due_by(&self, seen: &Seen, owners: &Owners) -> Option<Move>
        requires { owners.now.layout ≡ layout_of J.job }
        ensures away { IfSome result (λ m. (log : Log) → let o = outline_of (table_of Q.facts J.job) J.job in
            MoversMatchLogAndSeen o log owners.now seen.now self.now → IsMoveAway o self.now.stage self.now.worker m) }
        ensures may_leave { IfSome result (λ m. (log : Log) → let o = outline_of (table_of Q.facts J.job) J.job in
            MoversMatchLogAndSeen o log owners.now seen.now self.now → MayLeaveHere o log seen.now self.now m.bin m.time) }
        ensures none_may { IfNone result ((log : Log) (b t : ℕ) → let o = outline_of (table_of Q.facts J.job) J.job in
            MoversMatchLogAndSeen o log owners.now seen.now self.now → MayLeaveHere o log seen.now self.now b t → ⊥) }
    {
        let Some(moved) = owners.next_leaving(self.stage, self.worker, self.last) else {
            return None;
        };
        if !self.may_leave(seen, moved.time) {
            return None;
        }
        Some(moved)
    }

    // Whether by what was seen a packet of this time that is due may leave.
    fn may_leave(&self, seen: &Seen, time: Time) -> bool
        ensures { IsTrue result ↔ CanLeave seen.now self.now time }
    {
        passed(seen.frontier(Loc::CtlMail), time)
            && reached(seen.frontier(Loc::Host(self.stage)), time)
    }

    /// Takes down that the packet of this move is sent, and that the bin then had so many keys. There is room for it. Takes
    /// no memory.
    pub fn sent(&mut self, moved: Move, keys: u64)
        requires room { 0 < self.old.room_for_sent }
        requires keys { HasKeys (table_of Q.facts J.job) J.job self.old.stage moved.bin moved.time keys }
        ensures same { self.new ≡ record self.old {
          last = Some (bin_at moved.time moved.bin);
          sent = self.old.sent ++ record { bin = moved.bin; time = moved.time; keys = keys } ∷ [];
          room_for_sent = self.new.room_for_sent;
        } }
        ensures held { (log : Log) (notes : Notes) (seen : Seen) → let o = outline_of (table_of Q.facts J.job) J.job in
            MoversMatchLogAndSeen o log notes seen self.old
            → IsLeastDue o log seen self.old moved.bin moved.time
            → IsMoversOf o (with_sent log (Packet self.old.stage moved.bin moved.time)) self.new }
    {
        let Move { time, bin, .. } = moved;
        self.last = Some(TimedBin { time, bin });
        self.sent.push_reserved(Sent { bin, time, keys });
    }

    /// Whose bins they hand off: the stage, counted from 0.
    pub fn stage(&self) -> u32
        ensures { result ≡ self.now.stage }
    {
        self.stage
    }

    /// The packets of the stage that the worker has sent, in that order.
    pub fn sent_so_far(&self) -> &[Sent]
        ensures sent { result.now ≡ self.now.sent }
        ensures keys { All (SentHasKeys (table_of Q.facts J.job) J.job self.now.stage) self.now.sent }
    {
        self.sent.as_slice()
    }

    /// Settles the first time that isn't, and gives it: the frontier of control records on their way that was seen has
    /// passed it, and each packet that was to be sent up to then is. `None` exactly where it may not be settled. The
    /// worker's log and the owners are as for `due`. Takes no memory.
    pub fn settle(&mut self, seen: &Seen, owners: &Owners) -> Option<Time>
        requires { owners.now.layout ≡ layout_of J.job }
        ensures first { IfSome result (λ t. self.old.unsettled ≡ t ∷ self.new.unsettled) }
        ensures same { IfSome result (λ t. self.new ≡ record self.old { unsettled = self.new.unsettled; room = self.old.room + 1 }) }
        ensures may_settle { IfSome result (λ t. (log : Log) → let o = outline_of (table_of Q.facts J.job) J.job in
            MoversMatchLogAndSeen o log owners.now seen.now self.old → MaySettleHere o log seen.now self.old t) }
        ensures held { IfSome result (λ t. (log : Log) → let o = outline_of (table_of Q.facts J.job) J.job in
            MoversMatchLogAndSeen o log owners.now seen.now self.old
            → IsMoversOf o (with_settled log (Settled self.old.stage t)) self.new) }
        ensures none_may { IfNone result ((log : Log) (t : ℕ) → let o = outline_of (table_of Q.facts J.job) J.job in
            MoversMatchLogAndSeen o log owners.now seen.now self.old → MaySettleHere o log seen.now self.old t → ⊥) }
        ensures unchanged { IfNone result (self.new ≡ self.old) }
    {
        let Some(time) = self.unsettled.first().copied() else {
            return None;
        };
        if !self.may_settle(seen, owners, time) {
            return None;
        }
        self.unsettled.pop_first()
    }

    // Whether by what was seen and noted a time that is the first one may be settled.
    fn may_settle(&self, seen: &Seen, owners: &Owners, time: Time) -> bool
        requires { owners.now.layout ≡ layout_of J.job }
        ensures { IsTrue result ↔ CanSettle owners.now seen.now self.now time }
    {
        passed(seen.frontier(Loc::CtlMail), time) && !self.leaves_by(owners, time)
    }

    // Whether by what was noted a bin leaves after the last packet, up to this time.
    fn leaves_by(&self, owners: &Owners, time: Time) -> bool
        requires { owners.now.layout ≡ layout_of J.job }
        ensures { IsTrue result ↔ LeavesBy owners.now self.now time }
    {
        match owners.next_leaving(self.stage, self.worker, self.last) {
            Some(moved) => moved.time <= time,
            None => false,
        }
    }
}

// Whether the frontier stands at the time, or has passed it.
fn reached(frontier: Frontier, time: Time) -> bool
    ensures { IsTrue result ↔ HasReached frontier time }
{
    match frontier {
        Frontier::At(next) => time <= next,
        Frontier::Done => true,
    }
}
