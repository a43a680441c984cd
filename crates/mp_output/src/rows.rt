//! The rows that wait, and how those of a time are written.
ghost use Rattle.std.specs.Prelude.{◌≡◌, ◌≢◌, ◌↔◌, ◌≤◌, ◌<◌, ◌+◌, ℕ, [], false, drop, length, take, All};
ghost use Rattle.std.specs.Prelude.{IfSome, IfNone, IsOk, IsTrue, OnErr, OnOk};
ghost use Rattle.mp_names.specs.declared.locations.Loc.TheVariants.{OutMail};
ghost use Rattle.mp_names.specs.declared.names.Name.TheVariants.{Row as RowName, Written};
ghost use Rattle.mp_names.specs.Frontiers.{HasPassed, IsClosedForOne};
ghost use Rattle.mp_names.specs.Keeping.{IsUnwritten};
ghost use Rattle.mp_names.specs.Logs.{Log, empty_log, with_took};
ghost use Rattle.mp_names.specs.Names.{IsLeast, has};
ghost use Rattle.mp_stamps.specs.Seen.{seen_at};
ghost use Rattle.mp_model.specs.declared.value.Value.TheVariants.{Row};
ghost use Rattle.mp_model.specs.Tables.{table_of};
ghost use Rattle.mp_outside.specs.Fault.{Rose};
ghost use Rattle.mp_outside.specs.Sink.{OnlyAppends, grown};
ghost use Rattle.mp_msg.specs.Below.{outline_of};
ghost use Rattle.mp_ordered.specs.InOrder.{IsInOrder, put_in_order};
ghost use Rattle.mp_msg.specs.Contents.{IsRowOf};
ghost use Rattle.mp_output.specs.declared.refused.OutRefused.TheVariants.{WriteFault};
ghost use Rattle.mp_output.specs.Holding.{AllAreWritten, HoldsUnwritten, WritesNext, answer_at};
ghost use Rattle.mp_output.specs.Unwritten.{IsDue, lines_of, place_rank, rows_at, rows_beside};
ghost use Rattle.mp_output.specs.Wrote.{IfNothing, IfTime};

use crate::lines::put_first;
use crate::place::{ByPlace, OfTime};
use crate::refused::OutRefused;
use mp_model::{Fields, Naming, Output, Query, Time, Value};
use mp_names::{Loc, Tag};
use mp_ordered::OrderedBlocks;
use mp_outside::{Sink, write_piece};
use mp_stamps::{Seen, passed};
use std::alloc::{AllocError, Global};
use std::marker::{Model, PhantomData};

/// What a call of `write_due` wrote.
#[derive(Clone, Copy, PartialEq, Eq)]
pub enum Wrote {
    /// All rows of this time.
    Time(Time),
    /// No row: none was due.
    Nothing,
}

/// The answer rows of the job J of the query Q that worker 0 has received and not written. Contracts see an `Unwritten`:
/// the rows in the order of their places, and how many more there is room for.
pub struct Rows<Q: Query, J: Naming> {
    rows: OrderedBlocks<Output, ByPlace>,
    // The lines that are written next: a list that serves each call.
    lines: Vec<u8>,
    of: PhantomData<(Q, J)>,
}

// By hand, so that crates above call it and don't write out the drop of each field.
impl<Q: Query, J: Naming> Drop for Rows<Q, J> {
    fn drop(self) {
        let Rows {
            rows: _,
            lines: _,
            of: _,
        } = self;
    }
}

impl<Q: Query, J: Naming> Model for Rows<Q, J> {
    ghost use Rattle.std.specs.Prelude.{All, Contains};
    ghost use Rattle.mp_model.specs.Stages.{answer_rows};
    ghost use Rattle.mp_output.specs.Unwritten.{Unwritten};
    ghost use Rattle.mp_model.specs.Tables.{table_of};

    ghost Value = { Unwritten };

    ghost view = { λ r. record { rows = r.rows.items; room = r.rows.room } };

    ghost invariant = { λ r. All (Contains (answer_rows (table_of Q.facts J.job) J.job.events)) r.rows.items };
}

impl<Q: Query, J: Naming> Rows<Q, J> {
    /// No rows.
    pub fn new(alloc: Global) -> Rows<Q, J>
        ensures rows { result.rows ≡ [] }
        ensures held { HoldsUnwritten empty_log result.rows }
    {
        Rows {
            rows: OrderedBlocks::new(alloc),
            lines: Vec::new(alloc),
            of: PhantomData,
        }
    }

    /// Makes room, so that the next `count` calls of `receive` answer `Ok`. `AllocError`: no memory, and nothing
    /// changes.
    pub fn make_room(&mut self, count: u64) -> Result<(), AllocError>
        ensures room { OnOk result (count ≤ self.new.room) }
        ensures rows { self.new.rows ≡ self.old.rows }
        ensures unchanged { OnErr result (self.new ≡ self.old) }
    {
        self.rows.make_room(count)
    }

    /// Whether every row that was received is written.
    pub fn is_empty(&self) -> bool
        ensures rows { IsTrue result ↔ (self.now.rows ≡ []) }
        ensures written { (log : Log) → HoldsUnwritten log self.now.rows → (IsTrue result ↔ AllAreWritten log) }
    {
        self.rows.is_empty()
    }

    /// Takes an answer row of the job to its place. `AllocError`: no memory, never where there is room, and nothing
    /// changes.
    pub fn receive(&mut self, time: Time, tag: Tag, fields: Fields) -> Result<(), AllocError>
        requires { IsRowOf (table_of Q.facts J.job) J.job time tag fields }
        ensures received { OnOk result (self.new.rows
            ≡ put_in_order place_rank (record { time = time; tag = tag; value = Row fields }) self.old.rows) }
        ensures held { OnOk result ((log : Log) → HoldsUnwritten log self.old.rows
            → has log.took (RowName time tag) ≡ false → has log.settled (Written time) ≡ false
            → HoldsUnwritten (with_took log (RowName time tag)) self.new.rows) }
        ensures room { OnOk result (self.old.room ≤ self.new.room + 1) }
        ensures unchanged { OnErr result (self.new ≡ self.old) }
        ensures never_refused_with_room { 0 < self.old.room → IsOk result }
    {
        self.rows.insert(Output {
            time,
            tag,
            value: Value::Row(fields),
        })
    }

    /// Writes the lines of the least time that waits as one piece, once the frontier of rows on their way that was seen
    /// has passed it: no row of that time can come any more, so these are the one-thread answer's lines of that time.
    /// `Time(t)`: the rows of time t are written and gone. `Nothing`: exactly where none is due, and nothing changes.
    /// `WriteFault`: only where the sink's count of faults rose in this call or stands at its last value, 2^64 - 1.
    /// `NoMemory`: an allocation failed. With either the rows stay, and a part of the piece from its front may be written.
    /// Any answer but `WriteFault` leaves that count as it was.
    pub fn write_due<S: Sink>(&mut self, seen: &Seen, sink: &mut S) -> Result<Wrote, OutRefused>
        ensures due { IfTime result (λ t. IsDue (seen_at seen.now OutMail) self.old.rows t) }
        ensures rest { IfTime result (λ t. self.new.rows ≡ rows_beside t self.old.rows) }
        ensures room { IfTime result (λ t. self.old.room ≤ self.new.room) }
        ensures lines { IfTime result (λ t.
            S.written sink.new ≡ grown (S.written sink.old) (lines_of (rows_at t self.old.rows))) }

        ensures none_due { IfNothing result ((t : ℕ) → ¬ IsDue (seen_at seen.now OutMail) self.old.rows t) }
        ensures idle { IfNothing result ((self.new ≡ self.old) × (sink.new ≡ sink.old)) }

        ensures unchanged { OnErr result (self.new ≡ self.old) }
        ensures part { OnErr result ((t k : ℕ) × IsDue (seen_at seen.now OutMail) self.old.rows t
            × (k ≤ length (lines_of (rows_at t self.old.rows)))
            × (S.written sink.new ≡ grown (S.written sink.old) (take k (lines_of (rows_at t self.old.rows))))) }
        ensures part_of_answer { OnErr result ((log : Log) (t : ℕ) → let q = table_of Q.facts J.job in
            HoldsUnwritten log self.old.rows → IsDue (seen_at seen.now OutMail) self.old.rows t
            → IsLeast (IsUnwritten log) (Written t) × (IsClosedForOne (outline_of q J.job) 0 log OutMail t
            → lines_of (rows_at t self.old.rows) ≡ answer_at q J.job.events t)) }
        ensures failed { result ≡ Err WriteFault → Rose (S.faults sink.old) (S.faults sink.new) }
        ensures no_fault { result ≢ Err WriteFault → S.faults sink.new ≡ S.faults sink.old }
        ensures appends_only { OnlyAppends S.frame S.faults sink.old sink.new }

        ensures next { IfTime result (λ t. (log : Log) → HoldsUnwritten log self.old.rows
            → WritesNext log t self.new.rows) }
        ensures none_passed { IfNothing result ((log : Log) (t : ℕ) → HoldsUnwritten log self.old.rows
            → IsLeast (IsUnwritten log) (Written t) → ¬ HasPassed (seen_at seen.now OutMail) t) }
        ensures answer { IfTime result (λ t. (log : Log) → let q = table_of Q.facts J.job in
            HoldsUnwritten log self.old.rows → IsClosedForOne (outline_of q J.job) 0 log OutMail t
            → lines_of (rows_at t self.old.rows) ≡ answer_at q J.job.events t) }
    {
        let Some(time) = self.due(seen) else {
            return Ok(Wrote::Nothing);
        };
        let count = self.count_at(time);
        put_first(&mut self.lines, &self.rows, count)?;
        write_piece(sink, self.lines.as_slice())?;
        self.rows.drop_first(count);
        Ok(Wrote::Time(time))
    }

    // The least time that waits, if the frontier has passed it.
    fn due(&self, seen: &Seen) -> Option<Time>
        ensures some { IfSome result (IsDue (seen_at seen.now OutMail) self.now.rows) }
        ensures none { IfNone result ((t : ℕ) → ¬ IsDue (seen_at seen.now OutMail) self.now.rows t) }
        ensures least { IfSome result (λ t. All (λ row. t ≤ row.time) self.now.rows) }
        ensures in_order { IsInOrder place_rank self.now.rows }
    {
        let first = self.rows.first()?;
        passed(seen.frontier(Loc::OutMail), first.time).then_some(first.time)
    }

    // How many rows have the least time: they stand in front of all others.
    fn count_at(&self, time: Time) -> usize
        requires { All (λ row. time ≤ row.time) self.now.rows }
        ensures rows { take result self.now.rows ≡ rows_at time self.now.rows }
        ensures count { result ≤ length self.now.rows }
        ensures rest { drop result self.now.rows ≡ rows_beside time self.now.rows }
    {
        let _ = self.rows.first();
        self.rows.count_in_front(&OfTime { time })
    }
}
