//! The lock.
ghost use Rattle.std.specs.Prelude.{◌≡◌, ◌<◌, ◌≤◌, [], length, map, Some, slice_get, IfOk, IfSome, IfNone, vec_capacity, ◌+◌};
ghost use Rattle.mp_seat.specs.Seats.{IsIdle, AreAll, AreInOrder, AreNew, HasOthers, HaveRows, ChangesOwnRow, holding, resting, new_seat, latest_version};
ghost use Rattle.mp_seat.specs.Seated.{HasRest};

use crate::rows::Rows;
use crate::rule::{FirstRow, LockRule, Puts, RowsBefore, Takes};
use crate::seat::{Inner, Seat};
use crate::view::SeatView;
use atomic_table::Table;
use crossbeam_utils::Backoff;
use std::alloc::{AllocError, Global};
use std::marker::Model;
use std::snapshot::Snapshot;
use std::sync::Wait;

/// A lock round one value. A seat takes the value out and puts it back, in which only the seat's own row
/// may differ and the version doesn't go back. Contracts see which lock it is, and how many seats it has.
#[derive(Drop)]
pub struct SeatLock<T: Rows> {
    table: Table<Option<T>, SeatView<T::Row>, Snapshot<T>, LockRule, Global>,
}

impl<T: Rows> Model for SeatLock<T> {
    ghost use Rattle.std.specs.Prelude.{length};
    ghost use Rattle.mp_seat.specs.Seats.{LockIdentity};
    ghost use Rattle.mp_seat.specs.Seated.{LockIsSound};

    ghost Value = { LockIdentity };

    ghost view = { λ l. record { id = l.table.shared.table_id; seats = length (T.rows l.table.shared.key.value) } };

    ghost invariant = { λ l. LockIsSound l.table.shared.table_id (length (T.rows l.table.shared.key.value)) };
}

impl<T: Rows> SeatLock<T> {
    /// The lock round the value, and a seat for each of its rows: the seat at place k has row k.
    /// `AllocError`: no memory.
    pub fn open(
        alloc: Global,
        value: T,
        seats: u32,
    ) -> Result<(SeatLock<T>, Vec<Seat<T>>), AllocError>
    where
        T: Drop,
        requires rows { length (T.rows value) ≡ seats }
        requires some { 0 < seats }
        ensures lock { IfOk result (λ r. r.0.seats ≡ seats) }
        ensures many { IfOk result (λ r. length r.1.items ≡ seats) }
        ensures seats { IfOk result (λ r. AreNew r.0 (T.rows value) (T.version value) r.1.items) }
    {
        let list = Vec::with_capacity(alloc, seats as usize)?;
        let mut slots = Vec::with_capacity(alloc, 1)?;
        let opened = Snapshot::of(&value);
        slots.push_reserved(Some(value));
        let Ok((table, all)) = Table::new(alloc, &[0], slots, &opened) else {
            return Err(AllocError);
        };
        let lock = SeatLock { table };
        let list = lock.deal_all(&opened, all, list, seats);
        Ok((lock, list))
    }

    // Gives a seat to each row. `all` owns all of them.
    fn deal_all(
        &self,
        opened: &Snapshot<T>,
        mut all: Inner<T>,
        mut list: Vec<Seat<T>>,
        seats: u32,
    ) -> Vec<Seat<T>>
        requires room { (seats ≤ vec_capacity list) × (list.items ≡ []) }
        requires seats { (length (T.rows opened.now.value) ≡ seats) × (self.now.seats ≡ seats) × (0 < seats) }
        requires all { HasRest self.now (T.rows opened.now.value) (T.version opened.now.value) 0 all }
        ensures many { length result.items ≡ seats }
        ensures new { AreNew self.now (T.rows opened.now.value) (T.version opened.now.value) result.items }
    {
        for number in 0..seats - 1 {
            let next = self.deal(opened, &mut all, number);
            list.push_reserved(next);
        }
        list.push_reserved(Seat {
            inner: all,
            number: seats - 1,
        });
        list
    }

    // Gives the first row that is left to a seat of its own, which has this number.
    fn deal(&self, opened: &Snapshot<T>, rest: &mut Inner<T>, number: u32) -> Seat<T>
        requires number { rest.old.me.0.first ≡ number }
        requires rest { HasRest self.now (T.rows opened.now.value) (T.version opened.now.value) rest.old.me.0.first rest.old }
        requires more { rest.old.me.0.first < length (T.rows opened.now.value) }
        ensures rest { HasRest self.now (T.rows opened.now.value) (T.version opened.now.value) (rest.old.me.0.first + 1) rest.new }
        ensures new { result ≡ new_seat self.now (T.rows opened.now.value) (T.version opened.now.value) rest.old.me.0.first }
    {
        let _ = opened;
        Seat {
            inner: self.table.shared.split_seat::<FirstRow>(rest),
            number,
        }
    }

    /// Takes the value, if no other seat holds it. `None` says for sure only that there is another seat.
    pub fn try_take(&self, seat: &mut Seat<T>) -> Option<T>
        requires { IsIdle self.now seat.old }

        ensures some { IfSome result (λ value. seat.new ≡ holding seat.old (T.rows value) (T.version value)) }
        ensures row { IfSome result (λ value. slice_get (T.rows value) seat.old.number ≡ seat.old.row) }
        ensures many { IfSome result (λ value. length (T.rows value) ≡ seat.old.seats) }
        ensures version { IfSome result (λ value. seat.old.version ≤ T.version value) }

        ensures none { IfNone result (seat.new ≡ seat.old) }
        ensures other { IfNone result (HasOthers seat.old) }
    {
        let found = self
            .table
            .shared
            .compare_exchange::<Takes>(&mut seat.inner, 0, 0, 1);
        if found == 0 {
            self.table.shared.exchange(&mut seat.inner, 0, None)
        } else {
            None
        }
    }

    /// Takes the value, and waits while another seat holds it.
    pub fn take<R: Wait>(&self, rt: &R, seat: &mut Seat<T>) -> T
        requires { IsIdle self.now seat.old }

        ensures seat { seat.new ≡ holding seat.old (T.rows result) (T.version result) }
        ensures row { slice_get (T.rows result) seat.old.number ≡ seat.old.row }
        ensures many { length (T.rows result) ≡ seat.old.seats }
        ensures version { seat.old.version ≤ T.version result }
    {
        let backoff = Backoff::new();
        for _ in rt.forever() {
            if let Some(value) = self.try_take(seat) {
                return value;
            }
            backoff.snooze();
        }
        unreachable!()
    }

    /// Puts the value back. Only the seat's own row may differ from what it took.
    pub fn put(&self, seat: &mut Seat<T>, value: T)
        requires seat { seat.old.lock ≡ self.now.id }
        requires row { ChangesOwnRow seat.old (T.rows value) }
        requires version { seat.old.version ≤ T.version value }

        ensures { seat.new ≡ resting seat.old (T.rows value) (T.version value) }
    {
        let before = self.table.shared.exchange(&mut seat.inner, 0, Some(value));
        let None = before else { unreachable!() };
        self.table.shared.store::<Puts>(&mut seat.inner, 0, 0);
    }

    /// Gives the value as it was put last, for all seats of the lock, in any order.
    pub fn close(self, mut seats: Vec<Seat<T>>) -> T
        requires seats { AreAll self seats.items }

        ensures many { length (T.rows result) ≡ self.seats }
        ensures rows { HaveRows (T.rows result) seats.items }
        ensures version { T.version result ≡ latest_version seats.items }
    {
        seats.sort_unstable_by_key(|seat| seat.number());
        self.close_in_order(seats)
    }

    // The same, for all seats in the order of their numbers.
    fn close_in_order(self, mut seats: Vec<Seat<T>>) -> T
        requires seats { AreInOrder self seats.items }
        requires all { length seats.items ≡ self.seats }

        ensures rows { map (λ row. Some row) (T.rows result) ≡ map (λ seat. seat.row) seats.items }
        ensures version { T.version result ≡ latest_version seats.items }
    {
        let SeatLock { table } = self;
        let Some(last) = seats.pop() else {
            unreachable!()
        };
        let mut all = last.into_inner();
        while let Some(seat) = seats.pop() {
            table
                .shared
                .join_seat::<RowsBefore>(&mut all, seat.into_inner());
        }
        let mut closed = table.close_with(all);
        let Some(value) = closed.take(0) else {
            unreachable!()
        };
        closed.free();
        value
    }
}
