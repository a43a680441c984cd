//! Bins that leave and come.
ghost use Rattle.std.specs.Prelude.{◌≡◌, ◌≤◌, ◌+◌, ◌<◌, ◌^◌, ℕ, [], None, All, filter, length, map, not, IfNone, IfOk, IfSome, IsOk, OnOk};
ghost use Rattle.std.specs.Vec.{vec_capacity};
ghost use Rattle.mp_names.specs.Logs.{Log};
ghost use Rattle.mp_model.specs.Ascending.{ascending};
ghost use Rattle.mp_model.specs.Tables.{table_of};
ghost use Rattle.mp_msg.specs.Contents.{IsPacketOf};
ghost use Rattle.mp_host_laws.specs.Hosted.{Hosted, StandsInOrder, state_before};
ghost use Rattle.mp_host_laws.specs.Moving.{AreNumbersOf, IsPutIn, IsTakenOut, brought, not_waiting};
ghost use Rattle.mp_host.specs.Hosts.{MayBeHeld};
ghost use Rattle.mp_host.specs.Moves.{GetsBack, GivesUp, NothingLeaves, TakesPacket};
ghost use Rattle.mp_host.specs.Waiting.{waits_beside};

use crate::Host;
use mp_host_laws::Held;
use mp_host_states::add_one;
use mp_model::{Naming, Query, Time};
use mp_msg::BinState;
use mp_postdated::Wakes;
use std::alloc::{AllocError, Global};

impl<'a, Q: Query, J: Naming> Host<'a, Q, J> {
    /// How many groups of each time wait no longer once the bin's state is taken out: those of its wakes that wait for
    /// nothing else. Times ascend; times without such groups aren't told. Nothing where no state of the bin began before the
    /// time. `AllocError`: no memory.
    pub fn leaving(
        &self,
        alloc: Global,
        bin: u32,
        time: Time,
    ) -> Result<Vec<(Time, u64)>, AllocError>
        ensures told { IfOk result (λ v. (one : Held Q.Cell) (new : Hosted Q.Cell) → IsTakenOut bin time one self.now new
            → AreNumbersOf (not_waiting new one.state) v.items) }
        ensures none { IfOk result (λ v. state_before self.now bin time ≡ None → v.items ≡ []) }
        ensures few { IfOk result (λ v. All (λ n. n.1 < 2 ^ 63) v.items) }
        ensures denotes { StandsInOrder (table_of Q.facts J.job) J.job self.now }
    {
        let _ = &self.job;
        let mut numbers = Vec::new(alloc);
        let Some(at) = self.states.place_before(bin, u128::from(time)) else {
            return Ok(numbers);
        };
        let one = &self.states.as_slice()[at];
        self.count_waiting(&one.state.wakes, at, at + 1, &mut numbers)?;
        Ok(numbers)
    }

    /// Sorts the wakes of the bin's state that is in hand just before a time, if there is one, so that `leaving` here and
    /// `coming` where the bin goes count them faster. `AllocError`: no memory. The host is as it was either way.
    pub fn sort_wakes(&mut self, bin: u32, time: Time) -> Result<(), AllocError>
        ensures { self.new ≡ self.old }
    {
        self.states.sort_wakes(bin, time)
    }

    /// Takes out the bin's state that is in hand just before a time: the first here that began before it; `None` exactly where
    /// there is none, and then nothing changes. Takes no memory, and leaves room to put it back.
    pub fn take_bin(&mut self, bin: u32, time: Time) -> Option<Held<Q::Cell>>
        ensures taken { IfSome result (λ one. IsTakenOut bin time one self.old self.new) }
        ensures fits { IfSome result (MayBeHeld (table_of Q.facts J.job) J.job self.old.stage) }
        ensures rooms { IfSome result (λ _. (self.new.room ≡ self.old.room) × (self.new.room_for_bins ≡ self.old.room_for_bins + 1)) }
        ensures none { IfNone result ((state_before self.old bin time ≡ None) × (self.new ≡ self.old)) }
        ensures held { IfSome result (λ one. (log : Log) → GivesUp (table_of Q.facts J.job) J.job log bin time one self.old self.new) }
        ensures here { IfNone result ((log : Log) → NothingLeaves (table_of Q.facts J.job) J.job log self.old bin time) }
    {
        let at = self.states.place_before(bin, u128::from(time))?;
        Some(self.states.take(at))
    }

    /// Puts a state that was taken out back in hand. There is room for it. Takes no memory.
    pub fn put_back(&mut self, one: Held<Q::Cell>)
        requires room { 1 ≤ self.old.room_for_bins }
        requires fits { MayBeHeld (table_of Q.facts J.job) J.job self.old.stage one }
        ensures put { IsPutIn one self.old self.new }
        ensures held { (before : Hosted Q.Cell) (log : Log) (bin time : ℕ) → GetsBack (table_of Q.facts J.job) J.job log bin time one before self.old self.new }
    {
        self.hold(one);
    }

    /// How many groups of each time begin to wait once the state is installed: those of its wakes that don't wait already.
    /// Times ascend; times without such groups aren't told. The list is empty and has room for a number for each time that the
    /// state has a wake at. Takes no memory.
    pub fn coming(&self, state: &BinState<Q::Cell>, numbers: &mut Vec<(Time, u64)>)
        requires empty { numbers.old.items ≡ [] }
        requires room { length (ascending (map (λ w. w.0) state.now.wakes)) ≤ vec_capacity numbers.old }
        ensures told { AreNumbersOf (not_waiting self.now state.now) numbers.new.items }
        ensures few { All (λ n. n.1 < 2 ^ 63) numbers.new.items }
        ensures denotes { StandsInOrder (table_of Q.facts J.job) J.job self.now }
    {
        let _ = &self.states;
        let _ = self.count_waiting(&state.wakes, 0, 0, numbers);
    }

    /// Takes the state that a packet brings in hand. There is room for it (`make_room`). Takes no memory.
    pub fn install(&mut self, bin: u32, time: Time, state: BinState<Q::Cell>)
        requires room { 1 ≤ self.old.room_for_bins }
        requires state { IsPacketOf (table_of Q.facts J.job) J.job self.old.stage bin time state }
        ensures put { IsPutIn (brought bin time state) self.old self.new }
        ensures held { (log : Log) → TakesPacket (table_of Q.facts J.job) J.job log bin time state self.old self.new }
    {
        let _ = &self.job;
        self.hold(Held {
            bin,
            since: Some(time),
            state,
        });
    }

    // Takes a state in hand, behind the others.
    fn hold(&mut self, one: Held<Q::Cell>)
        requires room { 1 ≤ self.old.room_for_bins }
        requires fits { MayBeHeld (table_of Q.facts J.job) J.job self.old.stage one }
        ensures { IsPutIn one self.old self.new }
    {
        self.states.hold(one);
    }

    // How many of the wakes there are of each time whose groups wait neither by a record here nor by a wake of a state that
    // stands in front of place `from`, or from place `to` on. Times ascend. `AllocError`: no memory, never where there is
    // room for a number for each time that has a wake.
    fn count_waiting(
        &self,
        wakes: &Wakes,
        from: usize,
        to: usize,
        numbers: &mut Vec<(Time, u64)>,
    ) -> Result<(), AllocError>
        requires from { from ≤ to }
        requires to { to ≤ length self.now.held }
        requires empty { numbers.old.items ≡ [] }
        ensures told { OnOk result (AreNumbersOf (filter (λ w. not (waits_beside self.now from to w.0 w.1)) wakes.now.wakes) numbers.new.items) }
        ensures few { OnOk result (All (λ n. n.1 < 2 ^ 63) numbers.new.items) }
        ensures never_refused_with_room { length (ascending (map (λ w. w.0) wakes.now.wakes)) ≤ vec_capacity numbers.old → IsOk result }
    {
        for wake in wakes.iter() {
            if !self.waits_beside(from, to, wake.0, wake.1) {
                add_one(numbers, wake.0)?;
            }
        }
        Ok(())
    }

    // Whether the group of a key at a time waits by a record here, or by a wake of a state that stands in front of place
    // `from`, or from place `to` on.
    fn waits_beside(&self, from: usize, to: usize, time: Time, key: u64) -> bool
        requires from { from ≤ to }
        requires to { to ≤ length self.now.held }
        ensures { result ≡ waits_beside self.now from to time key }
    {
        self.has_record(time, key) || self.is_woken_beside(from, to, time, key)
    }
}
