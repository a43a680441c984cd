//! The states of bins in hand, with what finds them.
ghost use Rattle.std.specs.Prelude.{◌≡◌, ◌≤◌, ◌<◌, ◌+◌, ◌-◌, ◌++◌, ◌∷◌, [], All, Some, suc, IfOk, IsSome, OnErr, OnOk, length, position, slice_index_or, true};
ghost use Rattle.mp_bins.specs.Bins.{IsBinCount, bin_of_key};
ghost use Rattle.mp_postdated.specs.Wakes.{Has};
ghost use Rattle.mp_host_laws.specs.Applying.{FirstIsChanged};
ghost use Rattle.mp_host_laws.specs.Hosted.{first_wake_of, is_held_before};
ghost use Rattle.mp_host_places.specs.Spans.{without};
ghost use Rattle.mp_host_states.specs.States.{StateIsStepped, cell_for, has_own_wake_beside, state_for};

use crate::stepping::{most_of_state, step_state};
use mp_bins::bin_of;
use mp_host_laws::Held;
use mp_host_places::{
    Firsts, Spans, firsts_of, has_wake, place_before, renew, renew_where, spans_of,
};
use mp_host_steps::{changes_wakes, take_out};
use mp_model::{Group, Query, Time, Value};
use std::alloc::{AllocError, Global};
use std::marker::Model;

/// The states of bins that a host has in hand. Contracts see `States`.
pub struct InHand<C: Drop> {
    bins: u32,
    // Each as the packet that brought it left it and the groups applied since.
    held: Vec<Held<C>>,
    // Where those of each bin stand.
    spans: Spans,
    // The first wake of those of each bin. Kept, since each look at what is ready asks the first of all.
    firsts: Firsts,
}

// By hand, so that crates above call it and don't write out the drop of each field.
impl<C: Drop> Drop for InHand<C> {
    fn drop(self) {
        let InHand {
            bins: _,
            held: _,
            spans: _,
            firsts: _,
        } = self;
    }
}

impl<C: Drop> Model for InHand<C> {
    ghost use Rattle.std.specs.Prelude.{◌-◌, length};
    ghost use Rattle.std.specs.Vec.{vec_capacity};
    ghost use Rattle.mp_host_states.specs.States.{AreFound, States};

    ghost Value = { States C };

    ghost view = { λ s. record { bins = s.bins; held = s.held.items; room = vec_capacity s.held - length s.held.items } };

    ghost invariant = { λ s. AreFound s.bins s.spans s.firsts s.held.items };
}

impl<C: Drop> InHand<C> {
    /// These states, of bins below `bins`, which is a power of two from 1 to 4096. Takes n log n comparisons of n bins where
    /// each has one state. `AllocError`: no memory.
    pub fn new(alloc: Global, bins: u32, held: Vec<Held<C>>) -> Result<InHand<C>, AllocError>
        requires bins { IsBinCount bins }
        requires inside { All (λ s. s.bin < bins) held.items }
        ensures bins { IfOk result (λ s. s.bins ≡ bins) }
        ensures held { IfOk result (λ s. s.held ≡ held.items) }
    {
        let spans = spans_of(alloc, bins, &held)?;
        let firsts = firsts_of(alloc, bins, &held, &spans)?;
        Ok(InHand {
            bins,
            held,
            spans,
            firsts,
        })
    }

    /// They themselves.
    pub fn as_slice(&self) -> &[Held<C>]
        ensures { result.now ≡ self.now.held }
    {
        &self.held
    }

    /// They themselves, by value.
    pub fn into_states(self) -> Vec<Held<C>>
        ensures { result.items ≡ self.held }
    {
        let InHand {
            bins: _,
            held,
            spans: _,
            firsts: _,
        } = self;
        held
    }

    /// Makes room for one more. `AllocError`: no memory, and nothing is in hand that wasn't.
    pub fn make_room(&mut self) -> Result<(), AllocError>
        ensures room { OnOk result (1 ≤ self.new.room) }
        ensures same { self.new ≡ record self.old { room = self.new.room } }
        ensures no_less { self.old.room ≤ self.new.room }
    {
        self.held.reserve(1)
    }

    /// Takes out the state at a place, which the last one takes. Takes no memory, and leaves room to put it back.
    pub fn take(&mut self, at: usize) -> Held<C>
        requires { at < length self.old.held }
        ensures taken { result ≡ slice_index_or self.old.held at result }
        ensures left { self.new ≡ record self.old { held = without at self.old.held; room = self.old.room + 1 } }
    {
        let last = self.held.len() - 1;
        let moved = self.held[last].bin;
        let one = take_out(&mut self.held, at);
        self.spans.fill(at, one.bin, last, moved);
        renew(&mut self.firsts, &self.held, &self.spans, one.bin);
        one
    }

    /// Takes a state in hand, behind the others. There is room for it. Takes no memory.
    pub fn hold(&mut self, one: Held<C>)
        requires room { 1 ≤ self.old.room }
        requires bin { one.bin < self.old.bins }
        ensures { self.new ≡ record self.old { held = self.old.held ++ one ∷ []; room = self.old.room - 1 } }
    {
        let bin = one.bin;
        self.spans.widen(bin, self.held.len());
        self.held.push_reserved(one);
        renew(&mut self.firsts, &self.held, &self.spans, bin);
    }

    /// The first wake of all, by time and then by key.
    pub fn first_wake(&self) -> Option<(Time, u64)>
        ensures { result ≡ first_wake_of self.now.held }
    {
        self.firsts.first()
    }

    /// Whether a state of a key's bin that stands in front of place `from`, or from place `to` on, has the wake of the key
    /// at a time.
    pub fn has_wake_beside(&self, from: usize, to: usize, time: Time, key: u64) -> bool
        requires from { from ≤ to }
        requires to { to ≤ length self.now.held }
        ensures { result ≡ has_own_wake_beside self.now from to time key }
    {
        let bin = bin_of(key, self.bins);
        let span = self.spans.of(bin);
        has_wake(&self.held[..from], span, bin, time, key)
            || has_wake(&self.held[to..], span.behind(to), bin, time, key)
    }

    /// Where the first state of a bin stands that began before a time.
    pub fn place_before(&self, bin: u32, time: u128) -> Option<usize>
        ensures { result ≡ position (is_held_before bin time) self.now.held }
    {
        place_before(&self.held, self.spans.of(bin), bin, time)
    }

    // Where the state stands that a group finds: the first of its key's bin that began by its time.
    fn place_of(&self, group: &Group) -> usize
        requires { IsSome (state_for self.now group.now.time group.now.key) }
        ensures { position (is_held_before (bin_of_key group.now.key self.now.bins) (suc group.now.time)) self.now.held ≡ Some result }
    {
        let bin = bin_of(group.key(), self.bins);
        let Some(at) = self.place_before(bin, u128::from(group.time()) + 1) else {
            unreachable!()
        };
        at
    }

    /// Sorts the wakes of the first state of a bin that began before a time, if there is one, so that they are counted
    /// faster. `AllocError`: no memory. The states are as they were either way.
    pub fn sort_wakes(&mut self, bin: u32, time: Time) -> Result<(), AllocError>
        ensures { self.new ≡ self.old }
    {
        let Some(at) = self.place_before(bin, u128::from(time)) else {
            return Ok(());
        };
        let one = &mut self.held[at];
        one.state.wakes.sort()
    }
}

/// Applies a group to the state that it finds, the first of its key's bin that began by its time: the outputs, in order.
/// The group's wake is used up, and the times that its records post are wakes. `AllocError`: no memory, and nothing
/// changes.
pub fn step_group<Q: Query>(
    alloc: Global,
    query: &Q,
    stage: u32,
    states: &mut InHand<Q::Cell>,
    group: &Group,
    posts: &[Time],
) -> Result<Vec<Value>, AllocError>
    requires in_hand { IsSome (state_for states.old group.now.time group.now.key) }
    requires fits { let q = Q.facts (Q.values query.now) in
        q.fits stage (cell_for (q.fresh stage) states.old group.now.time group.now.key) group.now ≡ true }
    requires woken { All (λ s. Has s.state.wakes group.now.time group.now.key → group.now.woken ≡ true) states.old.held }
    ensures stepped { let q = Q.facts (Q.values query.now) in
        OnOk result (FirstIsChanged (is_held_before (bin_of_key group.now.key states.old.bins) (suc group.now.time))
        (StateIsStepped q stage group.now posts.now) states.old.held states.new.held) }
    ensures outputs { let q = Q.facts (Q.values query.now) in
        IfOk result (λ v. v.items ≡ q.gives stage (cell_for (q.fresh stage) states.old group.now.time group.now.key) group.now) }
    ensures same { states.new ≡ record states.old { held = states.new.held } }
    ensures unchanged { OnErr result (states.new ≡ states.old) }
{
    let at = states.place_of(group);
    let one = &mut states.held[at];
    let bin = one.bin;
    let outputs = step_state(alloc, query, stage, &mut one.state, group, posts)?;
    let changes = changes_wakes(group, posts);
    renew_where(
        changes,
        &mut states.firsts,
        &states.held,
        &states.spans,
        bin,
    );
    Ok(outputs)
}

/// No fewer than the outputs that a group will give.
pub fn most_of_group<Q: Query>(
    alloc: Global,
    query: &Q,
    stage: u32,
    states: &InHand<Q::Cell>,
    group: &Group,
) -> u64
    requires in_hand { IsSome (state_for states.now group.now.time group.now.key) }
    requires fits { let q = Q.facts (Q.values query.now) in
        q.fits stage (cell_for (q.fresh stage) states.now group.now.time group.now.key) group.now ≡ true }
    ensures { let q = Q.facts (Q.values query.now) in
        result ≡ q.most stage (cell_for (q.fresh stage) states.now group.now.time group.now.key) group.now }
{
    let at = states.place_of(group);
    most_of_state(alloc, query, stage, &states.held[at].state, group)
}
