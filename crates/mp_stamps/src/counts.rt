//! Counts by location and time.
ghost use Rattle.std.specs.Prelude.{◌≡◌, ◌<◌, ◌≤◌, ◌^◌, ℕ, max, pos, ◌+ℤ◌, Contains, IfOk, OnOk, FitsSigned, List, length, true, false};
ghost use Rattle.std.specs.Int.{w128};
ghost use Rattle.std.specs.List.Sorted.{IsStrictlyIncreasing};
ghost use Rattle.mp_names.specs.Frontiers.{IsFrontierOf};
ghost use Rattle.mp_names.specs.Limits.{most_stages};
ghost use Rattle.mp_names.specs.Locations.{IsLocation};
ghost use Rattle.mp_names.specs.declared.locations.Frontier.{Frontier};
ghost use Rattle.mp_names.specs.declared.locations.Loc.{Loc};
ghost use Rattle.mp_stamps.specs.Counts.{AreZeroRows, IsCounted, IsFirstFor, SamePlaces, count_in, low_of, piece_start};
ghost use Rattle.mp_stamps.specs.Flow.{IsFirstTime, KeepsFrontiers};
ghost use Rattle.mp_stamps.specs.Places.{places_of};

use crate::hints::Hints;
use crate::least::follow_first;
use crate::near::index_of;
use crate::piece::PIECE;
use crate::pieces::{has_no_piece_below, pieces_below};
use crate::place::{PLACES, loc_at, place_of};
use crate::reaching::reaches;
use crate::row::Row;
use mp_names::{Frontier, Loc, Time};
use std::alloc::{AllocError, Global};
use std::marker::Model;

/// How much work is outstanding at each location and time, as in Naiad's progress tracking: one number for each location of
/// a job and each of a list of times. A count may be negative: what is taken may be known before it is known to be sent.
/// Contracts see a `CountTable`.
#[derive(Drop)]
pub struct Counts {
    stages: u32,
    // Ascending, each once.
    times: Vec<Time>,
    // By the places of locations, and in each by time.
    rows: Vec<Row>,
    // By the places of locations: the least time with a count other than 0.
    firsts: [Frontier; PLACES],
    hints: Hints,
}

impl Model for Counts {
    ghost use Rattle.mp_stamps.specs.Counts.{CountTable};

    ghost Value = { CountTable };

    ghost use Rattle.mp_stamps.specs.Counts.{IsTable, table_of_rows};
    ghost use Rattle.mp_stamps.specs.Flow.{AreFirstTimes};

    ghost view = { λ c. table_of_rows c.stages c.times.items c.rows.items };

    ghost invariant = { λ c.
        IsTable (table_of_rows c.stages c.times.items c.rows.items)
        × AreFirstTimes (table_of_rows c.stages c.times.items c.rows.items) c.firsts };
}

impl Counts {
    /// Counts of the locations of a job of so many stages at these times, all of them 0. The times ascend, each once; there
    /// are at most `MAX_STAGES` stages. `AllocError`: no memory.
    pub fn over(alloc: Global, stages: u32, times: &[Time]) -> Result<Counts, AllocError>
        requires stages { stages ≤ most_stages }
        requires rising { IsStrictlyIncreasing times.now }
        ensures none { IfOk result (λ counts. (at : Loc) (t : ℕ) → count_in counts at t ≡ pos 0) }
        ensures stages { IfOk result (λ counts. counts.stages ≡ stages) }
        ensures times { IfOk result (λ counts. counts.times ≡ times.now) }
        ensures kept { IfOk result (λ counts. (at : Loc) → low_of counts at ≡ 0) }
    {
        let mut own = Vec::with_capacity(alloc, times.len())?;
        own.extend_from_slice(times)?;
        let rows = zero_rows(alloc, 5 * stages + 5, times.len())?;
        Ok(Counts {
            stages,
            times: own,
            rows,
            firsts: [Frontier::Done; PLACES],
            hints: Hints::new(),
        })
    }

    /// Adds to the count of a location at a time, and gives whether another time is now the least there with a count other
    /// than 0; where it isn't, all frontiers stay. What is added where no count is kept is dropped: at a location that the
    /// job hasn't, a time that isn't in the list, or one whose counts were given back. The sum fits an `i128`. Takes no
    /// memory.
    pub fn add(&mut self, loc: Loc, time: Time, by: i64) -> bool
        requires { IsCounted self.old loc time → FitsSigned w128 (count_in self.old loc time +ℤ by) }
        ensures counted { IsCounted self.old loc time → count_in self.new loc time ≡ count_in self.old loc time +ℤ by }
        ensures dropped { ¬ IsCounted self.old loc time → count_in self.new loc time ≡ count_in self.old loc time }
        ensures others { (at : Loc) (t : ℕ) → ¬ ((at ≡ loc) × (t ≡ time)) → count_in self.new at t ≡ count_in self.old at t }
        ensures same { SamePlaces self.old self.new }
        ensures still { result ≡ false → KeepsFrontiers self.old self.new }
        ensures moved { result ≡ true → (f : Frontier) →
            IsFirstTime (count_in self.old loc) f → ¬ IsFirstTime (count_in self.new loc) f }
    {
        let place = place_of(loc);
        if place >= self.rows.len() {
            return false;
        }
        let hint = self.hints.near(time);
        let near = self.rows[place].near();
        let Ok(index) = index_of(&self.times, hint, near, time) else {
            return false;
        };
        if index / PIECE < self.rows[place].given() {
            return false;
        }
        let moved = self.rows[place].add(index, by);
        self.hints.note(time, index);
        follow_first(
            &mut self.firsts[place],
            &self.times,
            &self.rows[place],
            moved,
        )
    }

    /// Gives back the pieces of the counts of a location whose times are all below one, before which no count there is
    /// other than 0. Takes no memory.
    pub fn drop_below(&mut self, loc: Loc, time: Time)
        requires none { (t : ℕ) → t < time → count_in self.old loc t ≡ pos 0 }
        ensures counts { (at : Loc) (t : ℕ) → count_in self.new at t ≡ count_in self.old at t }
        ensures given_back { IsLocation self.old.stages loc →
            low_of self.new loc ≡ max (low_of self.old loc) (piece_start self.old.times time) }
        ensures kept { (t : ℕ) → time ≤ t → IsCounted self.old loc t → IsCounted self.new loc t }
        ensures others { (at : Loc) → ¬ (at ≡ loc) → low_of self.new at ≡ low_of self.old at }
        ensures same { (self.new.stages ≡ self.old.stages) × (self.new.times ≡ self.old.times) }
        ensures frontiers { KeepsFrontiers self.old self.new }
    {
        let place = place_of(loc);
        if place >= self.rows.len() {
            return;
        }
        if has_no_piece_below(&self.times, self.rows[place].given(), time) {
            return;
        }
        let count = pieces_below(&self.times, time);
        self.rows[place].give_back(count);
    }

    /// The count of a location at a time, 0 where none is kept.
    pub fn at(&self, loc: Loc, time: Time) -> i128
        ensures { result ≡ count_in self.now loc time }
    {
        let place = place_of(loc);
        if place >= self.rows.len() {
            return 0;
        }
        let hint = self.hints.near(time);
        let near = self.rows[place].near();
        match index_of(&self.times, hint, near, time) {
            Ok(index) => self.rows[place].at(index),
            Err(_) => 0,
        }
    }

    /// The frontier of a location: the least time with a count other than 0 at a location that could
    /// result in something there; `Done` where there is none. As in Naiad's progress protocol.
    pub fn frontier(&self, loc: Loc) -> Frontier
        ensures { IsFrontierOf (count_in self.now) loc result }
    {
        match self.times.get(self.first_open(loc)) {
            Some(time) => Frontier::At(*time),
            None => Frontier::Done,
        }
    }

    /// The least time with a count other than 0 at a location; `Done` where there is none.
    pub(crate) fn first_time(&self, loc: Loc) -> Frontier
        ensures { IsFirstTime (count_in self.now loc) result }
    {
        match self.firsts.get(place_of(loc)) {
            Some(first) => *first,
            None => Frontier::Done,
        }
    }

    /// Of how many stages counts are kept.
    pub(crate) fn stages(&self) -> u32
        ensures few { result ≤ most_stages }
        ensures none_elsewhere { (at : Loc) (t : ℕ) → ¬ IsLocation result at → count_in self.now at t ≡ pos 0 }
    {
        self.stages
    }

    // The index of the least time of work that is outstanding and could result in something at the location, or the
    // number of times.
    fn first_open(&self, loc: Loc) -> usize
        ensures { IsFirstFor self.now loc (places_of self.now.stages) result }
    {
        let mut first = self.times.len();
        for place in 0..5 * self.stages + 5 {
            if reaches(loc_at(place), loc) {
                first = first.min(self.rows[place as usize].first());
            }
        }
        first
    }
}

// Rows of counts that are all 0.
fn zero_rows(alloc: Global, places: u32, times: usize) -> Result<Vec<Row>, AllocError>
    requires { times < 2 ^ 62 }
    ensures { IfOk result (λ rows. AreZeroRows places times rows.items) }
{
    let mut rows = Vec::new(alloc);
    for _ in 0..places {
        rows.push(Row::zeros(alloc, times)?)?;
    }
    Ok(rows)
}
