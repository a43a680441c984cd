//! Numbers of work left.
ghost use Rattle.std.specs.Prelude.{◌≡◌, ◌↔◌, ◌+◌, ◌<◌, ◌≤◌, ◌^◌, ℕ, All, IfOk, IsTrue, length, pos};
ghost use Rattle.std.specs.List.Sorted.{IsStrictlyIncreasing};
ghost use Rattle.mp_names.specs.Frontiers.{HasEnded, IsFrontierOf};
ghost use Rattle.mp_names.specs.Limits.{most_stages};
ghost use Rattle.mp_names.specs.Locations.{IsLocation};
ghost use Rattle.mp_names.specs.Outlines.{IsBeforeStop};
ghost use Rattle.mp_names.specs.declared.locations.Loc.{Loc};
ghost use Rattle.mp_stamps.specs.Counts.{IsCounted, SamePlaces, count_in, low_of};
ghost use Rattle.mp_stamps.specs.Seen.{seen_at};
ghost use Rattle.mp_chart.specs.Left.{AreLeft, HasWork, IsWorkOf, left_in, part_at, work_at};

use crate::work::Work;
use mp_names::{Frontier, Loc, Time};
use mp_stamps::{Counts, Seen};
use std::alloc::{AllocError, Global};
use std::marker::Model;

/// How much work is left at each location and time of a job. Contracts see a `Left`.
#[derive(Drop)]
pub struct LeftCounts {
    stages: u32,
    counts: Counts,
}

impl Model for LeftCounts {
    ghost use Rattle.mp_chart.specs.Left.{Left};

    ghost Value = { Left };

    ghost use Rattle.std.specs.Prelude.{◌≤◌};
    ghost use Rattle.mp_names.specs.Limits.{most_stages};
    ghost use Rattle.mp_chart.specs.Left.{AreLeft};

    ghost view = { λ c. record { stages = c.stages; counts = c.counts } };

    ghost invariant = { λ c. (c.stages ≤ most_stages) × AreLeft c.counts };
}

impl LeftCounts {
    /// All this work, of a job of so many stages, at most `MAX_STAGES`, and with these times, which ascend, each once; the work is
    /// at locations of the job and at these times. `AllocError`: no memory.
    pub fn of(
        alloc: Global,
        stages: u32,
        times: &[Time],
        all: &[Work],
    ) -> Result<LeftCounts, AllocError>
        requires stages { stages ≤ most_stages }
        requires rising { IsStrictlyIncreasing times.now }
        requires there { All (IsWorkOf stages times.now) all.now }
        ensures stages { IfOk result (λ left. left.stages ≡ stages) }
        ensures left { IfOk result (λ left. (a : Loc) (t : ℕ) → left_in left.counts a t ≡ work_at a t all.now) }
    {
        let mut counts = Counts::over(alloc, stages, times)?;
        put_all(&mut counts, all);
        Ok(LeftCounts { stages, counts })
    }

    /// Work is done, and is left no more. What isn't left is passed over.
    pub fn do_all(&mut self, done: &[Work])
        ensures left { HasWork self.old.counts done.now → (a : Loc) (t : ℕ) →
            left_in self.new.counts a t + work_at a t done.now ≡ left_in self.old.counts a t }
        ensures stages { self.new.stages ≡ self.old.stages }
    {
        take_all(&mut self.counts, done);
    }

    /// The frontiers that the work left shows, with a version.
    pub fn seen(&self, version: u64) -> Seen
        ensures version { result.version ≡ version }
        ensures stages { result.stages ≡ self.now.stages }
        ensures frontiers { (at : Loc) → IsLocation self.now.stages at → IsFrontierOf (λ a t. pos (left_in self.now.counts a t)) at (seen_at result at) }
    {
        Seen::of(self.stages, version, &self.counts)
    }

    /// Whether nothing is left, of times before the stop time where there is one.
    pub fn is_done(&self, until: Option<Time>) -> bool
        ensures { IsTrue result ↔ ((a : Loc) (t : ℕ) → IsBeforeStop until t → left_in self.now.counts a t ≡ 0) }
    {
        has_ended(until, self.counts.frontier(Loc::OutMail))
    }
}

// Whether a frontier has come to the end: it is `Done` or, where there is a stop time, has reached it.
fn has_ended(until: Option<Time>, frontier: Frontier) -> bool
    ensures { IsTrue result ↔ HasEnded until frontier }
{
    match (until, frontier) {
        (_, Frontier::Done) => true,
        (Some(stop), Frontier::At(time)) => stop <= time,
        (None, Frontier::At(_)) => false,
    }
}

// Adds all this work to counts that are 0.
fn put_all(counts: &mut Counts, all: &[Work])
    requires zero { (a : Loc) (t : ℕ) → count_in counts.old a t ≡ pos 0 }
    requires kept { (a : Loc) → low_of counts.old a ≡ 0 }
    requires there { All (IsWorkOf counts.old.stages counts.old.times) all.now }
    ensures left { AreLeft counts.new }
    ensures work { (a : Loc) (t : ℕ) → left_in counts.new a t ≡ work_at a t all.now }
{
    for work in all {
        put_on(counts, *work);
    }
}

// Adds work to counts.
fn put_on(counts: &mut Counts, work: Work)
    requires left { AreLeft counts.old }
    requires counted { IsCounted counts.old work.loc work.time }
    requires few { left_in counts.old work.loc work.time < 2 ^ 99 }
    ensures left { AreLeft counts.new }
    ensures work { (a : Loc) (t : ℕ) → left_in counts.new a t ≡ left_in counts.old a t + part_at a t work }
    ensures few { (a : Loc) (t : ℕ) → left_in counts.new a t ≤ left_in counts.old a t + 2 ^ 32 }
    ensures same { SamePlaces counts.old counts.new }
{
    counts.add(work.loc, work.time, work.count as i64);
}

// Takes all this work off counts, where they have it. What follows each other at one location and time is taken at once.
fn take_all(counts: &mut Counts, done: &[Work])
    requires left { AreLeft counts.old }
    ensures left { AreLeft counts.new }
    ensures work { HasWork counts.old done.now → (a : Loc) (t : ℕ) →
        left_in counts.new a t + work_at a t done.now ≡ left_in counts.old a t }
{
    let Some(first) = done.first() else {
        return;
    };
    let mut run = Work {
        loc: first.loc,
        time: first.time,
        count: 0,
    };
    for work in done {
        run = go_on(counts, run, *work);
    }
    take_if_left(counts, run);
}

// A run of work with one more. Where that is of another location or time, or the sum doesn't fit, the run is taken off counts, where
// they have it, and the other begins a run.
fn go_on(counts: &mut Counts, run: Work, work: Work) -> Work
    requires left { AreLeft counts.old }
    ensures left { AreLeft counts.new }
    ensures work { run.count ≤ left_in counts.old run.loc run.time → (a : Loc) (t : ℕ) →
        left_in counts.new a t + part_at a t run + part_at a t work ≡ left_in counts.old a t + part_at a t result }
{
    match run.joined(work) {
        Some(longer) => longer,
        None => {
            take_if_left(counts, run);
            work
        }
    }
}

// Takes work off counts, where they have so much.
fn take_if_left(counts: &mut Counts, work: Work)
    requires left { AreLeft counts.old }
    ensures left { AreLeft counts.new }
    ensures work { work.count ≤ left_in counts.old work.loc work.time → (a : Loc) (t : ℕ) →
        left_in counts.new a t + part_at a t work ≡ left_in counts.old a t }
{
    if work.count as i128 <= counts.at(work.loc, work.time) {
        take_off(counts, work);
    }
}

// Takes work off counts, which have so much.
fn take_off(counts: &mut Counts, work: Work)
    requires left { AreLeft counts.old }
    requires enough { work.count ≤ left_in counts.old work.loc work.time }
    ensures left { AreLeft counts.new }
    ensures work { (a : Loc) (t : ℕ) → left_in counts.new a t + part_at a t work ≡ left_in counts.old a t }
{
    counts.add(work.loc, work.time, 0 - work.count as i64);
}
