//! How far a worker is.
ghost use Rattle.std.specs.Prelude.{◌≡◌, ◌+◌, ◌-◌, ◌<◌, ◌^◌, ℕ, get_or};
ghost use Rattle.mp_names.specs.Limits.{most_stages};
ghost use Rattle.mp_names.specs.declared.kinds.Kind.{Kind};
ghost use Rattle.mp_standing.specs.Numbers.{IsCounted, done_at};

use mp_names::Kind;
use mp_names::limits::MAX_STAGES;

const STAGES: usize = MAX_STAGES as usize;

/// How many steps of each kind that goes along a list a worker has made; where there are stages, of each of them.
#[derive(Clone, Copy)]
pub struct Done {
    /// Records of its share that are ingested.
    pub ingested: usize,
    /// Control records that are sent.
    pub controls: usize,
    /// Packets that are sent.
    pub packets: [usize; STAGES],
    /// Times that are settled.
    pub times: [usize; STAGES],
    /// Groups that are applied.
    pub groups: [usize; STAGES],
    /// Answer rows that are sent.
    pub rows: usize,
    /// Times of answer rows that are written.
    pub written: usize,
}

impl Done {
    /// Nothing is done.
    pub fn none() -> Done
        ensures { (kind : Kind) → done_at result kind ≡ 0 }
    {
        Done {
            ingested: 0,
            controls: 0,
            packets: [0; STAGES],
            times: [0; STAGES],
            groups: [0; STAGES],
            rows: 0,
            written: 0,
        }
    }

    /// How many steps of a kind are made; 0 of a kind that goes along no list.
    pub fn count(&self, kind: Kind) -> usize
        ensures { result ≡ done_at self.now kind }
    {
        match kind {
            Kind::Ingest => self.ingested,
            Kind::SendControl => self.controls,
            Kind::Extract(stage) => at(&self.packets, stage),
            Kind::Settle(stage) => at(&self.times, stage),
            Kind::Apply(stage) => at(&self.groups, stage),
            Kind::SendRow => self.rows,
            Kind::Write => self.written,
            _ => 0,
        }
    }

    /// One more step of a kind is made.
    pub fn add(&mut self, kind: Kind)
        requires { done_at self.old kind < 2 ^ 64 - 1 }
        ensures more { IsCounted kind → done_at self.new kind ≡ done_at self.old kind + 1 }
        ensures others { (k : Kind) → ¬ (k ≡ kind) → done_at self.new k ≡ done_at self.old k }
    {
        match kind {
            Kind::Ingest => self.ingested += 1,
            Kind::SendControl => self.controls += 1,
            Kind::Extract(stage) => add_at(&mut self.packets, stage),
            Kind::Settle(stage) => add_at(&mut self.times, stage),
            Kind::Apply(stage) => add_at(&mut self.groups, stage),
            Kind::SendRow => self.rows += 1,
            Kind::Write => self.written += 1,
            _ => {}
        }
    }
}

// The number of a stage, 0 of one that there isn't.
fn at(numbers: &[usize; STAGES], stage: u32) -> usize
    ensures { result ≡ get_or numbers.now stage 0 }
{
    match numbers.get(stage as usize) {
        Some(number) => *number,
        None => 0,
    }
}

// The number of a stage rises by one; none, where there is no such stage.
fn add_at(numbers: &mut [usize; STAGES], stage: u32)
    requires { get_or numbers.old stage 0 < 2 ^ 64 - 1 }
    ensures more { stage < most_stages → get_or numbers.new stage 0 ≡ get_or numbers.old stage 0 + 1 }
    ensures others { (j : ℕ) → ¬ (j ≡ stage) → get_or numbers.new j 0 ≡ get_or numbers.old j 0 }
{
    if (stage as usize) < STAGES {
        numbers[stage as usize] += 1;
    }
}
