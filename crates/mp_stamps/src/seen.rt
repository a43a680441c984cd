//! What a worker saw at its last exchange.
ghost use Rattle.std.specs.Prelude.{◌≡◌, ◌≤◌, ℕ, false, get_or};
ghost use Rattle.mp_names.specs.Frontiers.{IsFrontierOf};
ghost use Rattle.mp_names.specs.Limits.{most_stages};
ghost use Rattle.mp_names.specs.declared.locations.Frontier.TheVariants.{Done};
ghost use Rattle.mp_names.specs.declared.locations.Loc.{Loc};
ghost use Rattle.mp_names.specs.Locations.{IsLocation};
ghost use Rattle.mp_stamps.specs.Counts.{count_in};
ghost use Rattle.mp_stamps.specs.Flow.{HasNoMore, origin_of};
ghost use Rattle.mp_stamps.specs.Places.{place_of};
ghost use Rattle.mp_stamps.specs.Seen.{seen_at};

use crate::counts::Counts;
use crate::flow::{earlier, of_stage};
use crate::place::{PLACES, place_of};
use mp_names::{Frontier, Loc};

/// The frontier of each location as it was seen at an exchange, and how many changes of the posted logs
/// came before. It has a fixed size, and takes no memory.
#[derive(Clone, Copy)]
pub struct Seen {
    version: u64,
    stages: u32,
    frontiers: [Frontier; PLACES],
}

impl Seen {
    /// The frontiers that the counts show, of a job of that many stages, at most `MAX_STAGES`.
    pub fn of(stages: u32, version: u64, counts: &Counts) -> Seen
        requires { stages ≤ most_stages }
        ensures version { result.version ≡ version }
        ensures stages { result.stages ≡ stages }
        ensures frontiers { (at : Loc) → IsLocation stages at → IsFrontierOf (count_in counts.now) at (seen_at result at) }
        ensures others { (at : Loc) → ¬ IsLocation stages at → seen_at result at ≡ Done }
    {
        let mut frontiers = [Frontier::Done; PLACES];
        put_frontiers(stages, counts, &mut frontiers);
        Seen {
            version,
            stages,
            frontiers,
        }
    }

    /// Sees this version, and the frontiers that the counts show: they are found anew only where a least time has moved
    /// since those that were seen were shown.
    pub fn follow(&mut self, version: u64, moved: bool, counts: &Counts)
        requires stages { self.old.stages ≤ most_stages }
        requires shown { moved ≡ false → (at : Loc) → IsLocation self.old.stages at →
            IsFrontierOf (count_in counts.now) at (seen_at self.old at) }
        ensures version { self.new.version ≡ version }
        ensures stages { self.new.stages ≡ self.old.stages }
        ensures frontiers { (at : Loc) → IsLocation self.old.stages at →
            IsFrontierOf (count_in counts.now) at (seen_at self.new at) }
        ensures others { (at : Loc) → ¬ IsLocation self.old.stages at → seen_at self.new at ≡ seen_at self.old at }
    {
        self.version = version;
        if moved {
            put_frontiers(self.stages, counts, &mut self.frontiers);
        }
    }

    /// The version of the posted logs: how often one of them had changed.
    pub fn version(&self) -> u64
        ensures { result ≡ self.now.version }
    {
        self.version
    }

    /// How many stages the job has.
    pub fn stages(&self) -> u32
        ensures { result ≡ self.now.stages }
    {
        self.stages
    }

    /// The frontier of a location of the job.
    pub fn frontier(&self, loc: Loc) -> Frontier
        ensures { result ≡ seen_at self.now loc }
    {
        match self.frontiers.get(place_of(loc)) {
            Some(frontier) => *frontier,
            None => Frontier::Done,
        }
    }
}

// Puts the frontiers of the locations of so many stages at their places, in one pass along the dataflow.
fn put_frontiers(stages: u32, counts: &Counts, frontiers: &mut [Frontier; PLACES])
    requires { stages ≤ most_stages }
    ensures frontiers { (at : Loc) → IsLocation stages at →
        IsFrontierOf (count_in counts.now) at (get_or frontiers.new (place_of at) Done) }
    ensures others { (at : Loc) → ¬ IsLocation stages at →
        get_or frontiers.new (place_of at) Done ≡ get_or frontiers.old (place_of at) Done }
{
    let own_ctl_mail = counts.first_time(Loc::CtlMail);
    let ctl = counts.first_time(Loc::Ctl);
    let ctl_mail = earlier(ctl, own_ctl_mail);
    let mut origin = counts.first_time(Loc::Source);
    frontiers[place_of(Loc::Ctl)] = ctl;
    frontiers[place_of(Loc::CtlMail)] = ctl_mail;
    frontiers[place_of(Loc::Source)] = origin;
    for stage in 0..stages {
        let found = of_stage(counts, stage, ctl_mail, origin);
        frontiers[place_of(Loc::Route(stage))] = found.route;
        frontiers[place_of(Loc::Mail(stage))] = found.mail;
        frontiers[place_of(Loc::Move(stage))] = found.moves;
        frontiers[place_of(Loc::State(stage))] = found.state;
        frontiers[place_of(Loc::Host(stage))] = found.host;
        origin = found.host;
    }
    let last = last_origin(counts, stages, ctl_mail, origin);
    let own_out_route = counts.first_time(Loc::OutRoute);
    let own_out_mail = counts.first_time(Loc::OutMail);
    let inputs = earlier(ctl_mail, last);
    let out_route = earlier(inputs, own_out_route);
    let out_mail = earlier(out_route, own_out_mail);
    frontiers[place_of(Loc::OutRoute)] = out_route;
    frontiers[place_of(Loc::OutMail)] = out_mail;
}

// The frontier of what the answer's rows come from, from that of what the records of a stage come from, where the counts may
// have more stages.
fn last_origin(counts: &Counts, stages: u32, ctl_mail: Frontier, origin: Frontier) -> Frontier
    requires ctl_mail { IsFrontierOf (count_in counts.now) Loc.CtlMail ctl_mail }
    requires origin { IsFrontierOf (count_in counts.now) (origin_of stages) origin }
    ensures { (all : ℕ) × HasNoMore counts.now all × IsFrontierOf (count_in counts.now) (origin_of all) result }
{
    let mut last = origin;
    for stage in stages..counts.stages() {
        last = of_stage(counts, stage, ctl_mail, last).host;
    }
    last
}
