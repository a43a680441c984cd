//! How many packets are on their way at once, in a run by a seed.
ghost use Rattle.std.specs.Prelude.{◌≡◌, true, false};
ghost use Rattle.mp_job.specs.Runs.{IsRunOf};

use crate::jobs::{job_by, made};
use crate::refused::Refused;
use mp_board::Cause;
use mp_drive::{Draws, Plain};
use mp_job::Job;
use mp_model::Naming;
use mp_names::{Kind, Name, Shape};
use mp_outside::MemSink;
use mp_q_auction::Q4;
use mp_worker::{Turn, kind_at};
use std::alloc::Global;
use std::marker::Brand;

const SHAPE: Shape = Shape {
    workers: 4,
    bins: 32,
    stages: 2,
};

/// The kinds of step of a worker of this shape, `4 * stages + workers + 5`.
const KINDS: u64 = 17;

/// The pairs of a worker and a kind of step.
const PLACES: u64 = 4 * KINDS;

/// Each bin of both stages goes to the next worker, those of stage 0 at even times and those of stage 1 at odd ones.
const PLAN: &[u8] = b"fluid|2500|2|0|1\nfluid|2501|2|1|1\n";

const EVENTS: u32 = 2000;

/// More steps than the run has.
const MOST_STEPS: u32 = 1_000_000;

/// The packets that are on their way, and the most that were at once.
#[derive(Drop)]
struct Packets {
    now: u64,
    most: u64,
}

impl Packets {
    /// After a step of this kind, which answered this.
    fn follow(&mut self, kind: Kind, turn: Turn) {
        if !matches!(turn, Turn::Did(Name::Packet { .. }, _)) {
            return;
        }
        if matches!(kind, Kind::Receive(_)) {
            self.now = self.now.saturating_sub(1);
        } else {
            self.now = self.now.saturating_add(1);
        }
        self.most = self.most.max(self.now);
    }
}

/// The step that the draw of a number picks: of the places upward from its own, the first whose step can be made.
fn pick<J: Naming>(
    plain: &mut Plain<'_, Q4, J>,
    number: u64,
    sink: &mut MemSink,
) -> Result<(Kind, Turn), Cause> {
    for tried in 0..PLACES {
        let place = (number % PLACES + tried) % PLACES;
        let kind = kind_at(SHAPE, place % KINDS);
        let turn = plain.step((place / KINDS) as u32, kind, sink)?;
        if matches!(turn, Turn::Did(..) | Turn::Seen(_)) {
            return Ok((kind, turn));
        }
    }
    Ok((Kind::Exchange, Turn::NotNow))
}

/// The most packets that are on their way at once, by the schedule of this seed.
fn most_packets<J: Naming>(
    alloc: Global,
    plain: &mut Plain<'_, Q4, J>,
    seed: u64,
) -> Result<u64, Cause> {
    let mut draws = Draws::of(seed);
    let mut sink = MemSink::new(alloc);
    let mut packets = Packets { now: 0, most: 0 };
    for _ in 0..MOST_STEPS {
        if plain.is_finished() {
            break;
        }
        let (kind, turn) = pick(plain, draws.draw(), &mut sink)?;
        packets.follow(kind, turn);
    }
    Ok(packets.most)
}

fn most_paced<J: Naming>(alloc: Global, job: &Job<Q4>, seed: u64) -> Result<u64, Cause>
    requires job { IsRunOf job.now J.job }
    requires pace { J.job.paced ≡ true }
{
    let mut plain = Plain::<Q4, J>::open_paced(alloc, job, 64)?;
    most_packets(alloc, &mut plain, seed)
}

fn most_at_once<J: Naming>(alloc: Global, job: &Job<Q4>, seed: u64) -> Result<u64, Cause>
    requires job { IsRunOf job.now J.job }
    requires pace { J.job.paced ≡ false }
{
    let mut plain = Plain::<Q4, J>::open(alloc, job, 64)?;
    most_packets(alloc, &mut plain, seed)
}

// Each move has a time of its own. Paced, one packet at most is on its way; else there is at most one of each stage, since a
// packet counts in its stage until it is taken.
#[test]
fn pacing_keeps_few_packets_on_their_way(rt: HostRuntime) -> Result<(), Refused> {
    let events = made(rt.alloc(), EVENTS, 0)?;
    let job = job_by(rt.alloc(), events, PLAN, SHAPE.workers)?;
    let paced = most_paced::<Brand>(rt.alloc(), &job, 0)?;
    assert!(rt; paced == 1);
    let at_once = most_at_once::<Brand>(rt.alloc(), &job, 0)?;
    assert!(rt; at_once == 2);
    Ok(())
}
