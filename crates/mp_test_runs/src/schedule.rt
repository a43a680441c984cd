//! A known schedule: the steps of a seed, computed from the definition of the schedule by another program.
ghost use Rattle.std.specs.Prelude.{◌≡◌, ◌<◌, false};
ghost use Rattle.mp_job.specs.Runs.{IsRunOf};

use crate::handing::one_move;
use mp_board::Cause;
use mp_drive::{Draws, RunPlan, replay};
use mp_gate::Gate;
use mp_job::Job;
use mp_model::Naming;
use mp_names::Kind;
use mp_outside::MemSink;
use mp_q_auction::Q4;
use std::alloc::{AllocError, Global};
use std::cell::Cell;
use std::marker::Brand;
use std::process::Abort;

const ANSWER: &[u8] = b"100|10|60\n";

const PLAN: RunPlan = RunPlan {
    depth: 64,
    paced: false,
    keeps: true,
};

type Step = (u32, Kind);

// The steps of seed 0 with two workers, one bin and one move of it.
const STEPS: [Step; 42] = [
    (0, Kind::SendControl),
    (0, Kind::Ingest),
    (0, Kind::Exchange),
    (1, Kind::Ingest),
    (0, Kind::SendControl),
    (1, Kind::Exchange),
    (0, Kind::Exchange),
    (1, Kind::Route(0)),
    (1, Kind::Receive(0)),
    (1, Kind::Exchange),
    (0, Kind::Route(0)),
    (0, Kind::Receive(0)),
    (0, Kind::Receive(0)),
    (0, Kind::Exchange),
    (0, Kind::Receive(1)),
    (0, Kind::Apply(0)),
    (1, Kind::Exchange),
    (0, Kind::Exchange),
    (1, Kind::Settle(0)),
    (1, Kind::Exchange),
    (0, Kind::Exchange),
    (0, Kind::Apply(0)),
    (0, Kind::Exchange),
    (1, Kind::Exchange),
    (0, Kind::Extract(0)),
    (0, Kind::Settle(0)),
    (0, Kind::Exchange),
    (1, Kind::Receive(0)),
    (1, Kind::Exchange),
    (1, Kind::Apply(0)),
    (0, Kind::Exchange),
    (1, Kind::Route(1)),
    (1, Kind::Exchange),
    (0, Kind::Receive(1)),
    (0, Kind::Exchange),
    (1, Kind::Exchange),
    (0, Kind::Apply(1)),
    (0, Kind::SendRow),
    (0, Kind::Receive(0)),
    (0, Kind::Exchange),
    (1, Kind::Exchange),
    (0, Kind::Write),
];

// The kinds of step of a job of two workers and two stages, in the order in which they are tried.
const KINDS: [Kind; 15] = [
    Kind::Ingest,
    Kind::SendControl,
    Kind::Route(0),
    Kind::Route(1),
    Kind::Receive(0),
    Kind::Receive(1),
    Kind::Extract(0),
    Kind::Extract(1),
    Kind::Settle(0),
    Kind::Settle(1),
    Kind::Apply(0),
    Kind::Apply(1),
    Kind::SendRow,
    Kind::Write,
    Kind::Exchange,
];

const PLACES: u64 = 30;

// The place of a number: those of worker 0, and then those of worker 1.
fn place_at(number: u64) -> Step {
    let place = number % PLACES;
    if place < 15 {
        (0, KINDS[place as usize])
    } else {
        (1, KINDS[(place - 15) as usize])
    }
}

// The places that the draws of seed 0 try: each from its own upward, until that of the step which it picks.
fn places_tried(alloc: Global) -> Result<Vec<Step>, AllocError> {
    let mut draws = Draws::of(0);
    let mut tried = Vec::new(alloc);
    for step in &STEPS {
        try_places(draws.draw() % PLACES, *step, &mut tried)?;
    }
    Ok(tried)
}

fn try_places(start: u64, step: Step, tried: &mut Vec<Step>) -> Result<(), AllocError>
    requires { start < PLACES }
{
    for more in 0..PLACES {
        let place = place_at(start + more);
        tried.push(place)?;
        if place == step {
            return Ok(());
        }
    }
    Ok(())
}

// A gate that compares what it is passed for with a list of steps.
#[derive(Drop)]
struct ListedGate {
    steps: Vec<Step>,
    passes: Cell<u64>,
    wrong: Cell<u64>,
}

impl Gate for ListedGate {
    fn pass(&self, worker: u32, kind: Kind) {
        let passes = self.passes.get();
        if self.steps.get(passes as usize) != Some(&(worker, kind)) {
            self.wrong.set(self.wrong.get().saturating_add(1));
        }
        self.passes.set(passes.saturating_add(1));
    }
}

// A gate that waits for these steps.
fn listed(alloc: Global) -> Result<ListedGate, AllocError> {
    Ok(ListedGate {
        steps: places_tried(alloc)?,
        passes: Cell::new(0),
        wrong: Cell::new(0),
    })
}

// Each of the steps was passed for, in order, and no other.
fn all_passed(rt: &impl Abort, gate: &ListedGate) {
    assert!(rt; gate.wrong.get() == 0);
    assert!(rt; gate.passes.get() == gate.steps.len() as u64);
}

// The schedule tries what it should, and makes as many steps.
fn seed_makes_the_steps<J: Naming>(
    rt: &impl Abort,
    alloc: Global,
    job: &Job<Q4>,
    gate: &ListedGate,
    sink: &mut MemSink,
) -> Result<(), Cause>
    requires job { IsRunOf job.now J.job }
    requires pace { J.job.paced ≡ false }
{
    let made = replay::<Q4, J, _, _>(alloc, job, PLAN, 0, gate, sink)?;
    assert!(rt; made == 42);
    assert!(rt; sink.bytes() == ANSWER);
    Ok(())
}

#[test]
fn the_schedule_of_seed_0(rt: HostRuntime) -> Result<(), Cause> {
    let job = one_move(rt.alloc())?;
    let gate = listed(rt.alloc())?;
    let mut sink = MemSink::new(rt.alloc());
    seed_makes_the_steps::<Brand>(&rt, rt.alloc(), &job, &gate, &mut sink)?;
    all_passed(&rt, &gate);
    Ok(())
}
