//! Where a player begins.
ghost use Rattle.std.specs.Prelude.{◌≡◌, [], ℕ, All, IfOk, length, replicate};
ghost use Rattle.mp_names.specs.Logs.{empty_log};
ghost use Rattle.mp_names.specs.Outlines.{OutlineIsSound};
ghost use Rattle.mp_names.specs.declared.locations.Loc.{Loc};
ghost use Rattle.mp_machine.specs.Worlds.{start_of_machine};
ghost use Rattle.mp_player_laws.specs.WorkLeft.{work_left};
ghost use Rattle.mp_chart.specs.Left.{left_in};
ghost use Rattle.mp_player.specs.Shows.{Shows};
ghost use Rattle.mp_audit_player.specs.Starting.{IsAtStart};

use mp_chart::{Chart, LeftCounts};
use mp_player::State;
use mp_stamps::Seen;
use mp_standing::{Done, Held, Mail, Standing};
use std::alloc::{AllocError, Global};

/// What a player keeps of the world in which nothing is done. `AllocError`: no memory.
pub fn start<C: Chart>(alloc: Global, chart: &C) -> Result<State, AllocError>
    requires { OutlineIsSound (C.outline chart.now) }
    ensures { IfOk result (λ state. (depth : ℕ) → Shows (C.outline chart.now) depth state (start_of_machine (C.outline chart.now))) }
{
    let workers = chart.workers();
    let left = all_work(alloc, chart)?;
    let mail = Mail::open(alloc, workers)?;
    let standings = first_standings(alloc, workers, chart.stages(), left.seen(0))?;
    Ok(State {
        standings,
        mail,
        left,
        version: 0,
    })
}

// All work of a job. `AllocError`: no memory.
fn all_work<C: Chart>(alloc: Global, chart: &C) -> Result<LeftCounts, AllocError>
    ensures stages { IfOk result (λ left. left.stages ≡ (C.outline chart.now).stages) }
    ensures left { IfOk result (λ left. (a : Loc) (t : ℕ) → left_in left.counts a t ≡ work_left (C.outline chart.now) (λ w. empty_log) a t) }
{
    let left = LeftCounts::of(alloc, chart.stages(), chart.times(), chart.work())?;
    Ok(left)
}

// Where so many workers stand that have done nothing. `AllocError`: no memory.
fn first_standings(
    alloc: Global,
    workers: u32,
    stages: u32,
    seen: Seen,
) -> Result<Vec<Standing>, AllocError>
    ensures workers { IfOk result (λ standings. length standings.items ≡ workers) }
    ensures each { IfOk result (λ standings. All (IsAtStart workers stages seen) standings.items) }
{
    let mut standings = Vec::new(alloc);
    for _ in 0..workers {
        standings.push(first_standing(alloc, workers, stages, seen)?)?;
    }
    Ok(standings)
}

// Where one stands. `AllocError`: no memory.
fn first_standing(
    alloc: Global,
    workers: u32,
    stages: u32,
    seen: Seen,
) -> Result<Standing, AllocError>
    ensures { IfOk result (λ standing. IsAtStart workers stages seen standing) }
{
    let held = no_records(alloc, workers, stages)?;
    Ok(Standing {
        done: Done::none(),
        held,
        seen,
        since: Vec::new(alloc),
        changed: false,
    })
}

// For each of so many stages no records for so many workers. `AllocError`: no memory.
fn no_records(alloc: Global, workers: u32, stages: u32) -> Result<Vec<Held>, AllocError>
    ensures { IfOk result (λ held. held.items ≡ replicate stages (replicate workers [])) }
{
    let mut held = Vec::new(alloc);
    for _ in 0..stages {
        held.push(Held::none(alloc, workers)?)?;
    }
    Ok(held)
}
