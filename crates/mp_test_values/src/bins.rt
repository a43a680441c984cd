//! Bins of keys, first owners, and a bin that moves there and back, with ample memory.
ghost use Rattle.std.specs.Prelude.{◌≡◌, IfOk};

use mp_bins::{Control, Move, Owners, Shape, bin_of};
use mp_names::First;
use std::alloc::{AllocError, Global};
use std::process::Abort;

const ONE_BIN: Shape = Shape {
    workers: 2,
    bins: 1,
    stages: 1,
};

fn to_worker(worker: u32, time: u64) -> Control
    ensures { result ≡ record { time = time; stage = 0; bin = 0; worker = worker } }
{
    Control {
        time,
        stage: 0,
        bin: 0,
        worker,
    }
}

const MOVES: [Move; 2] = [
    Move {
        time: 10,
        stage: 0,
        bin: 0,
        from: 0,
        to: 1,
    },
    Move {
        time: 20,
        stage: 0,
        bin: 0,
        from: 1,
        to: 0,
    },
];

#[test]
fn bins_of_small_keys(rt: HostRuntime) {
    for (key, bin) in [(0, 0), (1, 2), (2, 0), (3, 3), (4, 1), (5, 0)] {
        assert!(rt; bin_of(key, 4) == bin);
    }
}

#[test]
fn many_bins(rt: HostRuntime) {
    for (key, bin) in [(1, 2531), (2, 966)] {
        assert!(rt; bin_of(key, 4096) == bin);
    }
}

// The bin goes to worker 1 at 10, and back at 20.
fn there_and_back(alloc: Global) -> Result<Owners, AllocError>
    ensures { IfOk result (λ owners. owners.layout.shape ≡ ONE_BIN) }
{
    let mut owners = Owners::new(alloc, ONE_BIN)?;
    owners.make_room(2)?;
    owners.note(0, to_worker(1, 10))?;
    owners.note(1, to_worker(0, 20))?;
    Ok(owners)
}

fn owns_in_turn(rt: &impl Abort, owners: &Owners)
    requires { owners.now.layout.shape ≡ ONE_BIN }
{
    for (time, worker) in [(9, 0), (10, 1), (19, 1), (20, 0), (25, 0)] {
        assert!(rt; owners.owner(0, 0, time) == worker);
    }
}

fn moves_are(rt: &impl Abort, owners: &Owners, wanted: &[Move]) -> Result<(), AllocError> {
    let moves = owners.moves()?;
    assert!(rt; moves.as_slice() == wanted);
    Ok(())
}

#[test]
fn bin_moves_there_and_back(rt: HostRuntime) -> Result<(), AllocError> {
    let owners = there_and_back(rt.alloc())?;
    owns_in_turn(&rt, &owners);
    moves_are(&rt, &owners, &MOVES)
}

const TWO_STAGES: Shape = Shape {
    workers: 3,
    bins: 4,
    stages: 2,
};

// Of the second stage alone.
const FIRSTS: [First; 2] = [
    First {
        stage: 1,
        bin: 0,
        worker: 2,
    },
    First {
        stage: 1,
        bin: 3,
        worker: 1,
    },
];

fn of_second_stage(alloc: Global) -> Result<Owners, AllocError>
    ensures { IfOk result (λ owners. owners.layout.shape ≡ TWO_STAGES) }
{
    Owners::with_firsts(alloc, TWO_STAGES, &FIRSTS)
}

// The first stage's owners, and those of bins that no first owner names, are the usual ones.
fn owns_first(rt: &impl Abort, owners: &Owners)
    requires { owners.now.layout.shape ≡ TWO_STAGES }
{
    for (stage, bin, worker) in [(0, 0, 0), (0, 3, 0), (1, 0, 2), (1, 2, 2), (1, 3, 1)] {
        assert!(rt; owners.owner(stage, bin, 7) == worker);
    }
}

#[test]
fn first_owners_of_the_second_stage(rt: HostRuntime) -> Result<(), AllocError> {
    let owners = of_second_stage(rt.alloc())?;
    owns_first(&rt, &owners);
    Ok(())
}
