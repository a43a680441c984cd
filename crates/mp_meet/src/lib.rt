//! Layer: tests.
//!
//! A gate at which two workers wait for each other. It shows that two threads ran at one time.
#![tactic(auto)]

ghost use Rattle.std.specs.Prelude.{◌≡◌};

use mp_gate::{Gate, Kind};
use std::sync::atomic::{AtomicBool, Ordering};
use std::thread;

/// A worker of the two, and whether it has come.
#[derive(Drop)]
struct Side {
    worker: u32,
    came: AtomicBool,
}

impl Side {
    /// A worker that hasn't come yet.
    fn of(worker: u32) -> Side
        ensures { result.worker ≡ worker }
    {
        Side {
            worker,
            came: AtomicBool::new(false),
        }
    }
}

/// A gate at which two workers meet, each at its first step of kind Apply. It holds back no other worker, and no other
/// step. Contracts see the two workers and the limit; who has come another thread may change at any time.
#[derive(Drop)]
pub struct Meet {
    first: Side,
    second: Side,
    limit: u32,
    missed: AtomicBool,
}

impl Meet {
    /// A gate at which the workers `a` and `b` meet, and which a worker that waits for the other leaves after `limit`
    /// turns.
    pub fn new(a: u32, b: u32, limit: u32) -> Meet
        ensures { (result.first.worker ≡ a) × (result.second.worker ≡ b) × (result.limit ≡ limit) }
    {
        Meet {
            first: Side::of(a),
            second: Side::of(b),
            limit,
            missed: AtomicBool::new(false),
        }
    }

    /// Whether one of the two came and gave the other up. `false` before anyone came.
    pub fn missed(&self) -> bool {
        self.missed.load(Ordering::SeqCst)
    }

    // A worker comes, and waits for the other, the first time.
    fn come(&self, own: &Side, other: &Side) {
        if own.came.swap(true, Ordering::SeqCst) {
            return;
        }
        for _ in 0..self.limit {
            if other.came.load(Ordering::SeqCst) {
                return;
            }
            thread::yield_now();
        }
        self.missed.store(true, Ordering::SeqCst);
    }
}

impl Gate for Meet {
    fn pass(&self, worker: u32, kind: Kind) {
        if !matches!(kind, Kind::Apply(_)) {
            return;
        }
        if worker == self.first.worker {
            self.come(&self.first, &self.second);
        } else if worker == self.second.worker {
            self.come(&self.second, &self.first);
        }
    }
}
