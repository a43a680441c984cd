//! How a worker waits for others.
use crossbeam_utils::Backoff;
use std::cell::Cell;
use std::sync::Wait;
use std::thread::Parker;
use std::time::Duration;

// How long the first sleep is, in microseconds.
const SHORTEST: u64 = 20;

// How often a sleep doubles.
const DOUBLINGS: u32 = 4;

/// How a worker waits as long as it can make no step: at first it spins, then it yields its processor, and then it sleeps, each
/// time twice as long as before, up to 320 microseconds. A worker that waits long so takes little of a processor, and seldom
/// holds the board while others need it.
#[derive(Drop)]
pub struct Pause {
    backoff: Backoff,
    parker: Parker,
    // How often it has slept.
    sleeps: Cell<u32>,
}

impl Pause {
    /// Nothing was waited for yet.
    pub fn new() -> Pause {
        Pause {
            backoff: Backoff::new(),
            parker: Parker::new(),
            sleeps: Cell::new(0),
        }
    }

    /// A step was made: the next wait begins as the first one did.
    pub fn reset(&self) {
        self.backoff.reset();
        self.sleeps.set(0);
    }

    /// Waits for a while.
    pub fn take<R: Wait>(&self, rt: &R) {
        if !self.backoff.is_completed() {
            self.backoff.snooze();
            return;
        }
        let sleeps = self.sleeps.get();
        self.parker.park_timeout(rt, sleep_after(sleeps));
        self.sleeps.set(sleeps.saturating_add(1));
    }
}

// How long the sleep is that comes after so many.
fn sleep_after(sleeps: u32) -> Duration {
    Duration::from_micros(SHORTEST << sleeps.min(DOUBLINGS))
}
