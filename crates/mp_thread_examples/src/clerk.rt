//! A worker that owns a seat and a share of its lock.
ghost use Rattle.std.specs.Prelude.{◌≡◌, ◌+◌, ◌<◌, Some, if◌then◌else◌};
ghost use Rattle.std.specs.Arc.{arc_value};
ghost use Rattle.mp_seat.specs.Seats.{IsIdle};

use crate::counts::Counts;
use mp_seat::{Seat, SeatLock};
use std::alloc::Global;
use std::sync::Arc;

/// It raises the number of its seat, where no other seat holds the numbers.
#[derive(Drop)]
pub struct Clerk {
    lock: Arc<SeatLock<Counts>, Global>,
    seat: Seat<Counts>,
    at: u32,
    number: u64,
    ghost idle: { IsIdle (arc_value lock) seat },
    ghost place: { seat.number ≡ at },
    ghost row: { seat.row ≡ Some number },
}

impl Clerk {
    /// A clerk with this seat, whose number is so much.
    pub fn new(
        lock: Arc<SeatLock<Counts>, Global>,
        seat: Seat<Counts>,
        at: u32,
        number: u64,
    ) -> Clerk
        requires idle { IsIdle (arc_value lock) seat }
        requires place { seat.number ≡ at }
        requires row { seat.row ≡ Some number }
        ensures { result.number ≡ number }
    {
        Clerk {
            lock,
            seat,
            at,
            number,
        }
    }

    /// Raises the number, and says whether it did.
    pub fn turn(&mut self) -> bool
        requires { self.old.number < 1000 }
        ensures { self.new.number ≡ (if result then self.old.number + 1 else self.old.number) }
    {
        let Some(mut counts) = self.lock.try_take(&mut self.seat) else {
            return false;
        };
        counts.raise(self.at, self.number);
        self.lock.put(&mut self.seat, counts);
        self.number += 1;
        true
    }
}
