//! The way to the board through a seat of its lock.
ghost use Rattle.std.specs.Prelude.{◌≡◌};
ghost use Rattle.std.specs.Arc.{arc_value};
ghost use Rattle.mp_seat.specs.Seats.{IsIdle};
ghost use Rattle.mp_threads_hub.specs.Hubs.{HasLooked, SeesStop};

use crate::shared::Shared;
use mp_board::{Answer, Cause, Hub, HubStop, Outlined};
use mp_rows::Log;
use mp_seat::{Seat, SeatLock};
use std::alloc::Global;
use std::marker::Model;
use std::sync::{Arc, Wait};

/// A share of the lock round the board, and the seat of one worker. It serves that worker alone, and may go to its
/// thread. Contracts see the seat.
pub struct SeatHub<O: Outlined> {
    lock: Arc<SeatLock<Shared<O>>, Global>,
    seat: Seat<Shared<O>>,
}

// By hand, so that crates above call it and don't write out the drop of each field.
impl<O: Outlined> Drop for SeatHub<O> {
    fn drop(self) {
        let SeatHub { lock: _, seat: _ } = self;
    }
}

impl<O: Outlined> Model for SeatHub<O> {
    ghost use Rattle.std.specs.Arc.{arc_value};
    ghost use Rattle.mp_names.specs.Logs.{Log};
    ghost use Rattle.mp_seat.specs.Seats.{IsIdle, SeatState};

    ghost Value = { SeatState Log };

    ghost view = { λ h. h.seat };

    ghost invariant = { λ h. IsIdle (arc_value h.lock) h.seat };
}

impl<O: Outlined> SeatHub<O> {
    /// The way through this seat.
    pub fn new(lock: Arc<SeatLock<Shared<O>>, Global>, seat: Seat<Shared<O>>) -> SeatHub<O>
        requires { IsIdle (arc_value lock) seat }
        ensures { result ≡ seat }
    {
        SeatHub { lock, seat }
    }

    /// Tells why the worker stopped, for the others to stop too. The first cause is kept: this one then stands on the
    /// board, or one that another told before. It waits while another holds the board, posts no log, and takes no memory.
    pub fn stop<R: Wait>(&mut self, rt: &R, cause: Cause)
        ensures looked { HasLooked self.old self.new }
        ensures told { SeesStop self.new }
    {
        let mut shared = self.lock.take(rt, &mut self.seat);
        shared.board.stop(cause);
        self.lock.put(&mut self.seat, shared);
    }

    /// The share of the lock, and the seat.
    pub fn into_parts(self) -> (Arc<SeatLock<Shared<O>>, Global>, Seat<Shared<O>>)
        ensures idle { IsIdle (arc_value result.0) result.1 }
        ensures seat { result.1 ≡ self }
    {
        let SeatHub { lock, seat } = self;
        (lock, seat)
    }
}

/// It is busy where another seat holds the board. The log's changes then stay with the worker.
impl<O: Outlined> Hub<O> for SeatHub<O> {
    ghost use Rattle.mp_seat.specs.Seats.{HasOthers};
    ghost use Rattle.mp_threads_hub.specs.Hubs.{HasLooked, HasPosted, IsSeatOf, SeesCause, SeesNoStop, ShowsBoard, own_row};

    ghost serves = { λ h w. IsSeatOf O.outline h w };

    ghost posted = { λ h w. own_row h };

    ghost version = { λ h. h.version };

    ghost after = { λ h w log k. HasPosted h log k };

    ghost kept = { HasLooked };

    ghost shows = { λ h seen. ShowsBoard O.outline h seen };

    ghost goes_on = { SeesNoStop };

    ghost was_stopped = { λ h cause. SeesCause cause h };

    ghost was_busy = { HasOthers };

    fn exchange(&mut self, worker: u32, log: &mut Log<O>) -> Result<Answer, HubStop> {
        let Some(mut shared) = self.lock.try_take(&mut self.seat) else {
            return Ok(Answer::Busy);
        };
        let answer = Hub::exchange(&mut *shared.board, worker, log);
        self.lock.put(&mut self.seat, shared);
        answer
    }
}
