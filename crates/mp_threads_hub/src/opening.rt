//! The ways of all workers to a new board.
ghost use Rattle.std.specs.Prelude.{◌≡◌, ◌<◌, All, IfOk, length};
ghost use Rattle.std.specs.Arc.{arc_value};
ghost use Rattle.mp_seat.specs.Seats.{IsIdle};
ghost use Rattle.mp_threads_hub.specs.Hubs.{AreNewHubs, AreOfOneLock, shared_version};

use crate::hub::SeatHub;
use crate::shared::Shared;
use mp_board::{Board, Outlined};
use mp_seat::{Seat, SeatLock};
use std::alloc::{AllocError, Global};
use std::sync::Arc;

/// Puts the board under a lock, and makes the way of each worker to it, by the workers' numbers. `AllocError`: no memory.
pub fn open_hubs<O: Outlined>(
    alloc: Global,
    board: Board<O>,
    workers: u32,
) -> Result<Vec<SeatHub<O>>, AllocError>
    requires some { 0 < workers }
    requires logs { length board.logs ≡ workers }
    ensures many { IfOk result (λ hubs. length hubs.items ≡ workers) }
    ensures new { IfOk result (λ hubs. AreNewHubs board.logs (shared_version board) hubs.items) }
    ensures one_lock { IfOk result (λ hubs. AreOfOneLock hubs.items) }
{
    let shared = Shared::new(alloc, board)?;
    let (lock, seats) = SeatLock::open(alloc, shared, workers)?;
    let lock = Arc::new(alloc, lock)?;
    seat_hubs(alloc, &lock, seats)
}

// The way through each seat.
fn seat_hubs<O: Outlined>(
    alloc: Global,
    lock: &Arc<SeatLock<Shared<O>>, Global>,
    seats: Vec<Seat<Shared<O>>>,
) -> Result<Vec<SeatHub<O>>, AllocError>
    requires { All (IsIdle (arc_value lock.now)) seats.items }
    ensures { IfOk result (λ hubs. hubs.items ≡ seats.items) }
{
    let mut hubs = Vec::with_capacity(alloc, seats.len())?;
    for seat in seats {
        hubs.push_reserved(SeatHub::new(Arc::try_clone(lock)?, seat));
    }
    Ok(hubs)
}
