//! The board as a value under a lock.
ghost use Rattle.std.specs.Prelude.{◌≡◌, IfOk};

use mp_board::{Board, Outlined};
use mp_seat::Rows;
use std::alloc::{AllocError, Global};
use std::boxed::Box;
use std::marker::Model;

/// The row of a worker on the board: the log that it posted last. No value of it is made.
pub struct PostedRow;

impl Model for PostedRow {
    ghost use Rattle.mp_names.specs.Logs.{Log, empty_log};

    ghost Value = { Log };

    ghost view = { λ _. empty_log };
}

/// A board that lies under a lock. Contracts see the board. As each board does, it has legal logs alone, the counts of these
/// logs, and the frontiers of these counts, whoever had it last. It stands in a box, since each exchange moves it out from
/// under the lock and back.
#[derive(Drop)]
pub struct Shared<O: Outlined> {
    pub(crate) board: Box<Board<O>>,
}

impl<O: Outlined> Model for Shared<O> {
    ghost use Rattle.std.specs.Box.{box_value};
    ghost use Rattle.mp_board.specs.Boards.{Posted};

    ghost Value = { Posted };

    ghost view = { λ s. box_value s.board };
}

impl<O: Outlined> Rows for Shared<O> {
    ghost use Rattle.mp_threads_hub.specs.Hubs.{shared_version};

    type Row = PostedRow;

    ghost rows = { λ b. b.logs };

    // It rises where a worker stops too, since a seat keeps nothing else of what all see.
    ghost version = { shared_version };
}

impl<O: Outlined> Shared<O> {
    /// The board, as it goes under a lock. `AllocError`: no memory.
    pub fn new(alloc: Global, board: Board<O>) -> Result<Shared<O>, AllocError>
        ensures { IfOk result (λ s. s ≡ board) }
    {
        Ok(Shared {
            board: Box::new(alloc, board)?,
        })
    }
}
