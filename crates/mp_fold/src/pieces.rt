//! The lines of an answer, gathered by time.
ghost use Rattle.std.specs.Prelude.{◌≡◌, ◌++◌, [], IfOk, OnOk};
ghost use Rattle.std.specs.List.{flat_map};
ghost use Rattle.mp_model.specs.Answers.{line_of};

use mp_model::{Place, Time, Value};
use mp_row_text::put_line;
use std::alloc::{AllocError, Global};
use std::marker::Model;
use std::mem;

/// Lines in order, those of one time as one piece. Contracts see all their bytes.
#[derive(Drop)]
pub struct Pieces {
    finished: Vec<Vec<u8>>,
    last: Vec<u8>,
    time: Time,
}

impl Model for Pieces {
    ghost use Rattle.std.specs.Prelude.{ℕ, List, ◌++◌};
    ghost use Rattle.std.specs.List.{flat_map};

    ghost Value = { List ℕ };

    ghost view = { λ p. flat_map (λ v. v.items) p.finished.items ++ p.last.items };
}

impl Pieces {
    /// No lines.
    pub fn new(alloc: Global) -> Pieces
        ensures { result ≡ [] }
    {
        Pieces {
            finished: Vec::new(alloc),
            last: Vec::new(alloc),
            time: 0,
        }
    }

    /// Adds the line of a row at the end. `AllocError`: no memory.
    pub fn push_line(&mut self, place: &Place, value: &Value) -> Result<(), AllocError>
        ensures { OnOk result (self.new ≡ self.old ++ line_of (place.now, value.now)) }
    {
        if place.time != self.time {
            self.finish_piece()?;
            self.time = place.time;
        }
        put_line(&mut self.last, place, value)
    }

    /// Ends the piece that is being written, if there is one.
    fn finish_piece(&mut self) -> Result<(), AllocError>
        ensures { OnOk result (self.new ≡ self.old) }
    {
        if self.last.is_empty() {
            return Ok(());
        }
        let next = Vec::new(*self.last.allocator());
        let piece = mem::replace(&mut self.last, next);
        self.finished.push(piece)?;
        Ok(())
    }

    /// The pieces, in order. None is empty. `AllocError`: no memory.
    pub fn finish(self) -> Result<Vec<Vec<u8>>, AllocError>
        ensures { IfOk result (λ v. flat_map (λ p. p.items) v.items ≡ self) }
    {
        let Pieces {
            mut finished,
            last,
            time: _,
        } = self;
        if !last.is_empty() {
            finished.push(last)?;
        }
        Ok(finished)
    }
}
