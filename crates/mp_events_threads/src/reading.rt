//! Reading a whole file.
ghost use Rattle.std.specs.Prelude.{◌≡◌};

use crate::parts::pieces_below;
use mp_events::{EventReading, EventsRefused, read_events, read_events_behind};
use mp_model::Event;
use std::alloc::Global;
use std::thread::Threads;

// Of fewer bytes a piece isn't worth a thread.
const LEAST_PIECE: usize = 65_536;

// So many threads are enough for a file.
const MOST_PIECES: usize = 256;

/// On threads: in as many pieces as there may be threads, but at most 256, and at most one for each 65,536 bytes.
#[derive(Drop)]
pub struct OnThreads<'r, R> {
    rt: &'r R,
    threads: u32,
}

impl<'r, R> OnThreads<'r, R> {
    /// On so many threads at most, with that of the caller. 0 and 1 are the thread of the caller alone.
    pub fn new(rt: &'r R, threads: u32) -> OnThreads<'r, R>
        ensures { result.threads ≡ threads }
    {
        OnThreads { rt, threads }
    }

    // How many pieces a file of so many bytes is read in.
    fn pieces(&self, bytes: usize) -> usize {
        (self.threads as usize)
            .min(MOST_PIECES)
            .min(bytes / LEAST_PIECE)
    }
}

impl<'r, R: Threads> EventReading for OnThreads<'r, R> {
    fn read_events(&self, alloc: Global, text: &[u8]) -> Result<Vec<Event>, EventsRefused> {
        let count = self.pieces(text.len());
        if count <= 1 {
            return read_events(alloc, text);
        }
        let pieces = pieces_below(self.rt, alloc, text, count, count)?;
        read_events_behind(alloc, text, pieces)
    }
}
