//! Pieces of an event file, whose lines are as lines mostly are.
ghost use Rattle.std.specs.Prelude.{◌≡◌, ◌≤◌, ◌+◌, ◌++◌, [], All, IfOk, IsTrue, OnOk, length, min, vec_len};
ghost use Rattle.mp_events.specs.Pieces.{BeginsWithEvents, IsPieceOf};
ghost use Rattle.mp_names.specs.Limits.{most_events};

use crate::usual_line::event_before;
use mp_model::Event;
use mp_names::limits::MAX_EVENTS;
use std::alloc::{AllocError, Global};

/// Events whose lines stand one after the other in an event file.
#[derive(Drop)]
pub struct Piece {
    // Where the first line begins, in bytes from the beginning of the file.
    start: usize,
    // Where the last one ends.
    end: usize,
    events: Vec<Event>,
}

/// The events of the lines of a file from `start` on, as far as these are as lines mostly are, end at `end` or before and are no
/// more than a file may have. Both are in bytes from the beginning of the file. There are none where `start` is behind `end`, and
/// few, if any, where no line begins at `start`. `AllocError`: no memory.
pub fn read_piece(alloc: Global, text: &[u8], start: usize, end: usize) -> Result<Piece, AllocError>
    requires { end ≤ length text.now }
    ensures is_piece { IfOk result (λ piece. IsPieceOf text.now piece) }
    ensures start { IfOk result (λ piece. piece.start ≡ min start end) }
{
    let start = start.min(end);
    let found = events_before(alloc, &text[start..end])?;
    let end = end - found.rest.len();
    Ok(Piece {
        start,
        end,
        events: found.events,
    })
}

/// A place of a file at which a piece may begin: behind the first line feed that stands at `place` or later, or where the file
/// ends.
pub fn line_start_behind(text: &[u8], place: usize) -> usize
    ensures within { result ≤ length text.now }
    ensures behind { place ≤ length text.now → place ≤ result }
{
    let mut at = place;
    'bytes: while at < text.len() {
        at += 1;
        if text[at - 1] == b'\n' {
            return at;
        }
    }
    text.len()
}

/// The first of these pieces as one, as far as each begins where the one before it ends, from the beginning of the file on, and as
/// long as there are not too many events. `AllocError`: no memory.
pub fn join(alloc: Global, text: &[u8], pieces: Vec<Piece>) -> Result<Piece, AllocError>
    requires { All (IsPieceOf text.now) pieces.items }
    ensures is_piece { IfOk result (λ all. IsPieceOf text.now all) }
    ensures start { IfOk result (λ all. all.start ≡ 0) }
{
    let room = room_for(pieces.as_slice());
    let mut all = Piece {
        start: 0,
        end: 0,
        events: Vec::new(alloc),
    };
    'pieces: for piece in pieces {
        if !all.may_take(&piece) {
            break;
        }
        all.take(piece, room)?;
    }
    Ok(all)
}

// How many events pieces have, at most as many as a file may have.
fn room_for(pieces: &[Piece]) -> usize {
    let mut count = 0;
    for piece in pieces {
        count += piece.events.len().min(MAX_EVENTS - count);
    }
    count
}

impl Piece {
    // Whether the next piece begins where this one ends, and both together don't have too many events.
    fn may_take(&self, next: &Piece) -> bool
        ensures begins { IsTrue result → self.now.end ≡ next.now.start }
        ensures few { IsTrue result → length self.now.events.items + length next.now.events.items ≤ most_events }
    {
        self.end == next.start && self.events.len() + next.events.len() <= MAX_EVENTS
    }

    /// Its events, and where the last of their lines ends, in bytes from the beginning of the file.
    pub fn into_parts(self) -> (Vec<Event>, usize)
        ensures { (result.0 ≡ self.events) × (result.1 ≡ self.end) }
    {
        let Piece { end, events, .. } = self;
        (events, end)
    }

    // Adds the events of the next piece, where there is to be room for so many. `AllocError`: no memory.
    fn take(&mut self, next: Piece, room: usize) -> Result<(), AllocError>
        ensures start { OnOk result (self.new.start ≡ self.old.start) }
        ensures end { OnOk result (self.new.end ≡ next.end) }
        ensures events { OnOk result (self.new.events.items ≡ self.old.events.items ++ next.events.items) }
    {
        let Piece {
            end,
            mut events,
            ..
        } = next;
        if self.events.is_empty() {
            events.reserve_exact(room.saturating_sub(events.len()))?;
            self.events = events;
        } else {
            self.events.append(&mut events)?;
        }
        self.end = end;
        Ok(())
    }
}

// The events that a text begins with, and what is behind their lines.
#[derive(Drop)]
struct FoundEvents<'a> {
    events: Vec<Event>,
    rest: &'a [u8],
}

// The events of the lines that a text begins with, as far as these are as lines mostly are. `AllocError`: no memory.
fn events_before<'a>(alloc: Global, text: &'a [u8]) -> Result<FoundEvents<'a>, AllocError>
    ensures begins { IfOk result (λ found. BeginsWithEvents text.now found.events.items found.rest.now) }
    ensures few { IfOk result (λ found. vec_len found.events ≤ most_events) }
{
    let mut events = Vec::new(alloc);
    let mut rest = text;
    'lines: while events.len() < MAX_EVENTS {
        let Some(found) = event_before(alloc, rest)? else {
            break;
        };
        events.push(found.event)?;
        rest = found.rest;
    }
    Ok(FoundEvents { events, rest })
}
