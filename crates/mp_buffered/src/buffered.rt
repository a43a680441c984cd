// A sink in front of another one, with a buffer between.
ghost use Rattle.std.specs.Prelude.{◌≡◌, ◌≤◌, ◌<◌, ◌^◌, ℕ, [], length, take, true, vec_len, OnErr, OnOk, IfOk};
ghost use Rattle.mp_outside.specs.Fault.{HasCause};
ghost use Rattle.mp_outside.specs.Sink.{OnlyAppends, grown};

use mp_outside::{Fault, Sink};
use std::alloc::{AllocError, Global};

// How many bytes wait at most.
const ROOM: usize = 65_536;

// How many bytes go straight on before the first one waits: a short text reaches the other sink piece by piece.
const STRAIGHT: usize = 4_096;

/// The room for what waits, 64 KiB, to be lent to a `Buffered`. `AllocError`: no memory.
pub fn room(alloc: Global) -> Result<Vec<u8>, AllocError>
    ensures { IfOk result (λ v. v.items ≡ []) }
{
    Vec::with_capacity(alloc, ROOM)
}

/// A sink in front of another one: what is written waits, and is handed on where a piece no longer fits, or by `flush`. The
/// first pieces, of 4 KiB in all, go straight on, and so does a piece that is longer than the whole room. Its count is that of
/// the other. What waits when it is dropped is lost.
#[derive(Drop)]
pub struct Buffered<'a, S> {
    sink: &'a mut S,
    gathered: &'a mut Vec<u8>,
    handed: usize,
    // How many bytes are still to go straight on.
    straight: usize,
    ghost within: { handed ≤ vec_len gathered.now },
}

impl<'a, S: Sink> Buffered<'a, S> {
    ghost use Rattle.mp_buffered.specs.Waiting.{waiting};

    /// Nothing waits at first: what the room held is let go.
    pub fn new(sink: &'a mut S, room: &'a mut Vec<u8>) -> Buffered<'a, S>
        ensures same_reference { result.sink.ghost_name ≡ sink.entry.ghost_name }
        ensures sink { result.sink.now ≡ sink.old }
        ensures none_waits { waiting result ≡ [] }
    {
        room.clear();
        Buffered {
            sink,
            gathered: room,
            handed: 0,
            straight: STRAIGHT,
        }
    }

    /// Hands on what waits, by as many writes as it takes. At `Err`, which is that of the write that failed, a part from the
    /// front may have been handed on, and the rest waits.
    pub fn flush(&mut self) -> Result<(), Fault>
        ensures whole { OnOk result (S.written self.new.sink.now ≡ grown (S.written self.old.sink.now) (waiting self.old)) }
        ensures none_waits { OnOk result (waiting self.new ≡ []) }
        ensures part { OnErr result ((k : ℕ)
            × (S.written self.new.sink.now ≡ grown (S.written self.old.sink.now) (take k (waiting self.old)))) }
        ensures same_written { grown (S.written self.new.sink.now) (waiting self.new)
            ≡ grown (S.written self.old.sink.now) (waiting self.old) }

        ensures same_reference { self.new.sink.ghost_name ≡ self.old.sink.ghost_name }
        ensures appends_only { OnlyAppends S.frame S.faults self.old.sink.now self.new.sink.now }
        ensures cause { HasCause (S.faults self.old.sink.now) (S.faults self.new.sink.now) result }
    {
        while self.handed < self.gathered.len() {
            self.handed += self.sink.write(&self.gathered[self.handed..])?;
        }
        self.gathered.clear();
        self.handed = 0;
        Ok(())
    }

    // Hands on what waits where so many more bytes wouldn't fit beside it.
    fn make_room(&mut self, more: usize) -> Result<(), Fault>
        requires { more < 2 ^ 63 }
        ensures none_waits { OnOk result (65536 < more → waiting self.new ≡ []) }
        ensures same_written { grown (S.written self.new.sink.now) (waiting self.new)
            ≡ grown (S.written self.old.sink.now) (waiting self.old) }

        ensures same_reference { self.new.sink.ghost_name ≡ self.old.sink.ghost_name }
        ensures appends_only { OnlyAppends S.frame S.faults self.old.sink.now self.new.sink.now }
        ensures cause { HasCause (S.faults self.old.sink.now) (S.faults self.new.sink.now) result }
    {
        if self.gathered.len() + more > ROOM {
            return self.flush();
        }
        Ok(())
    }

    // Whether the next piece goes straight on.
    fn goes_straight(&self) -> bool
        ensures { result ≡ true → waiting self.now ≡ [] }
    {
        self.straight > 0 && self.gathered.is_empty()
    }

    // Writes a part of the piece straight on, and answers its length. Nothing waits.
    fn hand_on(&mut self, piece: &[u8]) -> Result<usize, Fault>
        requires none_waits { waiting self.old ≡ [] }
        ensures within { IfOk result (λ n. n ≤ length piece.now) }
        ensures some { IfOk result (λ n. 0 < length piece.now → 0 < n) }
        ensures grew { IfOk result (λ n. grown (S.written self.new.sink.now) (waiting self.new)
            ≡ grown (grown (S.written self.old.sink.now) (waiting self.old)) (take n piece.now)) }
        ensures unchanged { OnErr result (grown (S.written self.new.sink.now) (waiting self.new)
            ≡ grown (S.written self.old.sink.now) (waiting self.old)) }

        ensures same_reference { self.new.sink.ghost_name ≡ self.old.sink.ghost_name }
        ensures appends_only { OnlyAppends S.frame S.faults self.old.sink.now self.new.sink.now }
        ensures cause { HasCause (S.faults self.old.sink.now) (S.faults self.new.sink.now) result }
    {
        let taken = self.sink.write(piece)?;
        self.straight = self.straight.saturating_sub(taken);
        Ok(taken)
    }
}

impl<'a, S: Sink> Sink for Buffered<'a, S> {
    ghost use Rattle.mp_buffered.specs.Beside.{in_front};
    ghost use Rattle.mp_buffered.specs.Waiting.{waiting};

    ghost written = { λ b. grown (S.written b.sink.now) (waiting b) };

    ghost faults = { λ b. S.faults b.sink.now };

    ghost frame = { λ b. in_front b.sink.ghost_name (S.frame b.sink.now) };

    fn write(&mut self, piece: &[u8]) -> Result<usize, Fault> {
        if self.goes_straight() {
            return self.hand_on(piece);
        }
        self.make_room(piece.len())?;
        if piece.len() > ROOM {
            return self.hand_on(piece);
        }
        self.gathered.extend_from_slice(piece)?;
        Ok(piece.len())
    }
}
