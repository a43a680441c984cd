//! The events of a whole file.
ghost use Rattle.std.specs.Prelude.{◌≡◌, ◌≤◌, ◌<◌, ◌+◌, ◌^◌, ◌++◌, ◌∷◌, [], All, Ok, Err, IfOk, IfErr, OnOk, length, vec_len};
ghost use Rattle.mp_events.specs.Events.{events_of};
ghost use Rattle.mp_events.specs.Pieces.{IsPieceOf};
ghost use Rattle.mp_events.specs.Usual.{refused_behind};
ghost use Rattle.mp_lines.specs.Refusals.{IfBadLine};
ghost use Rattle.mp_model.specs.Legal.{EventIsLegal};
ghost use Rattle.mp_model.specs.Plain.{EventsArePlain};
ghost use Rattle.mp_names.specs.Limits.{most_events};

use crate::line::read_line;
use crate::piece::{Piece, join, read_piece};
use crate::{EventsReason, EventsRefused};
use mp_lines::{LineReader, LineRefused, read_lines};
use mp_model::Event;
use mp_text::FieldList;
use std::alloc::{AllocError, Global};
use std::marker::Model;

/// The events of an event file, in file order: one for each line that isn't blank. An event's place in the list is its
/// index. Times may come in any order. No name has a `|` or a line feed.
///
/// `BadLine` comes exactly where a line fails a check, with the number of the first such line and the first check that
/// it fails. `NoMemory` is an allocation failure alone.
pub fn read_events(alloc: Global, text: &[u8]) -> Result<Vec<Event>, EventsRefused>
    ensures events { IfOk result (λ events. events_of text.now ≡ Ok events.items) }
    ensures legal { IfOk result (λ events. All EventIsLegal events.items) }
    ensures few { IfOk result (λ events. vec_len events ≤ most_events) }
    ensures plain { IfOk result (λ events. EventsArePlain events.items) }

    ensures bad_line { IfErr result (λ refused.
        IfBadLine refused (λ line why. events_of text.now ≡ Err (line, why))) }
{
    let first = read_piece(alloc, text, 0, text.len())?;
    read_behind(alloc, text, first)
}

/// As [`read_events`], where pieces of the file were read already. They count as far as each begins where the one before it ends,
/// from the beginning of the file on, and as long as there are not too many events. What is behind them is read line by line.
pub fn read_events_behind(
    alloc: Global,
    text: &[u8],
    pieces: Vec<Piece>,
) -> Result<Vec<Event>, EventsRefused>
    requires { All (IsPieceOf text.now) pieces.items }
    ensures events { IfOk result (λ events. events_of text.now ≡ Ok events.items) }
    ensures legal { IfOk result (λ events. All EventIsLegal events.items) }
    ensures few { IfOk result (λ events. vec_len events ≤ most_events) }
    ensures plain { IfOk result (λ events. EventsArePlain events.items) }

    ensures bad_line { IfErr result (λ refused.
        IfBadLine refused (λ line why. events_of text.now ≡ Err (line, why))) }
{
    let first = join(alloc, text, pieces)?;
    read_behind(alloc, text, first)
}

// The events of a file that begins with this piece.
fn read_behind(alloc: Global, text: &[u8], first: Piece) -> Result<Vec<Event>, EventsRefused>
    requires piece { IsPieceOf text.now first }
    requires start { first.start ≡ 0 }
    ensures events { IfOk result (λ events. events_of text.now ≡ Ok events.items) }
    ensures legal { IfOk result (λ events. All EventIsLegal events.items) }
    ensures few { IfOk result (λ events. vec_len events ≤ most_events) }
    ensures plain { IfOk result (λ events. EventsArePlain events.items) }

    ensures bad_line { IfErr result (λ refused.
        IfBadLine refused (λ line why. events_of text.now ≡ Err (line, why))) }
{
    let (events, end) = first.into_parts();
    let lines = events.len() as u64;
    match read_lines(alloc, &EventReader, EventList { events }, &text[end..]) {
        Ok(list) => Ok(list.into_events()),
        Err(refused) => Err(behind(refused, lines)),
    }
}

// A refusal of what is behind so many lines, as one of the whole file.
fn behind(refused: EventsRefused, lines: u64) -> EventsRefused
    requires { IfBadLine refused (λ line _. line + lines < 2 ^ 64) }
    ensures { result ≡ refused_behind lines refused }
{
    match refused {
        EventsRefused::BadLine { line, why } => EventsRefused::BadLine {
            line: line + lines,
            why,
        },
        EventsRefused::NoMemory => EventsRefused::NoMemory,
    }
}

/// The events of the lines that were read. Contracts see a list.
#[derive(Drop)]
struct EventList {
    events: Vec<Event>,
}

impl Model for EventList {
    ghost use Rattle.std.specs.Prelude.{List};
    ghost use Rattle.mp_model.specs.declared.record.Event.{Event};

    ghost Value = { List Event };

    ghost view = { λ l. l.events.items };
}

impl EventList {
    // How many there are.
    fn len(&self) -> usize
        ensures { result ≡ length self.now }
    {
        self.events.len()
    }

    // Adds one. `AllocError`: no memory.
    fn push(&mut self, event: Event) -> Result<(), AllocError>
        ensures { OnOk result (self.new ≡ self.old ++ event ∷ []) }
    {
        self.events.push(event)?;
        Ok(())
    }

    // They, in their order.
    fn into_events(self) -> Vec<Event>
        ensures { result.items ≡ self }
    {
        self.events
    }
}

/// What the lines of an event file say.
#[derive(Drop)]
struct EventReader;

impl LineReader for EventReader {
    ghost use Rattle.mp_events.specs.Lines.{event_rules};

    type State = EventList;

    type Reason = EventsReason;

    ghost rules = { λ _. event_rules };

    fn read(
        &self,
        alloc: Global,
        fields: &FieldList,
        events: &mut EventList,
    ) -> Result<(), LineRefused<EventsReason>> {
        match read_line(fields, events.len()) {
            Ok(line) => {
                events.push(line.event(alloc, fields)?)?;
                Ok(())
            }
            Err(why) => Err(LineRefused::Bad(why)),
        }
    }
}
