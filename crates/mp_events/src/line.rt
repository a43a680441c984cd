//! One line of an event file.
ghost use Rattle.std.specs.Prelude.{◌≡◌, ◌<◌, length, IfOk};
ghost use Rattle.mp_events.specs.Lines.{event_by, failures_of, value_by};
ghost use Rattle.mp_events.specs.Read.{IsRead, is_in_order};
ghost use Rattle.mp_lines.specs.Checks.{AnswersChecks, field_at};
ghost use Rattle.mp_text.specs.declared.splitting.TheConstants.{FIELDS_HELD};

use crate::EventsReason;
use crate::kinds::LineKind;
use mp_lines::{MOST_FIELDS, read_numbers};
use mp_model::{Event, Text, Value};
use mp_names::limits::MAX_EVENTS;
use mp_text::FieldList;
use std::alloc::{AllocError, Global};

/// A line that fails no check: its kind, and the numbers of the fields after that, with 0 for a name.
/// Its names stay in its fields.
#[derive(Drop)]
pub struct ReadLine {
    kind: LineKind,
    numbers: [u64; MOST_FIELDS],
}

/// Reads a line's fields, where `before` events stand before it. `EventsReason`: the first check that it fails.
pub fn read_line(fields: &FieldList, before: usize) -> Result<ReadLine, EventsReason>
    ensures { AnswersChecks result (failures_of before fields.now) (λ line. IsRead fields.now line) }
{
    if before >= MAX_EVENTS {
        return Err(EventsReason::Count);
    }
    let kind = LineKind::of(fields).ok_or(EventsReason::Kind)?;
    let limits = kind.limits();
    if fields.count() != limits.len() + 1 {
        return Err(EventsReason::Fields);
    }
    let numbers = read_numbers(fields, limits)?;
    let line = ReadLine { kind, numbers };
    if !line.is_ordered() {
        return Err(EventsReason::Order);
    }
    Ok(line)
}

impl ReadLine {
    /// Whether the line, if it is an auction, expires after its time.
    fn is_ordered(&self) -> bool
        ensures { result ≡ is_in_order self.now.kind self.now.numbers }
    {
        match self.kind {
            LineKind::Auction => self.numbers[0] < self.numbers[5],
            LineKind::Person | LineKind::Bid => true,
        }
    }

    /// The event that the line says, whose fields these are. `AllocError`: no memory.
    pub fn event(&self, alloc: Global, fields: &FieldList) -> Result<Event, AllocError>
        requires { IsRead fields.now self.now }
        ensures { IfOk result (λ event. event ≡ event_by fields.now self.now.kind) }
    {
        Ok(Event {
            time: self.numbers[0],
            value: self.value(alloc, fields)?,
        })
    }

    /// What the line says beside its time.
    fn value(&self, alloc: Global, fields: &FieldList) -> Result<Value, AllocError>
        requires { IsRead fields.now self.now }
        ensures { IfOk result (λ value. value ≡ value_by self.now.kind fields.now) }
    {
        match self.kind {
            LineKind::Person => Ok(Value::Person {
                id: self.numbers[1],
                name: text_at(alloc, fields, 3)?,
                city: text_at(alloc, fields, 4)?,
                state: text_at(alloc, fields, 5)?,
            }),
            LineKind::Auction => Ok(Value::Auction {
                id: self.numbers[1],
                seller: self.numbers[2],
                category: self.numbers[3],
                reserve: self.numbers[4],
                expires: self.numbers[5],
            }),
            LineKind::Bid => Ok(Value::Bid {
                auction: self.numbers[1],
                bidder: self.numbers[2],
                price: self.numbers[3],
            }),
        }
    }
}

/// The bytes of the field at this place of a line.
fn text_at(alloc: Global, fields: &FieldList, place: usize) -> Result<Text, AllocError>
    requires held { place < FIELDS_HELD }
    requires there { place < length fields.now }
    ensures { IfOk result (λ text. text ≡ field_at fields.now place) }
{
    Text::new(alloc, fields.get(place).unwrap())
}
