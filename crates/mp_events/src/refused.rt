//! Why an event file is refused.
ghost use Rattle.std.specs.Prelude.{◌≡◌};
ghost use Rattle.mp_events.specs.Reasons.{reason_text};

use mp_lines::{BadField, FileRefused};
use mp_text::BadNumber;
use std::fmt;

/// The check that a line fails. A line is checked in the order of these variants; `Number`, `Range` and `Name` are
/// checks of its fields, which go from left to right. All of them are this project's profile.
#[derive(Clone, Copy, Debug)]
pub enum EventsReason {
    /// As many events as a file may have stand before the line.
    Count,
    /// The first field isn't `P`, `A` or `B`.
    Kind,
    /// The line has more or fewer fields than its kind.
    Fields,
    /// A field that should say a number is empty or has a byte that is no digit.
    Number,
    /// A number is above its greatest value.
    Range,
    /// A name is empty or longer than 64 bytes.
    Name,
    /// An auction doesn't expire after its time.
    Order,
}

impl EventsReason {
    /// The reason in one word, as the program prints it.
    pub fn text(self) -> &'static str
        ensures { result.now ≡ reason_text self }
    {
        match self {
            EventsReason::Count => "count",
            EventsReason::Kind => "kind",
            EventsReason::Fields => "fields",
            EventsReason::Number => "number",
            EventsReason::Range => "range",
            EventsReason::Name => "name",
            EventsReason::Order => "order",
        }
    }
}

impl fmt::Display for EventsReason {
    ghost use Rattle.std.specs.Prelude.{Some};
    ghost use Rattle.mp_events.specs.Reasons.{reason_text};

    ghost output = { λ why. Some (reason_text why) };

    fn fmt<W: fmt::Write>(&self, f: &mut fmt::Formatter<W>) -> fmt::Result {
        f.write_str(self.text())
    }
}

impl From<BadField> for EventsReason {
    ghost use Rattle.std.specs.Prelude.{◌≡◌};
    ghost use Rattle.mp_events.specs.Reasons.{reason_of};

    ghost from_gives = { λ bad why. why ≡ reason_of bad };

    fn from(bad: BadField) -> EventsReason {
        match bad {
            BadField::Number(BadNumber::Digits) => EventsReason::Number,
            BadField::Number(BadNumber::Range) => EventsReason::Range,
            BadField::Name => EventsReason::Name,
        }
    }
}

/// Why an event file gives no events: `BadLine` with the number of its first line that fails a check, from 1 with blank
/// lines counted, and the first check that this line fails; `NoMemory` for an allocation failure, which says nothing of the
/// file.
pub type EventsRefused = FileRefused<EventsReason>;
