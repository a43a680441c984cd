//! Why a journal is refused.
ghost use Rattle.std.specs.Prelude.{◌≡◌};
ghost use Rattle.mp_journal.specs.Reasons.{reason_text};

use mp_lines::FileRefused;
use mp_text::BadNumber;
use std::fmt;

/// The check that a line fails. A line is checked in the order of these variants; `Number` and `Range` are checks of its fields,
/// which go from left to right. All of them are this project's profile.
#[derive(Clone, Copy, Debug)]
pub enum JournalReason {
    /// The first field isn't `s`, or the third is no step's letter.
    Kind,
    /// The line has more or fewer fields than its kind of step.
    Fields,
    /// A field that should say a number is empty or has a byte that is no digit.
    Number,
    /// The job has no such worker or stage, or a version is above 2^48.
    Range,
    /// The line before is that of a greater worker.
    Order,
}

impl JournalReason {
    /// The reason in one word, as the program prints it.
    pub fn text(self) -> &'static str
        ensures { result.now ≡ reason_text self }
    {
        match self {
            JournalReason::Kind => "kind",
            JournalReason::Fields => "fields",
            JournalReason::Number => "number",
            JournalReason::Range => "range",
            JournalReason::Order => "order",
        }
    }
}

impl fmt::Display for JournalReason {
    ghost use Rattle.std.specs.Prelude.{Some};
    ghost use Rattle.mp_journal.specs.Reasons.{reason_text};

    ghost output = { λ why. Some (reason_text why) };

    fn fmt<W: fmt::Write>(&self, f: &mut fmt::Formatter<W>) -> fmt::Result {
        f.write_str(self.text())
    }
}

impl From<BadNumber> for JournalReason {
    ghost use Rattle.std.specs.Prelude.{◌≡◌};
    ghost use Rattle.mp_journal.specs.Reasons.{reason_of};

    ghost from_gives = { λ bad why. why ≡ reason_of bad };

    fn from(bad: BadNumber) -> JournalReason {
        match bad {
            BadNumber::Digits => JournalReason::Number,
            BadNumber::Range => JournalReason::Range,
        }
    }
}

/// Why a journal gives no steps: `BadLine` with the number of its first line that fails a check, from 1 with blank lines counted,
/// and the first check that this line fails; `NoMemory` for an allocation failure, which says nothing of the file.
pub type JournalRefused = FileRefused<JournalReason>;
