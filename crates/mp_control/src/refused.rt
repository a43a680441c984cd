//! Why a configuration file is refused.
ghost use Rattle.std.specs.Prelude.{◌≡◌};
ghost use Rattle.mp_control.specs.Reasons.{reason_text};

use mp_lines::FileRefused;
use mp_text::BadNumber;
use std::fmt;

/// The check that a line fails. A line is checked in the order of these variants; `Number`, `Range` and `Name` are
/// checks of its fields, which go from left to right. All of them are this project's profile.
#[derive(Clone, Copy, Debug)]
pub enum ControlReason {
    /// The first field isn't `M`, `all`, `fluid` or `batch`, nor `first`, `rule` or `drain` where the file's version is 2, nor `V`
    /// where the line is the first that isn't blank.
    Kind,
    /// The line has more or fewer fields than its kind.
    Fields,
    /// A field is empty or has a byte that is no digit.
    Number,
    /// A number isn't within its limit, the last time of a plan is above 2^47, or the only worker is drained.
    Range,
    /// A rule's name is that of no rule of the query.
    Name,
    /// A control line stands before the first owner or the rule.
    Late,
    /// A first owner of the same bin, or the same rule, stands before it.
    Twice,
    /// With the records of the line there would be more than a file may say.
    Count,
}

impl ControlReason {
    /// The reason in one word, as the program prints it.
    pub fn text(self) -> &'static str
        ensures { result.now ≡ reason_text self }
    {
        match self {
            ControlReason::Kind => "kind",
            ControlReason::Fields => "fields",
            ControlReason::Number => "number",
            ControlReason::Range => "range",
            ControlReason::Name => "name",
            ControlReason::Late => "late",
            ControlReason::Twice => "twice",
            ControlReason::Count => "count",
        }
    }
}

impl fmt::Display for ControlReason {
    ghost use Rattle.std.specs.Prelude.{Some};
    ghost use Rattle.mp_control.specs.Reasons.{reason_text};

    ghost output = { λ why. Some (reason_text why) };

    fn fmt<W: fmt::Write>(&self, f: &mut fmt::Formatter<W>) -> fmt::Result {
        f.write_str(self.text())
    }
}

impl From<BadNumber> for ControlReason {
    ghost use Rattle.std.specs.Prelude.{◌≡◌};
    ghost use Rattle.mp_control.specs.Reasons.{reason_of};

    ghost from_gives = { λ bad why. why ≡ reason_of bad };

    fn from(bad: BadNumber) -> ControlReason {
        match bad {
            BadNumber::Digits => ControlReason::Number,
            BadNumber::Range => ControlReason::Range,
        }
    }
}

/// Why a configuration file gives no settings: `BadLine` with the number of its first line that fails a check,
/// from 1 with blank lines counted, and the first check that this line fails; `NoMemory` for an allocation failure, which says
/// nothing of the file.
pub type ControlRefused = FileRefused<ControlReason>;
