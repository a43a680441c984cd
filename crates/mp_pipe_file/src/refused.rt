//! Why a pipeline file is refused.
ghost use Rattle.std.specs.Prelude.{◌≡◌};
ghost use Rattle.mp_pipe_file.specs.Reasons.{reason_text};

use mp_lines::FileRefused;
use mp_text::BadNumber;
use std::fmt;

/// The check that a line fails. The first field of a line is checked first, then how many fields it has, then each of them from left to
/// right, and then what stands before it. All of them are this project's profile.
#[derive(Clone, Copy, Debug)]
pub enum PipeReason {
    /// The first field isn't `on`, `pass`, `count`, `sum` or `window`, a kind of events isn't `P`, `A` or `B`, or a test isn't
    /// `any`, `lt`, `eq` or `ge`.
    Kind,
    /// The line has more or fewer fields than its kind.
    Fields,
    /// A field is empty or has a byte that is no digit.
    Number,
    /// A number isn't within its limit.
    Range,
    /// A stage stands before the kind of events, a kind of events behind another, or windows behind another stage.
    Order,
    /// Four stages stand before it.
    Count,
    /// The file ends without a stage.
    End,
}

impl PipeReason {
    /// The reason in one word, as the program prints it.
    pub fn text(self) -> &'static str
        ensures { result.now ≡ reason_text self }
    {
        match self {
            PipeReason::Kind => "kind",
            PipeReason::Fields => "fields",
            PipeReason::Number => "number",
            PipeReason::Range => "range",
            PipeReason::Order => "order",
            PipeReason::Count => "count",
            PipeReason::End => "end",
        }
    }
}

impl fmt::Display for PipeReason {
    ghost use Rattle.std.specs.Prelude.{Some};
    ghost use Rattle.mp_pipe_file.specs.Reasons.{reason_text};

    ghost output = { λ why. Some (reason_text why) };

    fn fmt<W: fmt::Write>(&self, f: &mut fmt::Formatter<W>) -> fmt::Result {
        f.write_str(self.text())
    }
}

impl From<BadNumber> for PipeReason {
    ghost use Rattle.std.specs.Prelude.{◌≡◌};
    ghost use Rattle.mp_pipe_file.specs.Reasons.{reason_of};

    ghost from_gives = { λ bad why. why ≡ reason_of bad };

    fn from(bad: BadNumber) -> PipeReason {
        match bad {
            BadNumber::Digits => PipeReason::Number,
            BadNumber::Range => PipeReason::Range,
        }
    }
}

/// Why a pipeline file gives no pipeline: `BadLine` with the number of its first line that fails a check, from 1 with blank
/// lines counted, and the first check that this line fails; where none fails one and there is no stage, the number behind that of
/// the last line, and `End`. `NoMemory` for an allocation failure, which says nothing of the file.
pub type PipeRefused = FileRefused<PipeReason>;
