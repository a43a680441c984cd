//! The letters of the kinds of step.
ghost use Rattle.std.specs.Prelude.{◌≡◌};
ghost use Rattle.mp_journal.specs.Letters.{FitsWords, FitsKind, letter_of, limit_of, step_of};

use mp_lines::NumberLimit;
use mp_names::{Kept, Kind, Shape};

/// The kind of step that a letter says, without its number.
#[derive(Clone, Copy)]
pub enum Letter {
    /// `I`.
    Ingest,
    /// `C`.
    SendControl,
    /// `R`, of a stage.
    Route,
    /// `V`, from a worker.
    Receive,
    /// `E`, of a stage.
    Extract,
    /// `S`, of a stage.
    Settle,
    /// `A`, of a stage.
    Apply,
    /// `O`.
    SendRow,
    /// `W`.
    Write,
    /// `X`, with the version after it.
    Exchange,
}

/// The greatest version in a journal: 2^48.
const MAX_VERSION: u64 = 1 << 48;

impl Letter {
    /// The letter that a field is, if it is one.
    pub fn of(field: &[u8]) -> Option<Letter>
        ensures { result ≡ letter_of field.now }
    {
        match field {
            [b'I'] => Some(Letter::Ingest),
            [b'C'] => Some(Letter::SendControl),
            [b'R'] => Some(Letter::Route),
            [b'V'] => Some(Letter::Receive),
            [b'E'] => Some(Letter::Extract),
            [b'S'] => Some(Letter::Settle),
            [b'A'] => Some(Letter::Apply),
            [b'O'] => Some(Letter::SendRow),
            [b'W'] => Some(Letter::Write),
            [b'X'] => Some(Letter::Exchange),
            _ => None,
        }
    }

    /// The limit of the number behind the letter in a journal of a job of this shape; `None` where there is no number.
    pub fn limit(self, shape: Shape) -> Option<NumberLimit>
        ensures limit { result ≡ limit_of shape self }
        ensures words { FitsWords shape }
    {
        match self {
            Letter::Route | Letter::Extract | Letter::Settle | Letter::Apply => {
                Some(NumberLimit::Below(u64::from(shape.stages)))
            }
            Letter::Receive => Some(NumberLimit::Below(u64::from(shape.workers))),
            Letter::Exchange => Some(NumberLimit::UpTo(MAX_VERSION)),
            Letter::Ingest | Letter::SendControl | Letter::SendRow | Letter::Write => None,
        }
    }

    /// The step that the letter says with this number.
    pub fn step(self, number: u64) -> Kept
        requires { FitsKind self number }
        ensures { result ≡ step_of self number }
    {
        match self {
            Letter::Ingest => plain(Kind::Ingest),
            Letter::SendControl => plain(Kind::SendControl),
            Letter::Route => plain(Kind::Route(number as u32)),
            Letter::Receive => plain(Kind::Receive(number as u32)),
            Letter::Extract => plain(Kind::Extract(number as u32)),
            Letter::Settle => plain(Kind::Settle(number as u32)),
            Letter::Apply => plain(Kind::Apply(number as u32)),
            Letter::SendRow => plain(Kind::SendRow),
            Letter::Write => plain(Kind::Write),
            Letter::Exchange => Kept {
                kind: Kind::Exchange,
                version: number,
            },
        }
    }
}

// A step of this kind, which has no version.
fn plain(kind: Kind) -> Kept
    ensures { result ≡ record { kind = kind; version = 0 } }
{
    Kept { kind, version: 0 }
}
