//! Why words give no command.
ghost use Rattle.mp_words.specs.declared.refused.WordsRefused.TheVariants.{Usage, NoMemory};

use clap::error::ErrorKind;
use std::error::Error;
use std::fmt;

/// Why words give no command.
#[derive(Clone, Copy, Debug)]
pub enum WordsRefused {
    /// The words aren't in the command set. It comes exactly there, but for an allocation failure.
    Usage,
    /// Memory ran out.
    NoMemory,
}

impl From<clap::Error> for WordsRefused {
    ghost use Rattle.std.specs.Prelude.{◌≡◌};
    ghost use Rattle.clap.specs.Words.{kind_of};
    ghost use Rattle.mp_words.specs.Refused.{refusal_of};

    ghost from_gives = { λ error why. why ≡ refusal_of (kind_of error) };

    fn from(error: clap::Error) -> WordsRefused {
        match error.kind() {
            ErrorKind::OutOfMemory => WordsRefused::NoMemory,
            _ => WordsRefused::Usage,
        }
    }
}

impl fmt::Display for WordsRefused {
    fn fmt<W: fmt::Write>(&self, f: &mut fmt::Formatter<W>) -> fmt::Result {
        f.write_str(match self {
            WordsRefused::Usage => "no command",
            WordsRefused::NoMemory => "no memory",
        })
    }
}

impl Error for WordsRefused {}
