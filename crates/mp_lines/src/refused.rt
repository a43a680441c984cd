//! Why a line or a file is refused.
ghost use Rattle.std.specs.Prelude.{◌≡◌};
ghost use Rattle.mp_lines.specs.Refusals.{refused_at};

use std::alloc::{AllocError, AllocFailed};
use std::fmt;
use thiserror::Error;

/// Why a line gives no items.
#[derive(Debug, Drop)]
pub enum LineRefused<Why> {
    /// The first check that it fails.
    Bad(Why),
    /// An allocation failed, which says nothing of the line.
    NoMemory,
}

impl<Why> LineRefused<Why> {
    /// The refusal of a file that is refused for its line of this number.
    pub fn at_line(self, line: u64) -> FileRefused<Why>
        ensures { result ≡ refused_at line self }
    {
        match self {
            LineRefused::Bad(why) => FileRefused::BadLine { line, why },
            LineRefused::NoMemory => FileRefused::NoMemory,
        }
    }
}

impl<Why> From<AllocError> for LineRefused<Why> {
    ghost use Rattle.std.specs.Prelude.{◌≡◌};
    ghost use Rattle.mp_lines.specs.declared.refused.LineRefused.TheVariants.{NoMemory};

    ghost from_gives = { λ _ refused. refused ≡ NoMemory };

    fn from(_error: AllocError) -> LineRefused<Why> {
        LineRefused::NoMemory
    }
}

impl<T: Drop, Why> From<AllocFailed<T>> for LineRefused<Why> {
    ghost use Rattle.std.specs.Prelude.{◌≡◌};
    ghost use Rattle.mp_lines.specs.declared.refused.LineRefused.TheVariants.{NoMemory};

    ghost from_gives = { λ _ refused. refused ≡ NoMemory };

    fn from(_failed: AllocFailed<T>) -> LineRefused<Why> {
        LineRefused::NoMemory
    }
}

/// Why a file gives no items.
#[derive(Debug, Drop, Error)]
#[error_bound(Why: fmt::Display)]
pub enum FileRefused<Why> {
    /// This line, numbered from 1 with blank lines counted, is the first that fails a check, and this is the first
    /// check that it fails.
    #[error("line {line}: {why}")]
    BadLine { line: u64, why: Why },
    /// An allocation failed, which says nothing of the file.
    #[error("out of memory")]
    NoMemory,
}

impl<Why> From<AllocError> for FileRefused<Why> {
    ghost use Rattle.std.specs.Prelude.{◌≡◌};
    ghost use Rattle.mp_lines.specs.declared.refused.FileRefused.TheVariants.{NoMemory};

    ghost from_gives = { λ _ refused. refused ≡ NoMemory };

    fn from(_error: AllocError) -> FileRefused<Why> {
        FileRefused::NoMemory
    }
}

impl<T: Drop, Why> From<AllocFailed<T>> for FileRefused<Why> {
    ghost use Rattle.std.specs.Prelude.{◌≡◌};
    ghost use Rattle.mp_lines.specs.declared.refused.FileRefused.TheVariants.{NoMemory};

    ghost from_gives = { λ _ refused. refused ≡ NoMemory };

    fn from(_failed: AllocFailed<T>) -> FileRefused<Why> {
        FileRefused::NoMemory
    }
}
