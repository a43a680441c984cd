//! What the value under a lock shows.
ghost use Rattle.std.specs.Prelude.{ℕ, List};

/// A value that has rows, one for each seat of its lock, and a version. Which job it belongs to is a
/// matter of its type (this project's profile).
pub trait Rows {
    /// What a row is. No value of it is made.
    type Row;

    // The rows, by seat.
    ghost rows: { Self → List Self.Row };

    // A number that never goes back.
    ghost version: { Self → ℕ };
}
