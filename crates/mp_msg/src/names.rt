//! What a step tells of the names of a message.
use mp_names::Name;

/// The names of a message, as a step tells them: the first one, and how many there are.
#[derive(Clone, Copy, PartialEq, Eq, Drop)]
pub struct Names {
    /// The first one.
    pub first: Name,
    /// How many there are, at least 1.
    pub count: u64,
}
