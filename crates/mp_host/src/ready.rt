//! The group that may be applied.
use mp_model::Time;

/// A group that may be applied, and how much it may give.
#[derive(Clone, Copy)]
pub struct ReadyGroup {
    /// In units of the event file.
    pub time: Time,
    /// The key whose records it has.
    pub key: u64,
    /// No fewer than its outputs and the times at which its key is to wait and didn't before.
    pub most: u64,
}
