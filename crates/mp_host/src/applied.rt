//! What a host did when it applied a group.
use mp_model::{Time, Value};

/// A group that was applied, and what came of it.
#[derive(Drop)]
pub struct Applied {
    /// In units of the event file.
    pub time: Time,
    /// The key whose records it has.
    pub key: u64,
    /// What the group gives, in order.
    pub outputs: Vec<Value>,
    /// The times at which the key waits from now on, and didn't before: ascending, each once.
    pub woke: Vec<Time>,
}
