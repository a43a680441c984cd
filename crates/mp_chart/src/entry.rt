//! An entry of a chart.

use mp_names::{Name, Time};

/// A name, with its time and, where it is sent, its receiver, else 0.
#[derive(Clone, Copy)]
pub struct Entry {
    /// The name.
    pub name: Name,
    /// Its time.
    pub time: Time,
    /// The worker that it is sent to.
    pub receiver: u32,
}
