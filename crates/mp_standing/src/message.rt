//! A message.

use mp_chart::Entry;

/// A message on its way. All its names are of one location and time.
#[derive(Clone, Copy, Drop)]
pub struct Message {
    /// Its first name.
    pub first: Entry,
    /// How many names it has.
    pub count: u32,
}
