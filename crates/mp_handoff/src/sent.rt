//! What is kept of a packet that was sent.
ghost use Rattle.std.specs.Prelude.{◌≡◌, length};

use mp_model::Time;
use mp_msg::BinState;

/// A packet of a stage that was sent: its bin, the time of its move, and how many keys of the bin then had a cell.
#[derive(Clone, Copy)]
pub struct Sent {
    /// From 0.
    pub bin: u32,
    /// In units of the event file.
    pub time: Time,
    /// How many keys of the bin then had a cell that isn't fresh.
    pub keys: u64,
}

/// How many keys of a bin have a cell.
pub fn count_of_keys<C: Drop>(state: &BinState<C>) -> u64
    ensures { result ≡ length state.now.cells }
{
    state.cells.len() as u64
}
