//! The state of a bin that a host has in hand.
use mp_model::Time;
use mp_msg::BinState;

/// The state of a bin in hand, and the time of the packet that brought it; none brought what the first owner has from the
/// start.
#[derive(Drop)]
pub struct Held<C: Drop> {
    /// From 0.
    pub bin: u32,
    /// When the packet that brought it was due, in units of the event file; `None` of what the first owner has from the start.
    pub since: Option<Time>,
    /// Its cells and wakes.
    pub state: BinState<C>,
}
