//! What a player keeps of a world.

use mp_chart::LeftCounts;
use mp_standing::{Mail, Standing};

/// What a player keeps of a world.
#[derive(Drop)]
pub struct State {
    /// Where each worker stands.
    pub standings: Vec<Standing>,
    /// The messages that wait.
    pub mail: Mail,
    /// The work that is left by what the workers posted.
    pub left: LeftCounts,
    /// The board's version.
    pub version: u64,
}
