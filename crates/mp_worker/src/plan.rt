//! How the workers of a job are run.

/// How the workers of a job are run: the answer doesn't depend on it.
#[derive(Clone, Copy)]
pub struct RunPlan {
    /// How many messages a mailbox takes, from 1.
    pub depth: u32,
    /// Whether control records are paced: those of a time wait until all that moves at earlier times has arrived.
    pub paced: bool,
    /// Whether the workers keep their steps.
    pub keeps: bool,
}
