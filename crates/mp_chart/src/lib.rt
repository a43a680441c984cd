//! Layer: the audit of a journal.
//!
//! A chart: the outline of a job as lists, by worker and kind of step, and what else a player of the machine asks of it; and that
//! the lists decide the steps. And the numbers of work that is left, by location and time, and the frontiers that they show: they
//! only fall, and can't cancel out.
#![tactic(auto)]

mod chart;
mod entry;
mod laws;
mod left;
mod work;

pub use chart::Chart;
pub use entry::Entry;
pub use laws::lists_decide;
pub use left::LeftCounts;
pub use work::Work;
