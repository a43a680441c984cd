//! Layer: runs.
//!
//! The workers of a job on threads of their own: run to their end, and what each has done.
#![tactic(auto)]

mod run;
mod states;
mod tallies;

pub use mp_threads_crew::{Crew, Ended, EndedStates};
pub use mp_threads_member::RunPlan;
pub use run::run_workers;
pub use states::run_with_states;
pub use tallies::run_with_tallies;
