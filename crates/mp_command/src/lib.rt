//! Layer: the command.
//!
//! The command as far as nothing runs: how a call ends, the files that it reads one after the other, `check` and `make`, the files of the report, of what is saved and of the journal, and what a demo is to run.
#![tactic(auto)]

mod checking;
mod flow;
mod jobs;
mod making;
mod reading;
mod reporting;
mod run_files;
mod samples;
mod saving;
mod status;

pub use checking::check;
pub use flow::{Flow, FlowQuery};
pub use jobs::{job_after, job_for, job_until};
pub use making::make;
pub use mp_command_files::Refusal;
pub use mp_events::OnOneThread;
pub use reading::{InputFiles, Inputs, JobParts, read_inputs};
pub use reporting::{journal_to, report_to};
pub use run_files::read_run;
pub use samples::{ANSWER, demo_settings, run_in_memory};
pub use saving::{SavePlan, save_to};
pub use status::{Status, lack_memory, tell};
