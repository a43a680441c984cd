//! Layer: the audit of a journal.
//!
//! The audit of a job's journal and answer: whether some order of the steps that its workers kept is a run that writes this answer.
//! It goes along the chart of the job, which is made of the fields of its outline.
#![tactic(auto)]

mod auditing;
mod charting;

pub use auditing::{AuditPlan, audit_job};
pub use charting::Charted;
pub use mp_audit_player::{AuditStop, Kept};
