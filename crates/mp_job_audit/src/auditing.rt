//! The audit of a job.
ghost use Rattle.std.specs.Prelude.{◌≡◌, ◌≢◌, ◌⊎◌, ◌<◌, ◌^◌, Err, IfOk, OnOk, length, map};
ghost use Rattle.mp_audit.specs.Going.{HasLegalMerge, HasNone};
ghost use Rattle.mp_audit.specs.Lists.{list_of};
ghost use Rattle.mp_audit.specs.declared.searching.AuditStop.TheVariants.{NoRun};
ghost use Rattle.mp_model.specs.Answers.{one_thread_answer};
ghost use Rattle.mp_model.specs.Tables.{table_of};
ghost use Rattle.mp_job.specs.Runs.{IsRunOf};
ghost use Rattle.mp_outline.specs.JobOutline.{outline_of};
ghost use Rattle.mp_job_lists.specs.Listed.{IsWhole};

use crate::charting::Charted;
use mp_audit_player::{AuditStop, Kept, audit};
use mp_job::Job;
use mp_job_lists::JobLists;
use mp_model::{Naming, Query};
use mp_outline_lists::OutlineLists;
use std::alloc::Global;

/// How the run went that is audited.
#[derive(Clone, Copy)]
pub struct AuditPlan {
    /// How many messages a mailbox held, 1 to `MAX_DEPTH`.
    pub depth: u32,
    /// Whether its control records went out paced.
    pub paced: bool,
}

/// How many steps the journal of a job that has no stop time and goes on from no checkpoint has, by worker, where some order of them is a run of the job J, which
/// is paced or not as the plan says, and the answer is the job's. `NoRun`: there is no such run, or the answer is another.
/// `NoMemory`: no memory, or more steps than a u64 counts.
pub fn audit_job<Q: Query, J: Naming>(
    alloc: Global,
    job: &Job<Q>,
    plan: AuditPlan,
    journal: &[Vec<Kept>],
    answer: &[u8],
) -> Result<u64, AuditStop>
    requires job { IsRunOf job.now J.job }
    requires whole { IsWhole job.now }
    requires pace { J.job.paced ≡ plan.paced }
    requires few { length journal.now < 2 ^ 32 }
    ensures found { let o = outline_of (table_of Q.facts J.job) J.job in let lists = map (λ v. v.items) journal.now in
        IfOk result (λ n. HasLegalMerge o plan.depth (list_of lists) n) }
    ensures answered { OnOk result (answer.now ≡ one_thread_answer (table_of Q.facts J.job) J.job.events) }
    ensures none { let o = outline_of (table_of Q.facts J.job) J.job in let lists = map (λ v. v.items) journal.now in
        result ≡ Err NoRun → HasNone o plan.depth (list_of lists) ⊎ (answer.now ≢ one_thread_answer (table_of Q.facts J.job) J.job.events) }
{
    let Ok(lists) = JobLists::<Q, J>::of(alloc, job, plan.paced, answer) else {
        return Err(AuditStop::NoMemory);
    };
    let Some(lists) = lists else {
        return Err(AuditStop::NoRun);
    };
    lists.are_sound();
    let Ok(chart) = Charted::of(alloc, lists) else {
        return Err(AuditStop::NoMemory);
    };
    audit(alloc, chart, plan.depth, journal)
}
