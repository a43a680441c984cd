//! The judgement of a journal and an answer, by the query of a dataflow.
ghost use Rattle.std.specs.Prelude.{◌≡◌, ◌≤◌, length, map};
ghost use Rattle.mp_control.specs.Settings.{settings_in};
ghost use Rattle.mp_model.specs.Legal.{EventsAreLegal};
ghost use Rattle.mp_model.specs.Rules.{numbers_with};
ghost use Rattle.mp_words.specs.Limits.{AuditIsWithinLimits};
ghost use Rattle.mp_words.specs.Values.{audit_in};
ghost use Rattle.mp_command.specs.declared.flow.FlowQuery.TheVariants.{Named};
ghost use Rattle.mp_command.specs.Config.{SettingsFit, SettingsFitFlow, flow_for, flow_to_audit, flow_with, job_asked, job_with, shape_with};
ghost use Rattle.mp_command.specs.InputFiles.{pipe_in};
ghost use Rattle.mp_command.specs.Queries.{IsSound, query_of};
ghost use Rattle.mp_audit_command.specs.Judging.{Judges};

use mp_audit::AuditStop;
use mp_command::{FlowQuery, Inputs, JobParts, job_for};
use mp_job_audit::{AuditPlan, audit_job};
use mp_journal::Kept;
use mp_model::Query;
use mp_q_auction::{Q4, Q6};
use mp_q_join::{Q3, Q8};
use mp_q_simple::{Q1, Q2};
use mp_q_window::{Q5, Q7};
use mp_words::{AuditOptions, QueryName};
use std::alloc::Global;
use std::marker::Brand;

/// Judges a journal and an answer by the dataflow that an audit asks for: how many steps the journal has, where some order of all of
/// them is a run of the machine that writes the answer. `NoRun`: no order is one, or the answer is another; `NoMemory`: no memory.
pub fn judge_flow(
    alloc: Global,
    options: &AuditOptions,
    inputs: Inputs,
    journal: &[Vec<Kept>],
    answer: &[u8],
) -> Result<u64, AuditStop>
    requires options { AuditIsWithinLimits options.now }
    requires flow { inputs.flow ≡ flow_with (flow_to_audit (audit_in options.now)) (pipe_in inputs.flow.query) }
    requires sound { IsSound inputs.flow.query }
    requires events { EventsAreLegal inputs.parts.events.items }
    requires settings { SettingsFitFlow inputs.flow (settings_in inputs.parts.settings) }
    requires few { length journal.now ≤ 64 }
    ensures { let flow = flow_with (flow_to_audit (audit_in options.now)) (pipe_in inputs.flow.query) in
        let settings = settings_in inputs.parts.settings in
        Judges ((query_of flow.query).facts settings.values) (job_asked flow inputs.parts.events.items settings)
        options.now.depth options.now.paced (map (λ v. v.items) journal.now) answer.now result }
{
    let Inputs { flow, parts } = inputs;
    match flow.query {
        FlowQuery::Named(name) => judge_named(alloc, name, options, parts, journal, answer),
        FlowQuery::Piped(pipe) => judge(alloc, pipe, options, parts, journal, answer),
    }
}

/// The same by the query of a name.
fn judge_named(
    alloc: Global,
    name: QueryName,
    options: &AuditOptions,
    parts: JobParts,
    journal: &[Vec<Kept>],
    answer: &[u8],
) -> Result<u64, AuditStop>
    requires options { AuditIsWithinLimits options.now }
    requires events { EventsAreLegal parts.events.items }
    requires settings { SettingsFitFlow (flow_for (flow_to_audit (audit_in options.now)) (Named name)) (settings_in parts.settings) }
    requires few { length journal.now ≤ 64 }
    ensures { let flow = flow_for (flow_to_audit (audit_in options.now)) (Named name) in
        let settings = settings_in parts.settings in
        Judges ((query_of flow.query).facts settings.values) (job_asked flow parts.events.items settings)
        options.now.depth options.now.paced (map (λ v. v.items) journal.now) answer.now result }
{
    match name {
        QueryName::Q1 => judge(alloc, Q1::given(), options, parts, journal, answer),
        QueryName::Q2 => judge(alloc, Q2::given(), options, parts, journal, answer),
        QueryName::Q3 => judge(alloc, Q3::given(), options, parts, journal, answer),
        QueryName::Q4 => judge(alloc, Q4::given(), options, parts, journal, answer),
        QueryName::Q5 => judge(alloc, Q5::given(), options, parts, journal, answer),
        QueryName::Q6 => judge(alloc, Q6::given(), options, parts, journal, answer),
        QueryName::Q7 => judge(alloc, Q7::given(), options, parts, journal, answer),
        QueryName::Q8 => judge(alloc, Q8::given(), options, parts, journal, answer),
    }
}

/// The same by a query, which has its given values, with the values that were read.
fn judge<Q: Query>(
    alloc: Global,
    given: Q,
    options: &AuditOptions,
    parts: JobParts,
    journal: &[Vec<Kept>],
    answer: &[u8],
) -> Result<u64, AuditStop>
    requires options { AuditIsWithinLimits options.now }
    requires events { EventsAreLegal parts.events.items }
    requires settings { let stages = (Q.facts (Q.values given)).stages in
        SettingsFit (shape_with options.now.workers options.now.bins stages) (Q.rules given) (settings_in parts.settings) }
    requires few { length journal.now ≤ 64 }
    ensures { let numbers = numbers_with (Q.rules given) (Q.values given) parts.settings.values in
        let shape = shape_with options.now.workers options.now.bins (Q.facts (Q.values given)).stages in
        let job = job_with shape numbers parts.events.items (settings_in parts.settings) in
        Judges (Q.facts numbers) job
        options.now.depth options.now.paced (map (λ v. v.items) journal.now) answer.now result }
{
    let plan = AuditPlan {
        depth: options.depth,
        paced: options.paced,
    };
    match job_for(alloc, given, options.workers, options.bins, parts) {
        Ok(job) => audit_job::<Q, Brand>(alloc, &job, plan, journal, answer),
        Err(_) => Err(AuditStop::NoMemory),
    }
}
