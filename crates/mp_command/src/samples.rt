//! What a demo runs: its options and its settings.
ghost use Rattle.std.specs.Prelude.{◌≡◌, ◌<◌, ◌≤◌, false, IfErr, IfOk, None};
ghost use Rattle.mp_control.specs.Settings.{settings_in};
ghost use Rattle.mp_job.specs.Legal.{ControlsFit};
ghost use Rattle.mp_command.specs.Config.{SettingsFitFlow, demo_controls, demo_settings};
ghost use Rattle.mp_command.specs.Queries.{IsSound};
ghost use Rattle.mp_words.specs.Limits.{AreWithinLimits, DemoIsWithinLimits};
ghost use Rattle.mp_command.specs.Lines.{answer_name};
ghost use Rattle.mp_command_files.specs.Outcome.{NoMemory};
ghost use Rattle.mp_command_files.specs.Refused.{outcome_of};

use crate::flow::Flow;
use mp_command_files::Refusal;
use mp_control::{Settings, Shape, ValueList};
use mp_plans::{Control, all_at_once, fluid};
use mp_words::{DemoOptions, QueryOption, RunOptions, Schedule, Span};
use std::alloc::Global;

/// The name that a demo writes its answer to, in memory.
pub const ANSWER: &str = "answer";

/// The run that a demo makes on files in memory. It reads no files, so the names of these say nothing.
pub fn run_in_memory(options: &DemoOptions) -> RunOptions<'static>
    requires { DemoIsWithinLimits options.now }
    ensures within { AreWithinLimits result }
    ensures query { result.query ≡ QueryOption.Named options.now.query }
    ensures size { (result.workers ≡ options.now.workers) × (result.bins ≡ options.now.bins)
        × (result.depth ≡ options.now.depth) }
    ensures schedule { result.schedule ≡ Schedule.Threads }
    ensures paced { result.paced ≡ false }
    ensures out { result.out.now ≡ answer_name }
    ensures report { result.report ≡ None }
    ensures journal { result.journal ≡ None }
    ensures span { result.span ≡ Span.Whole }
{
    RunOptions {
        query: QueryOption::Named(options.query),
        events: "events",
        config: "config",
        out: ANSWER,
        report: None,
        journal: None,
        workers: options.workers,
        bins: options.bins,
        depth: options.depth,
        schedule: Schedule::Threads,
        paced: false,
        span: Span::Whole,
    }
}

/// What a demo is run with: the usual first owners, the given values of the query's rules, and control records that move every bin
/// of the first stage at 600, and then one after the other from 1200 on. `NoMemory`, and no other refusal: no memory.
pub fn demo_settings<'a>(alloc: Global, flow: &Flow) -> Result<Settings, Refusal<'a>>
    requires workers { 0 < flow.now.workers }
    requires bins { flow.now.bins ≤ 4096 }
    requires sound { IsSound flow.now.query }
    ensures settings { IfOk result (λ s. settings_in s ≡ demo_settings flow.now) }
    ensures fit { IfOk result (λ s. SettingsFitFlow flow.now (settings_in s)) }
    ensures refused { IfErr result (λ r. outcome_of r ≡ NoMemory) }
{
    let controls = two_moves(alloc, flow.shape())?;
    Ok(Settings {
        firsts: Vec::new(alloc),
        values: ValueList::given(&flow.rules()),
        controls,
    })
}

// The control records of a demo.
fn two_moves<'a>(alloc: Global, shape: Shape) -> Result<Vec<Control>, Refusal<'a>>
    requires workers { 0 < shape.workers }
    requires bins { shape.bins ≤ 4096 }
    requires stages { 0 < shape.stages }
    ensures records { IfOk result (λ controls. controls.items ≡ demo_controls shape) }
    ensures fit { IfOk result (λ controls. ControlsFit shape controls.items) }
    ensures refused { IfErr result (λ r. outcome_of r ≡ NoMemory) }
{
    let mut controls = Vec::new(alloc);
    all_at_once(&mut controls, shape, 600, 0, 1)?;
    fluid(&mut controls, shape, 1200, 30, 0, 2)?;
    Ok(controls)
}
