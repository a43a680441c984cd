//! The command `demo`: a run in memory on events that are made from a seed.
ghost use Rattle.std.specs.Prelude.{◌≡◌, IfErr, IfOk};
ghost use Rattle.mp_words.specs.Limits.{DemoIsWithinLimits};
ghost use Rattle.mp_command.specs.Lines.{demo_line};
ghost use Rattle.mp_command_files.specs.Outcome.{NoMemory};
ghost use Rattle.mp_command_files.specs.Refused.{outcome_of};

use crate::writing::write_answer;
use mp_command::{ANSWER, Flow, Inputs, JobParts, Refusal, demo_settings, run_in_memory};
use mp_gate::Gate;
use mp_make::{make_events, summary};
use mp_outside::NeverFails;
use mp_words::DemoOptions;
use std::sync::Wait;
use std::thread::Threads;

/// Makes events and runs them in memory, on threads, with every bin moved twice: the line that sums up the answer.
/// `NoMemory`, and no other refusal: no memory.
pub fn demo<'a, G: Gate + Sync, R: Threads + Wait + Sync + AllocGlobal>(
    rt: &R,
    options: &DemoOptions,
    gate: &G,
) -> Result<Vec<u8>, Refusal<'a>>
    requires { DemoIsWithinLimits options.now }
    ensures line { IfOk result (λ line. line.items ≡ demo_line options.now) }
    ensures refused { IfErr result (λ r. outcome_of r ≡ NoMemory) }
{
    let alloc = rt.alloc();
    let events = make_events(alloc, options.count, options.seed)?;
    let asked = run_in_memory(options);
    let flow = Flow::of_demo(options);
    let settings = demo_settings(alloc, &flow)?;
    let parts = JobParts {
        events,
        settings,
        checkpoint: Vec::new(alloc),
    };
    let mut memory = NeverFails::new(alloc);
    write_answer(rt, &mut memory, &asked, Inputs { flow, parts }, gate)?;
    match memory.get(ANSWER) {
        Some(answer) => Ok(summary(alloc, u64::from(options.count), answer)?),
        None => unreachable!(),
    }
}
