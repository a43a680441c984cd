//! Lists of steps, with what each answers and what is seen after them.
ghost use Rattle.std.specs.Prelude.{◌≡◌, false};
ghost use Rattle.mp_job.specs.Runs.{IsRunOf};
ghost use Rattle.mp_output.specs.Rows.{GivesRows};
ghost use Rattle.mp_model.specs.Tables.{table_of};

use mp_board::Cause;
use mp_drive::Plain;
use mp_job::Job;
use mp_model::{Naming, Query};
use mp_names::{Frontier, Kind, Loc};
use mp_outside::MemSink;
use mp_worker::Turn;
use std::alloc::{AllocError, Global};
use std::process::Abort;

/// A worker, the kind of its step, and what that answers.
pub type Line = (u32, Kind, Turn);

/// Steps of a list, and a frontier that is seen after them.
#[derive(Clone, Copy)]
pub struct Part<'l> {
    pub lines: &'l [Line],
    pub at: Loc,
    pub frontier: Frontier,
}

/// The steps of these lines.
fn steps_of(alloc: Global, lines: &[Line]) -> Result<Vec<(u32, Kind)>, AllocError> {
    let mut steps = Vec::new(alloc);
    for (worker, kind, _) in lines {
        steps.push((*worker, *kind))?;
    }
    Ok(steps)
}

fn is_turn_of(line: Option<&Line>, turn: Turn) -> bool {
    match line {
        Some((_, _, wanted)) => *wanted == turn,
        None => false,
    }
}

/// The turns are those of the lines.
fn are_as_wanted(rt: &impl Abort, turns: &[Turn], lines: &[Line]) {
    assert!(rt; turns.len() == lines.len());
    for (at, turn) in turns.iter().enumerate() {
        assert!(rt; is_turn_of(lines.get(at), *turn), "line {at}");
    }
}

/// Drives these steps as one list, and compares what they answer.
pub fn plays<Q: Query, J: Naming>(
    rt: &impl Abort,
    alloc: Global,
    plain: &mut Plain<'_, Q, J>,
    lines: &[Line],
    sink: &mut MemSink,
) -> Result<(), Cause> {
    let steps = steps_of(alloc, lines)?;
    let turns = plain.drive_list(alloc, steps.as_slice(), sink)?;
    are_as_wanted(rt, turns.as_slice(), lines);
    Ok(())
}

/// Drives the steps of each part, and compares what they answer and what is seen then.
fn goes_on<Q: Query, J: Naming>(
    rt: &impl Abort,
    alloc: Global,
    plain: &mut Plain<'_, Q, J>,
    parts: &[Part<'_>],
    sink: &mut MemSink,
) -> Result<(), Cause> {
    for part in parts {
        plays(rt, alloc, plain, part.lines, sink)?;
        assert!(rt; plain.seen().frontier(part.at) == part.frontier);
    }
    Ok(())
}

/// Workers with mailboxes for `depth` messages follow these parts. None of them writes.
pub fn follows<Q: Query, J: Naming>(
    rt: &impl Abort,
    alloc: Global,
    job: &Job<Q>,
    depth: u32,
    parts: &[Part<'_>],
) -> Result<(), Cause>
    requires job { IsRunOf job.now J.job }
    requires pace { J.job.paced ≡ false }
    requires rows { GivesRows (table_of Q.facts J.job) }
{
    let mut sink = MemSink::new(alloc);
    let mut plain = Plain::<Q, J>::open(alloc, job, depth)?;
    goes_on(rt, alloc, &mut plain, parts, &mut sink)?;
    assert!(rt; sink.bytes().is_empty());
    Ok(())
}
