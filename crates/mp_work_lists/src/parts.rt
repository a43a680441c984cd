//! The parts of the work of a job.
ghost use Rattle.std.specs.Prelude.{◌≡◌, ◌+◌, ◌<◌, ◌==◌, OnOk, cond, map};
ghost use Rattle.mp_names.specs.declared.locations.Loc.TheVariants.{Source};
ghost use Rattle.mp_player_laws.specs.WorkLeft.{added_below};
ghost use Rattle.mp_outline_lists.specs.Moments.{AreMomentsOf};
ghost use Rattle.mp_work_lists.specs.Parts.{HasMore, control_work, group_work, job_work, move_work, record_work, row_work, stage_work, times_at, work_at_one};

use crate::gathering::add_times;
use crate::times::{
    times_of_controls, times_of_groups, times_of_names, times_of_packets, times_to_settle,
};
use mp_chart::Work;
use mp_names::{Loc, Time};
use mp_outline_lists::{Moment, OutlineLists, moments_at};
use std::alloc::{AllocError, Global};

/// Adds all work of a job. `AllocError`: no memory.
pub(crate) fn add_job<L: OutlineLists>(
    alloc: Global,
    lists: &L,
    moments: &[Vec<Moment>],
    works: &mut Vec<Work>,
) -> Result<(), AllocError>
    requires { AreMomentsOf (L.outline lists.now) (map (λ own. own.items) moments.now) }
    ensures { OnOk result (HasMore (job_work (L.outline lists.now)) works.old.items works.new.items) }
{
    add_controls(alloc, lists, works)?;
    add_stages(alloc, lists, moments, works)?;
    add_rows(alloc, lists, works)?;
    Ok(())
}

// Adds that of the control records. `AllocError`: no memory.
fn add_controls<L: OutlineLists>(
    alloc: Global,
    lists: &L,
    works: &mut Vec<Work>,
) -> Result<(), AllocError>
    ensures { OnOk result (HasMore (control_work (L.outline lists.now)) works.old.items works.new.items) }
{
    lists.are_sound();
    let workers = lists.workers();
    let times = times_of_controls(alloc, lists.controls())?;
    add_times(works, Loc::Ctl, workers, &times)?;
    add_times(works, Loc::CtlMail, workers, &times)?;
    Ok(())
}

// Adds that of the answer rows. `AllocError`: no memory.
fn add_rows<L: OutlineLists>(
    alloc: Global,
    lists: &L,
    works: &mut Vec<Work>,
) -> Result<(), AllocError>
    ensures { OnOk result (HasMore (row_work (L.outline lists.now)) works.old.items works.new.items) }
{
    let times = times_of_names(alloc, lists.rows())?;
    add_times(works, Loc::OutRoute, 1, &times)?;
    add_times(works, Loc::OutMail, 1, &times)?;
    Ok(())
}

// Adds that of all stages. `AllocError`: no memory.
fn add_stages<L: OutlineLists>(
    alloc: Global,
    lists: &L,
    moments: &[Vec<Moment>],
    works: &mut Vec<Work>,
) -> Result<(), AllocError>
    requires { AreMomentsOf (L.outline lists.now) (map (λ own. own.items) moments.now) }
    ensures { let o = L.outline lists.now in
        OnOk result (HasMore (λ a t. added_below o.stages (λ j. stage_work o j a t)) works.old.items works.new.items) }
{
    let stages = lists.stages();
    for stage in 0..stages {
        add_stage(alloc, lists, stage, moments, works)?;
    }
    Ok(())
}

// Adds that of a stage. `AllocError`: no memory.
fn add_stage<L: OutlineLists>(
    alloc: Global,
    lists: &L,
    stage: u32,
    moments: &[Vec<Moment>],
    works: &mut Vec<Work>,
) -> Result<(), AllocError>
    requires stage { stage < (L.outline lists.now).stages }
    requires moments { AreMomentsOf (L.outline lists.now) (map (λ own. own.items) moments.now) }
    ensures { OnOk result (HasMore (stage_work (L.outline lists.now) stage) works.old.items works.new.items) }
{
    add_records(alloc, lists, stage, works)?;
    add_moves(alloc, lists, stage, works)?;
    add_groups(alloc, lists, stage, moments, works)?;
    Ok(())
}

// Adds that of the records of a stage. `AllocError`: no memory.
fn add_records<L: OutlineLists>(
    alloc: Global,
    lists: &L,
    stage: u32,
    works: &mut Vec<Work>,
) -> Result<(), AllocError>
    requires { stage < (L.outline lists.now).stages }
    ensures { OnOk result (HasMore (record_work (L.outline lists.now) stage) works.old.items works.new.items) }
{
    let times = times_of_names(alloc, lists.records(stage))?;
    add_source(works, stage, &times)?;
    add_times(works, Loc::Route(stage), 1, &times)?;
    add_times(works, Loc::Mail(stage), 1, &times)?;
    Ok(())
}

// Adds records of these times that are ingested, where the stage is the first. `AllocError`: no memory.
fn add_source(works: &mut Vec<Work>, stage: u32, times: &[Time]) -> Result<(), AllocError>
    ensures { OnOk result (HasMore (work_at_one Source (λ t. cond (stage == 0) (times_at t times.now) 0)) works.old.items works.new.items) }
{
    if stage > 0 {
        return Ok(());
    }
    add_times(works, Loc::Source, 1, times)?;
    Ok(())
}

// Adds that of the moves of a stage. `AllocError`: no memory.
fn add_moves<L: OutlineLists>(
    alloc: Global,
    lists: &L,
    stage: u32,
    works: &mut Vec<Work>,
) -> Result<(), AllocError>
    ensures { OnOk result (HasMore (move_work (L.outline lists.now) stage) works.old.items works.new.items) }
{
    lists.are_sound();
    let times = times_to_settle(alloc, lists, stage)?;
    let packets = times_of_packets(alloc, lists.packets(), stage)?;
    add_times(works, Loc::Move(stage), lists.workers(), &times)?;
    add_times(works, Loc::Move(stage), 1, &packets)?;
    add_times(works, Loc::State(stage), 1, &packets)?;
    Ok(())
}

// Adds that of the groups of a stage. `AllocError`: no memory.
fn add_groups<L: OutlineLists>(
    alloc: Global,
    lists: &L,
    stage: u32,
    moments: &[Vec<Moment>],
    works: &mut Vec<Work>,
) -> Result<(), AllocError>
    requires stage { stage < (L.outline lists.now).stages }
    requires moments { AreMomentsOf (L.outline lists.now) (map (λ own. own.items) moments.now) }
    ensures { OnOk result (HasMore (group_work (L.outline lists.now) stage) works.old.items works.new.items) }
{
    let times = times_of_groups(alloc, moments_at(moments, stage))?;
    add_times(works, Loc::Host(stage), 1, &times)?;
    Ok(())
}
