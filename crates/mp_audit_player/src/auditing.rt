//! The audit of a journal over a chart.
ghost use Rattle.std.specs.Prelude.{◌≡◌, ◌<◌, ◌^◌, Err, IfOk, length, map};
ghost use Rattle.mp_names.specs.Outlines.{OutlineIsSound};
ghost use Rattle.mp_audit.specs.Going.{HasLegalMerge, HasNone};
ghost use Rattle.mp_audit.specs.Lists.{list_of};
ghost use Rattle.mp_audit.specs.declared.searching.AuditStop.TheVariants.{NoRun};

use crate::playing::Player;
use crate::starting::start;
use mp_audit::{AuditStop, Kept, search};
use mp_chart::Chart;
use std::alloc::Global;

/// Searches for a legal merge of a journal's steps, of the job that the chart tells and mailboxes of this depth: how many steps it
/// has. `NoRun`: the journal has no legal merge. `NoMemory`: no memory, or more steps than a u64 counts.
pub fn audit<C: Chart + Drop>(
    alloc: Global,
    chart: C,
    depth: u32,
    journal: &[Vec<Kept>],
) -> Result<u64, AuditStop>
    requires sound { OutlineIsSound (C.outline chart) }
    requires few { length journal.now < 2 ^ 32 }
    ensures found { let lists = map (λ v. v.items) journal.now in
        IfOk result (λ n. HasLegalMerge (C.outline chart) depth (list_of lists) n) }
    ensures none { let lists = map (λ v. v.items) journal.now in
        result ≡ Err NoRun → HasNone (C.outline chart) depth (list_of lists) }
{
    let Ok(state) = start(alloc, &chart) else {
        return Err(AuditStop::NoMemory);
    };
    let mut player = Player {
        chart,
        depth,
        state,
    };
    search(alloc, &mut player, journal)
}
