//! What workers do with some kinds of their steps.
ghost use Rattle.std.specs.Prelude.{◌≡◌, ◌<◌, [], false, true, Some, None, IfOk, get_or, map, slice_get};
ghost use Rattle.mp_names.specs.declared.kinds.Kind.TheVariants.{Extract, SendControl};
ghost use Rattle.mp_chart.specs.declared.entry.Entry.{Entry};
ghost use Rattle.mp_step_lists.specs.Controls.{IsLatestBelow};
ghost use Rattle.mp_step_lists.specs.Tables.{TellsSteps, list_at};

use crate::controls::{controls_to_send, latest_below};
use crate::packets::packets_to_send;
use crate::times::{answer_times, control_times};
use mp_chart::Entry;
use mp_names::{Kind, Time};
use mp_outline_lists::OutlineLists;
use mp_parted::{By, parted};
use std::alloc::{AllocError, Global};
use std::marker::Model;

/// What the workers of a job do with their steps that take in, send control records and packets, settle and write. Contracts see
/// a `StepTables`.
#[derive(Drop)]
pub struct StepLists {
    paced: bool,
    // By worker.
    shares: Vec<Vec<Entry>>,
    // Those of worker 0, which sends all.
    controls: Vec<Entry>,
    // By stage and worker.
    packets: Vec<Vec<Vec<Entry>>>,
    // By stage, the same for all workers.
    times: Vec<Vec<Entry>>,
    written: Vec<Entry>,
}

impl Model for StepLists {
    ghost use Rattle.std.specs.Prelude.{◌≡◌, map, true};
    ghost use Rattle.std.specs.List.Sorted.{IsNonDecreasingBy};
    ghost use Rattle.mp_step_lists.specs.Tables.{StepTables};

    ghost Value = { StepTables };

    ghost view = { λ s. record {
      paced = s.paced;
      shares = map (λ list. list.items) s.shares.items;
      controls = s.controls.items;
      packets = map (λ row. map (λ list. list.items) row.items) s.packets.items;
      times = map (λ list. list.items) s.times.items;
      written = s.written.items;
    } };

    ghost invariant = { λ s. s.paced ≡ true → IsNonDecreasingBy (λ e. e.time) s.controls.items };
}

impl StepLists {
    /// Those of a job. `AllocError`: no memory.
    pub fn of<L: OutlineLists>(alloc: Global, lists: &L) -> Result<StepLists, AllocError>
        ensures { IfOk result (λ steps. TellsSteps (L.outline lists.now) steps) }
    {
        lists.are_sound();
        Ok(StepLists {
            paced: lists.is_paced(),
            shares: parted(alloc, lists, By::Sender, lists.records(0))?,
            controls: controls_to_send(alloc, lists)?,
            packets: packets_to_send(alloc, lists)?,
            times: control_times(alloc, lists)?,
            written: answer_times(alloc, lists)?,
        })
    }

    /// What a worker does with its steps of a kind, in this order; nothing, where the kind isn't one of these.
    pub fn list(&self, worker: u32, kind: Kind) -> &[Entry]
        ensures { result.now ≡ list_at self.now worker kind }
    {
        match kind {
            Kind::Ingest => list_in(&self.shares, worker),
            Kind::SendControl => self.controls_of(worker),
            Kind::Extract(stage) => self.packets_of(worker, stage),
            Kind::Settle(stage) => list_in(&self.times, stage),
            Kind::Write => self.written.as_slice(),
            _ => &[],
        }
    }

    // The control records that a worker sends: worker 0 sends all.
    fn controls_of(&self, worker: u32) -> &[Entry]
        ensures { result.now ≡ list_at self.now worker SendControl }
    {
        if worker == 0 {
            self.controls.as_slice()
        } else {
            &[]
        }
    }

    // The packets of a stage that a worker sends.
    fn packets_of(&self, worker: u32, stage: u32) -> &[Entry]
        ensures { result.now ≡ list_at self.now worker (Extract stage) }
    {
        match self.packets.get(stage as usize) {
            Some(row) => list_in(row, worker),
            None => &[],
        }
    }

    /// The latest of the control times below that of the control record at a place, in a paced job; `None`, where there is none, and
    /// in another job.
    pub fn pace(&self, place: usize) -> Option<Time>
        ensures paced { self.now.paced ≡ true → (e : Entry) → slice_get self.now.controls place ≡ Some e → IsLatestBelow self.now.controls e.time result }
        ensures not_paced { self.now.paced ≡ false → result ≡ None }
    {
        if self.paced {
            latest_below(&self.controls, place)
        } else {
            None
        }
    }
}

// The list at a place; nothing, where there is none.
fn list_in(lists: &Vec<Vec<Entry>>, place: u32) -> &[Entry]
    ensures { result.now ≡ get_or (map (λ list. list.items) lists.now.items) place [] }
{
    match lists.get(place as usize) {
        Some(list) => list.as_slice(),
        None => &[],
    }
}
