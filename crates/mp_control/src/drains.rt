//! The lines that drain a worker.
ghost use Rattle.std.specs.Prelude.{◌≡◌, ◌<◌, ◌≤◌, ◌++◌, OnErr, length};
ghost use Rattle.mp_bins.specs.Laws.{AreAllNoted, AreNotesOf};
ghost use Rattle.mp_control.specs.Controls.{numbers_in};
ghost use Rattle.mp_control.specs.Drains.{DrainFits, drain_of, failures_of_drained, limits_of_drain, records_by_drain};
ghost use Rattle.mp_control.specs.Kinds.{failures_within};
ghost use Rattle.mp_control.specs.Read.{AnswersLine};
ghost use Rattle.mp_lines.specs.Checks.{AnswersChecks};
ghost use Rattle.mp_plans.specs.Drains.{last_turn};

use crate::ControlReason;
use crate::kinds::{TIME, numbers_within};
use crate::line::refusal_of;
use mp_bins::Owners;
use mp_job::{Control, Shape};
use mp_lines::{LineRefused, NumberLimit};
use mp_names::Time;
use mp_names::limits::MAX_TIME;
use mp_plans::{drain, owned_bins};
use mp_text::FieldList;

/// A line that drains a worker, by its numbers.
#[derive(Clone, Copy)]
pub struct DrainLine {
    /// When the first bin goes.
    pub time: Time,
    /// How much later each bin goes than the one before it.
    pub gap: Time,
    /// From 0.
    pub stage: u32,
    /// The worker whose bins go, from 0.
    pub worker: u32,
}

/// Reads the fields of a line that drains a worker. `ControlReason`: the first check of its fields that it fails.
pub fn read_drain(shape: Shape, fields: &FieldList) -> Result<DrainLine, ControlReason>
    ensures { AnswersChecks result (failures_within (limits_of_drain shape) fields.now)
        (λ drain. (drain ≡ drain_of (numbers_in fields.now)) × DrainFits shape drain) }
{
    let stage = NumberLimit::Below(u64::from(shape.stages));
    let worker = NumberLimit::Below(u64::from(shape.workers));
    let numbers = numbers_within(fields, &[TIME, TIME, stage, worker])?;
    Ok(DrainLine {
        time: numbers[0],
        gap: numbers[1],
        stage: numbers[2] as u32,
        worker: numbers[3] as u32,
    })
}

impl DrainLine {
    /// Appends its control records, by the owners of the list. `Bad`: exactly where they fail a check, with the first that they
    /// fail; `NoMemory`: an allocation failure.
    pub fn append(
        self,
        owners: &Owners,
        shape: Shape,
        list: &mut Vec<Control>,
    ) -> Result<(), LineRefused<ControlReason>>
        requires shape { owners.now.layout.shape ≡ shape }
        requires fits { DrainFits shape self }
        requires notes { AreNotesOf list.old.items owners.now }
        requires noted { AreAllNoted list.old.items owners.now }
        ensures answer { AnswersLine result
            (failures_of_drained shape (length list.old.items) (records_by_drain owners.now.layout list.old.items self))
            (λ _. list.new.items ≡ list.old.items ++ records_by_drain owners.now.layout list.old.items self) }
        ensures unchanged { OnErr result (list.new.items ≡ list.old.items) }
    {
        let (stage, time, worker) = (self.stage, self.time, self.worker);
        let bins = owned_bins(*list.allocator(), owners, shape, stage, time, worker)?;
        if shape.workers < 2 || self.last_time(bins.len()) > u128::from(MAX_TIME) {
            return Err(LineRefused::Bad(ControlReason::Range));
        }
        match drain(list, owners, shape, time, self.gap, stage, worker) {
            Ok(()) => Ok(()),
            Err(refused) => Err(refusal_of(refused)),
        }
    }

    // The time of the last of so many bins.
    fn last_time(self, bins: usize) -> u128
        ensures { result ≡ last_turn self.time self.gap bins }
    {
        u128::from(self.time) + bins.saturating_sub(1) as u128 * u128::from(self.gap)
    }
}
