//! The first owners that lines say.
ghost use Rattle.std.specs.Prelude.{◌≡◌, ◌<◌, ◌+◌, ◌*◌, ◌++◌, ◌∷◌, [], IfOk, OnErr, OnOk};
ghost use Rattle.mp_bins.specs.Notes.{FirstFits};
ghost use Rattle.mp_control.specs.Controls.{numbers_in};
ghost use Rattle.mp_control.specs.Firsts.{first_of, has_first, limits_of_first};
ghost use Rattle.mp_control.specs.Kinds.{failures_within};
ghost use Rattle.mp_lines.specs.Checks.{AnswersChecks};

use crate::ControlReason;
use crate::kinds::numbers_within;
use mp_job::Shape;
use mp_lines::NumberLimit;
use mp_names::First;
use mp_text::FieldList;
use std::alloc::{AllocError, Global};
use std::marker::Model;

/// Reads the fields of a line of a first owner. `ControlReason`: the first check of its fields that it fails.
pub fn read_first(shape: Shape, fields: &FieldList) -> Result<First, ControlReason>
    ensures { AnswersChecks result (failures_within (limits_of_first shape) fields.now)
        (λ first. (first ≡ first_of (numbers_in fields.now)) × FirstFits shape first) }
{
    let stage = NumberLimit::Below(u64::from(shape.stages));
    let bin = NumberLimit::Below(u64::from(shape.bins));
    let worker = NumberLimit::Below(u64::from(shape.workers));
    let numbers = numbers_within(fields, &[stage, bin, worker])?;
    Ok(First {
        stage: numbers[0] as u32,
        bin: numbers[1] as u32,
        worker: numbers[2] as u32,
    })
}

/// First owners in a job of a shape, with a mark for each bin that has one. Contracts see a `Layout`.
#[derive(Drop)]
pub struct FirstList {
    shape: Shape,
    firsts: Vec<First>,
    // By stage and bin.
    marks: Vec<bool>,
}

impl Model for FirstList {
    ghost use Rattle.mp_bins.specs.Notes.{Layout};
    ghost use Rattle.mp_control.specs.Firsts.{AreMarked};

    ghost Value = { Layout };

    ghost view = { λ l. record { shape = l.shape; firsts = l.firsts.items } };

    ghost invariant = { λ l. AreMarked l.shape l.firsts.items l.marks.items };
}

impl FirstList {
    /// None, in a job of this shape. `AllocError`: no memory.
    pub fn new(alloc: Global, shape: Shape) -> Result<FirstList, AllocError>
        ensures { IfOk result (λ list. list ≡ record { shape = shape; firsts = [] }) }
    {
        let bins = shape.stages as usize * shape.bins as usize;
        Ok(FirstList {
            shape,
            firsts: Vec::new(alloc),
            marks: vec![in alloc; false; bins]?,
        })
    }

    /// How many workers, bins and stages the job has.
    pub fn shape(&self) -> Shape
        ensures { result ≡ self.now.shape }
    {
        self.shape
    }

    /// They, in their order.
    pub fn as_slice(&self) -> &[First]
        ensures { result.now ≡ self.now.firsts }
    {
        self.firsts.as_slice()
    }

    /// Whether one of them is that of this bin of this stage.
    pub fn has(&self, stage: u32, bin: u32) -> bool
        requires stage { stage < self.now.shape.stages }
        requires bin { bin < self.now.shape.bins }
        ensures { result ≡ has_first self.now.firsts stage bin }
    {
        self.marks[place_in(self.shape, stage, bin)]
    }

    /// Adds one. `AllocError`: no memory, and none is added.
    pub fn push(&mut self, first: First) -> Result<(), AllocError>
        requires { FirstFits self.old.shape first }
        ensures added { OnOk result (self.new ≡ record { shape = self.old.shape; firsts = self.old.firsts ++ first ∷ [] }) }
        ensures unchanged { OnErr result (self.new ≡ self.old) }
    {
        let place = place_in(self.shape, first.stage, first.bin);
        self.firsts.push(first)?;
        self.marks[place] = true;
        Ok(())
    }

    /// They, in their order.
    pub fn into_firsts(self) -> Vec<First>
        ensures { result.items ≡ self.firsts }
    {
        self.firsts
    }
}

// The place of a bin of a stage among the bins of all stages.
fn place_in(shape: Shape, stage: u32, bin: u32) -> usize
    ensures { result ≡ stage * shape.bins + bin }
{
    stage as usize * shape.bins as usize + bin as usize
}
