//! What the lines of a configuration said so far.
ghost use Rattle.std.specs.Prelude.{◌≡◌, ◌<◌, ◌≤◌, IfOk, length};
ghost use Rattle.mp_bins.specs.Laws.{AreAllNoted};
ghost use Rattle.mp_bins.specs.Notes.{FirstFits};
ghost use Rattle.mp_control.specs.Controls.{failures_of, numbers_in};
ghost use Rattle.mp_control.specs.Drains.{AreListOwners, failures_of_drain};
ghost use Rattle.mp_control.specs.Firsts.{failures_of_first, first_of};
ghost use Rattle.mp_control.specs.Kinds.{failures_within};
ghost use Rattle.mp_control.specs.Read.{AnswersLine};
ghost use Rattle.mp_control.specs.SettingKinds.{limits_of_version};
ghost use Rattle.mp_control.specs.Values.{failures_of_rule};
ghost use Rattle.mp_lines.specs.Checks.{AnswersChecks};

use crate::drains::read_drain;
use crate::firsts::{FirstList, read_first};
use crate::kinds::numbers_within;
use crate::line::read_line;
use crate::list_owners::ListOwners;
use crate::rule_lines::read_rule;
use crate::setting_kinds::SettingKind;
use crate::values::MOST_RULES;
use crate::{ControlReason, Settings, ValueList};
use mp_job::{Control, Shape};
use mp_lines::{LineRefused, NumberLimit};
use mp_model::RuleList;
use mp_names::First;
use mp_text::FieldList;
use std::alloc::{AllocError, Global};
use std::marker::Model;

/// What the lines said so far. Contracts see a `Said`.
#[derive(Drop)]
pub struct SaidSoFar {
    firsts: FirstList,
    values: [Option<u64>; MOST_RULES],
    controls: Vec<Control>,
    // The owners by the control records, kept from the first line on that drains a worker.
    owners: Option<ListOwners>,
    version: u64,
    begun: bool,
    late: bool,
}

impl Model for SaidSoFar {
    ghost use Rattle.std.specs.Prelude.{◌<◌, All};
    ghost use Rattle.mp_bins.specs.Notes.{FirstFits};
    ghost use Rattle.mp_control.specs.Drains.{MayBeKept};
    ghost use Rattle.mp_control.specs.Settings.{Said};
    ghost use Rattle.mp_job.specs.Legal.{ControlsFit};

    ghost Value = { Said };

    ghost view = { λ s. record {
      shape = s.firsts.shape;
      version = s.version;
      begun = s.begun;
      late = s.late;
      firsts = s.firsts.firsts;
      values = s.values;
      controls = s.controls.items;
    } };

    ghost invariant = { λ s.
        (0 < s.firsts.shape.workers)
        × (0 < s.firsts.shape.bins)
        × All (FirstFits s.firsts.shape) s.firsts.firsts
        × ControlsFit s.firsts.shape s.controls.items
        × MayBeKept s.firsts s.controls.items s.late s.owners };
}

impl SaidSoFar {
    ghost use Rattle.mp_control.specs.Settings.{failures_by, kind_behind, layout_in, nothing_said, said_by, settings_by, settings_in, with_controls, with_drain, with_first, with_rule, with_version};

    /// Nothing, for a job of this shape. `AllocError`: no memory.
    pub fn new(alloc: Global, shape: Shape) -> Result<SaidSoFar, AllocError>
        requires workers { 0 < shape.workers }
        requires bins { 0 < shape.bins }
        ensures { IfOk result (λ said. said ≡ nothing_said shape) }
    {
        Ok(SaidSoFar {
            firsts: FirstList::new(alloc, shape)?,
            values: [None, None],
            controls: Vec::new(alloc),
            owners: None,
            version: 1,
            begun: false,
            late: false,
        })
    }

    /// Adds what a line says. `Bad`: exactly where the line fails a check, with the first that it fails; `NoMemory`: an
    /// allocation failure.
    pub fn add(
        &mut self,
        alloc: Global,
        rules: &RuleList,
        fields: &FieldList,
    ) -> Result<(), LineRefused<ControlReason>>
        requires { length rules.now ≤ MOST_RULES }
        ensures { let kind = kind_behind self.old fields.now in
            AnswersLine result (failures_by rules.now self.old kind fields.now) (λ _. self.new ≡ said_by rules.now self.old kind fields.now) }
    {
        match SettingKind::of(fields, self.begun, self.version) {
            SettingKind::Version => self.add_version(fields).map_err(LineRefused::Bad),
            SettingKind::First => self.add_first(fields),
            SettingKind::Rule => self.add_rule(rules, fields).map_err(LineRefused::Bad),
            SettingKind::Drain => self.add_drain(alloc, fields),
            SettingKind::Control => self.add_controls(fields),
        }
    }

    // Adds the version of the file.
    fn add_version(&mut self, fields: &FieldList) -> Result<(), ControlReason>
        ensures { AnswersChecks result (failures_within limits_of_version fields.now) (λ _. self.new ≡ with_version self.old fields.now) }
    {
        let numbers = numbers_within(fields, &[NumberLimit::Between(1, 2)])?;
        self.version = numbers[0];
        self.begun = true;
        Ok(())
    }

    // Adds a first owner.
    fn add_first(&mut self, fields: &FieldList) -> Result<(), LineRefused<ControlReason>>
        ensures { AnswersLine result (failures_of_first self.old.shape self.old.late self.old.firsts fields.now)
            (λ _. self.new ≡ with_first self.old fields.now) }
    {
        let first = self.first_on(fields).map_err(LineRefused::Bad)?;
        self.firsts.push(first)?;
        self.begun = true;
        Ok(())
    }

    // The first owner that a line says, if it fails no check.
    fn first_on(&self, fields: &FieldList) -> Result<First, ControlReason>
        ensures { AnswersChecks result (failures_of_first self.now.shape self.now.late self.now.firsts fields.now)
            (λ first. (first ≡ first_of (numbers_in fields.now)) × FirstFits self.now.shape first) }
    {
        let first = read_first(self.firsts.shape(), fields)?;
        if self.late {
            return Err(ControlReason::Late);
        }
        if self.firsts.has(first.stage, first.bin) {
            return Err(ControlReason::Twice);
        }
        Ok(first)
    }

    // Adds the value of a rule.
    fn add_rule(&mut self, rules: &RuleList, fields: &FieldList) -> Result<(), ControlReason>
        requires { length rules.now ≤ MOST_RULES }
        ensures { AnswersChecks result (failures_of_rule rules.now self.old.late self.old.values fields.now)
            (λ _. self.new ≡ with_rule rules.now self.old fields.now) }
    {
        let said = read_rule(rules, fields)?;
        if self.late {
            return Err(ControlReason::Late);
        }
        if self.values[said.place].is_some() {
            return Err(ControlReason::Twice);
        }
        self.values[said.place] = Some(said.value);
        self.begun = true;
        Ok(())
    }

    // Adds control records.
    fn add_controls(&mut self, fields: &FieldList) -> Result<(), LineRefused<ControlReason>>
        ensures { AnswersLine result (failures_of self.old.shape (length self.old.controls) fields.now)
            (λ _. self.new ≡ with_controls self.old fields.now) }
    {
        let shape = self.firsts.shape();
        let line = match read_line(shape, fields) {
            Ok(line) => line,
            Err(why) => return Err(LineRefused::Bad(why)),
        };
        line.append(shape, &mut self.controls)?;
        self.late = true;
        self.begun = true;
        Ok(())
    }

    // Adds the control records of a line that drains a worker.
    fn add_drain(
        &mut self,
        alloc: Global,
        fields: &FieldList,
    ) -> Result<(), LineRefused<ControlReason>>
        ensures { AnswersLine result (failures_of_drain (layout_in self.old) self.old.controls fields.now)
            (λ _. self.new ≡ with_drain self.old fields.now) }
    {
        let shape = self.firsts.shape();
        let drain = match read_drain(shape, fields) {
            Ok(drain) => drain,
            Err(why) => return Err(LineRefused::Bad(why)),
        };
        let kept = self.take_owners(alloc)?;
        drain.append(&kept.owners, shape, &mut self.controls)?;
        self.owners = Some(kept);
        self.late = true;
        self.begun = true;
        Ok(())
    }

    // The owners by all control records so far, which aren't kept any more then. `AllocError`: no memory.
    fn take_owners(&mut self, alloc: Global) -> Result<ListOwners, AllocError>
        requires { 0 < self.old.shape.stages }
        ensures same { self.new ≡ self.old }
        ensures owners { IfOk result (AreListOwners (layout_in self.old) self.old.controls) }
        ensures all { IfOk result (λ kept. AreAllNoted self.old.controls kept.owners) }
    {
        let mut kept = match self.owners.take() {
            Some(kept) => kept,
            None => ListOwners::new(alloc, self.firsts.shape(), self.firsts.as_slice())?,
        };
        kept.note_more(self.controls.as_slice())?;
        Ok(kept)
    }

    /// The settings of a job whose query has these rules.
    pub fn into_settings(self, rules: &RuleList) -> Settings
        requires { length rules.now ≤ MOST_RULES }
        ensures { settings_in result ≡ settings_by rules.now self }
    {
        Settings {
            values: ValueList::by(rules, self.values),
            firsts: self.firsts.into_firsts(),
            controls: self.controls,
        }
    }
}
