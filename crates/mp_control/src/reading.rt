//! The settings of a whole file.
ghost use Rattle.std.specs.Prelude.{◌≡◌, ◌<◌, ◌≤◌, true, Ok, Err, IfOk, IfErr, length};
ghost use Rattle.mp_control.specs.Settings.{settings_in, settings_of};
ghost use Rattle.mp_job.specs.Legal.{ControlsFit, FirstsFit};
ghost use Rattle.mp_lines.specs.Refusals.{IfBadLine};
ghost use Rattle.mp_model.specs.Rules.{are_within, given_values};
ghost use Rattle.mp_control.specs.declared.values.TheConstants.{MOST_RULES};

use crate::said::SaidSoFar;
use crate::{ControlReason, ControlRefused, MOST_RULES, Settings};
use mp_job::Shape;
use mp_lines::{LineReader, LineRefused, read_lines};
use mp_model::RuleList;
use mp_text::FieldList;
use std::alloc::Global;

/// What a configuration file says for a job of this shape, whose query has these rules: what each line says that isn't blank.
/// A control record's place in the list is its index. Times may come in any order. The shape has a worker and a bin at
/// least, and there are at most two rules, whose given values are within them.
///
/// `BadLine` comes exactly where a line fails a check, with the number of the first such line and the first check that
/// it fails. `NoMemory` is an allocation failure alone.
pub fn read_settings(
    alloc: Global,
    text: &[u8],
    shape: &Shape,
    rules: &RuleList,
) -> Result<Settings, ControlRefused>
    requires workers { 0 < shape.now.workers }
    requires bins { 0 < shape.now.bins }
    requires few { length rules.now ≤ MOST_RULES }
    requires given { are_within rules.now (given_values rules.now) ≡ true }
    ensures settings { IfOk result (λ s. settings_of text.now shape.now rules.now ≡ Ok (settings_in s)) }
    ensures firsts { IfOk result (λ s. FirstsFit shape.now s.firsts.items) }
    ensures values { IfOk result (λ s. are_within rules.now s.values ≡ true) }
    ensures controls { IfOk result (λ s. ControlsFit shape.now s.controls.items) }

    ensures bad_line { IfErr result (λ refused.
        IfBadLine refused (λ line why. settings_of text.now shape.now rules.now ≡ Err (line, why))) }
{
    let start = SaidSoFar::new(alloc, *shape)?;
    let said = read_lines(alloc, &SettingReader { rules }, start, text)?;
    Ok(said.into_settings(rules))
}

/// What the lines of a configuration say for a job whose query has these rules.
#[derive(Drop)]
struct SettingReader<'a> {
    rules: &'a RuleList,
    ghost few: { length rules.now ≤ MOST_RULES },
}

impl LineReader for SettingReader<'_> {
    ghost use Rattle.mp_control.specs.Settings.{setting_rules};

    type State = SaidSoFar;

    type Reason = ControlReason;

    ghost rules = { λ reader. setting_rules reader.rules.now };

    fn read(
        &self,
        alloc: Global,
        fields: &FieldList,
        said: &mut SaidSoFar,
    ) -> Result<(), LineRefused<ControlReason>> {
        said.add(alloc, self.rules, fields)
    }
}
