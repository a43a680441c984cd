//! The lines of rules.
ghost use Rattle.std.specs.Prelude.{◌≡◌, Some, length};
ghost use Rattle.std.specs.List.{position};
ghost use Rattle.std.specs.Str.{bytes_eq};
ghost use Rattle.mp_control.specs.Values.{failures_of_rule_fields, place_of};
ghost use Rattle.mp_lines.specs.Checks.{AnswersChecks, field_at, number_at};

use crate::ControlReason;
use mp_lines::{FieldCheck, NumberLimit};
use mp_model::{Rule, RuleList};
use mp_text::FieldList;

/// The value of the rule at a place.
#[derive(Clone, Copy)]
pub struct RuleValue {
    pub place: usize,
    pub value: u64,
}

/// Reads the fields of a rule's line. `ControlReason`: the first check of its fields that it fails.
pub fn read_rule(rules: &RuleList, fields: &FieldList) -> Result<RuleValue, ControlReason>
    ensures { AnswersChecks result (failures_of_rule_fields rules.now fields.now)
        (λ said. (place_of rules.now (field_at fields.now 1) ≡ Some said.place) × (said.value ≡ number_at fields.now 2)) }
{
    if fields.count() != 3 {
        return Err(ControlReason::Fields);
    }
    let place = place_of(rules, fields.get(1).unwrap()).ok_or(ControlReason::Name)?;
    let rule = rules.as_slice()[place];
    let limit = NumberLimit::Between(rule.least, rule.greatest);
    let value = limit.read(fields.get(2).unwrap())?;
    Ok(RuleValue { place, value })
}

// The place of the rule of this name, the first of them if there are more.
fn place_of(rules: &RuleList, name: &[u8]) -> Option<usize>
    ensures { result ≡ place_of rules.now name.now }
{
    place_among(rules.as_slice(), name)
}

// The same among these.
fn place_among(rules: &[Rule], name: &[u8]) -> Option<usize>
    ensures { result ≡ position (λ r. bytes_eq r.name.now name.now) rules.now }
{
    rules.iter().position(|rule| rule.name.as_bytes() == name)
}
