//! The line of a stage.
ghost use Rattle.std.specs.Prelude.{◌≡◌, ◌≤◌, drop, length, take};
ghost use Rattle.mp_lines.specs.Checks.{AnswersChecks, numbers_of};
ghost use Rattle.mp_pipe_file.specs.Fields.{checks_of, failures_within, number_by};
ghost use Rattle.mp_pipe_file.specs.Stages.{stage_by, stage_on, test_on};

use crate::PipeReason;
use crate::fields::StageField;
use crate::kinds::test_of;
use mp_lines::{MOST_FIELDS, NumberLimit, read_numbers};
use mp_pipeline::{Form, StageLine, Test};
use mp_text::FieldList;

const NUMBER: StageField = StageField::Number(NumberLimit::UpTo(1_000_000_000_000_000_000));

const WIDTH: StageField = StageField::Number(NumberLimit::Between(1, 43_200));

/// Reads the fields of a stage's line, whose records have so many fields. `PipeReason`: the first check of its fields that it
/// fails.
pub fn read_stage(
    form: Form,
    record_fields: u64,
    fields: &FieldList,
) -> Result<StageLine, PipeReason>
    ensures { AnswersChecks result (failures_within (checks_of record_fields form) fields.now) (λ line. line ≡ stage_on form fields.now) }
{
    let numbers = read_by_form(form, record_fields, fields)?;
    Ok(stage_by(form, test_on(fields), numbers))
}

// The test that a line says, any where it says none.
fn test_on(fields: &FieldList) -> Test
    ensures { result ≡ test_on fields.now }
{
    match fields.get(4) {
        Some(field) => test_of(field).unwrap_or(Test::Any),
        None => Test::Any,
    }
}

// The numbers of the fields after the form, 0 for the test.
fn read_by_form(
    form: Form,
    record_fields: u64,
    fields: &FieldList,
) -> Result<[u64; MOST_FIELDS], PipeReason>
    ensures { let checks = checks_of record_fields form in AnswersChecks result (failures_within checks fields.now)
        (λ numbers. take (length checks) numbers ≡ numbers_of number_by checks (drop 1 fields.now)) }
{
    let field = StageField::Number(NumberLimit::Below(record_fields));
    match form {
        Form::Window => read_within(
            fields,
            &[field, field, field, StageField::Test, NUMBER, WIDTH],
        ),
        _ => read_within(fields, &[field, field, field, StageField::Test, NUMBER]),
    }
}

// The numbers of the fields after the first, where there is one for each check and it passes that. `Fields`: there are more or fewer.
fn read_within(fields: &FieldList, checks: &[StageField]) -> Result<[u64; MOST_FIELDS], PipeReason>
    requires { length checks.now ≤ 6 }
    ensures { AnswersChecks result (failures_within checks.now fields.now)
        (λ numbers. take (length checks.now) numbers ≡ numbers_of number_by checks.now (drop 1 fields.now)) }
{
    if fields.count() != checks.len() + 1 {
        return Err(PipeReason::Fields);
    }
    read_numbers(fields, checks)
}

// The stage of a form that has this test and these numbers.
fn stage_by(form: Form, test: Test, numbers: [u64; MOST_FIELDS]) -> StageLine
    ensures { result ≡ stage_by form test numbers }
{
    StageLine {
        form,
        key: numbers[0],
        value: numbers[1],
        field: numbers[2],
        test,
        number: numbers[4],
        width: match form {
            Form::Window => numbers[5],
            _ => 1,
        },
    }
}
