//! The fields of a stage's line.

use crate::PipeReason;
use crate::kinds::test_of;
use mp_lines::{FieldCheck, NumberLimit};

/// What a field of a stage's line has to be.
#[derive(Clone, Copy)]
pub enum StageField {
    /// A number within this limit.
    Number(NumberLimit),
    /// A test.
    Test,
}

/// A number counts as itself, and a test as 0.
impl FieldCheck for StageField {
    ghost use Rattle.mp_pipe_file.specs.Fields.{failures_of_field, number_by};

    type Reason = PipeReason;

    ghost failures = { failures_of_field };

    ghost number = { number_by };

    fn read(self, field: &[u8]) -> Result<u64, PipeReason> {
        match self {
            StageField::Number(limit) => Ok(limit.read(field)?),
            StageField::Test => {
                if test_of(field).is_none() {
                    return Err(PipeReason::Kind);
                }
                Ok(0)
            }
        }
    }
}
