//! Fields that are numbers or names.

use crate::{FieldCheck, NumberLimit};
use mp_text::BadNumber;

/// What a field may say. The limits of a file's fields are this project's profile.
#[derive(Clone, Copy)]
pub enum FieldLimit {
    /// A number within this limit.
    NumberWithin(NumberLimit),
    /// A name of at most so many bytes, and one at least.
    NameUpTo(usize),
}

/// Why a field isn't within its limit.
#[derive(Clone, Copy)]
pub enum BadField {
    /// It should say a number, and is none, or one outside the limit.
    Number(BadNumber),
    /// It should be a name, and has no bytes or too many.
    Name,
}

/// A number counts as itself, and a name as 0.
impl FieldCheck for FieldLimit {
    ghost use Rattle.mp_lines.specs.Limits.{failures_of_field, number_by};

    type Reason = BadField;

    ghost failures = { failures_of_field };

    ghost number = { number_by };

    fn read(self, field: &[u8]) -> Result<u64, BadField> {
        match self {
            FieldLimit::NumberWithin(limit) => limit.read(field).map_err(BadField::Number),
            FieldLimit::NameUpTo(most) => {
                if field.is_empty() || field.len() > most {
                    return Err(BadField::Name);
                }
                Ok(0)
            }
        }
    }
}
