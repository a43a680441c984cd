//! The checks of a line's fields.
ghost use Rattle.std.specs.Prelude.{◌≡◌, ◌+◌, ◌≤◌, ℕ, List, drop, length, take};
ghost use Rattle.mp_lines.specs.Checks.{AnswersChecks, failures_of_fields, numbers_of};

use mp_text::FieldList;

/// How many fields a line has at most after its kind.
pub const MOST_FIELDS: usize = 6;

/// What a field has to be.
pub trait FieldCheck: Copy {
    /// Why a field isn't that.
    type Reason: Drop;

    /// The checks that a field fails, in their order.
    ghost failures: { Self → List ℕ → List Self.Reason };

    /// The number that a field says, or one that stands for a field that says none.
    ghost number: { Self → List ℕ → ℕ };

    /// The number of a field, if the field passes; else the first check that it fails.
    fn read(self, field: &[u8]) -> Result<u64, Self::Reason>
        ensures { AnswersChecks result (failures self field.now) (λ n. n ≡ number self field.now) };
}

/// The numbers of the fields after the kind, in their order, if each field passes its check. `Err`: the first check that
/// fails, from left to right.
pub fn read_numbers<C: FieldCheck>(
    fields: &FieldList,
    checks: &[C],
) -> Result<[u64; MOST_FIELDS], C::Reason>
    requires known { length checks.now ≤ MOST_FIELDS }
    requires same { length fields.now ≡ length checks.now + 1 }
    ensures { let rest = drop 1 fields.now in AnswersChecks result (failures_of_fields C.failures checks.now rest)
        (λ ns. take (length checks.now) ns ≡ numbers_of C.number checks.now rest) }
{
    let mut numbers = [0; MOST_FIELDS];
    for (place, check) in checks.iter().enumerate() {
        let field = fields.get(place + 1).unwrap();
        numbers[place] = check.read(field)?;
    }
    Ok(numbers)
}
