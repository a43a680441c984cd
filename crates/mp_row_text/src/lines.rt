//! Rows as lines.
ghost use Rattle.std.specs.Prelude.{◌≡◌, ◌++◌, ◌∷◌, OnOk, map};
ghost use Rattle.std.specs.List.{flat_map};
ghost use Rattle.mp_model.specs.declared.fields.Field.TheVariants.{Number};
ghost use Rattle.mp_model.specs.Answers.{fields_in, line_of, text_of};

use mp_model::{Field, FieldList, Place, Value};
use mp_text::put_number;
use std::alloc::AllocError;

/// Appends the line of a row: its time and its fields, cut by `|`, and a line feed. The form is this project's profile.
/// `AllocError`: no memory.
pub fn put_line(out: &mut Vec<u8>, place: &Place, value: &Value) -> Result<(), AllocError>
    ensures { OnOk result (out.new.items ≡ out.old.items ++ line_of (place.now, value.now)) }
{
    put_number(out, place.time)?;
    put_fields(out, value)?;
    out.push(b'\n')?;
    Ok(())
}

/// Appends the fields of a row, each with a `|` before it; no other value has any.
fn put_fields(out: &mut Vec<u8>, value: &Value) -> Result<(), AllocError>
    ensures { OnOk result (out.new.items ≡ out.old.items ++ flat_map (λ f. 124 ∷ text_of f) (fields_in value.now)) }
{
    let Value::Row(fields) = value else {
        return Ok(());
    };
    match fields.list() {
        FieldList::Numbers(numbers) => put_numbers(out, numbers),
        FieldList::Mixed(fields) => put_mixed(out, fields),
    }
}

/// Appends numbers as fields, each with a `|` before it.
fn put_numbers(out: &mut Vec<u8>, numbers: &[u64]) -> Result<(), AllocError>
    ensures { OnOk result (out.new.items ≡ out.old.items ++ flat_map (λ f. 124 ∷ text_of f) (map Number numbers.now)) }
{
    for number in numbers {
        out.push(b'|')?;
        put_number(out, *number)?;
    }
    Ok(())
}

/// Appends fields, each with a `|` before it.
fn put_mixed(out: &mut Vec<u8>, fields: &[Field]) -> Result<(), AllocError>
    ensures { OnOk result (out.new.items ≡ out.old.items ++ flat_map (λ f. 124 ∷ text_of f) fields.now) }
{
    for field in fields {
        out.push(b'|')?;
        put_field(out, field)?;
    }
    Ok(())
}

/// Appends a field: a number in decimal digits without leading zeros, a name as its bytes.
fn put_field(out: &mut Vec<u8>, field: &Field) -> Result<(), AllocError>
    ensures { OnOk result (out.new.items ≡ out.old.items ++ text_of field.now) }
{
    match field {
        Field::Number(number) => put_number(out, *number),
        Field::Text(name) => out.extend_from_slice(name.as_bytes()),
    }
}
