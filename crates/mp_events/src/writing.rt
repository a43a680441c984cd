//! Events as lines.
ghost use Rattle.std.specs.Prelude.{◌≡◌, ◌++◌, ◌∷◌, OnErr, OnOk};
ghost use Rattle.std.specs.Fmt.{decimal};
ghost use Rattle.std.specs.List.{flat_map, join_with_byte};
ghost use Rattle.mp_events.specs.Written.{line_of_event, written_fields};

use mp_model::{Event, Value};
use mp_text::put_number;
use std::alloc::AllocError;

/// Appends the line of an event: its kind, its time, and its numbers and names, cut by `|`, and a line feed. Numbers have no
/// leading zeros. `AllocError`: no memory, and nothing is appended.
pub fn write_event(out: &mut Vec<u8>, event: &Event) -> Result<(), AllocError>
    ensures written { OnOk result (out.new.items ≡ out.old.items ++ line_of_event event.now) }
    ensures unchanged { OnErr result (out.new.items ≡ out.old.items) }
{
    let mut line = Vec::new(*out.allocator());
    put_fields(&mut line, event)?;
    line.push(b'\n')?;
    out.extend_from_slice(line.as_slice())
}

// Appends the fields of an event, cut by `|`; what is no event has none.
fn put_fields(line: &mut Vec<u8>, event: &Event) -> Result<(), AllocError>
    ensures { OnOk result (line.new.items
        ≡ line.old.items ++ join_with_byte 124 (written_fields event.now.time event.now.value)) }
{
    match &event.value {
        Value::Person {
            id,
            name,
            city,
            state,
        } => {
            line.push(b'P')?;
            put_numbers(line, &[event.time, *id])?;
            put_name(line, name.as_bytes())?;
            put_name(line, city.as_bytes())?;
            put_name(line, state.as_bytes())
        }
        Value::Auction {
            id,
            seller,
            category,
            reserve,
            expires,
        } => {
            line.push(b'A')?;
            let numbers = [event.time, *id, *seller, *category, *reserve, *expires];
            put_numbers(line, &numbers)
        }
        Value::Bid {
            auction,
            bidder,
            price,
        } => {
            line.push(b'B')?;
            put_numbers(line, &[event.time, *auction, *bidder, *price])
        }
        _ => Ok(()),
    }
}

// Appends numbers, each after a `|`.
fn put_numbers(line: &mut Vec<u8>, numbers: &[u64]) -> Result<(), AllocError>
    ensures { OnOk result (line.new.items ≡ line.old.items ++ flat_map (λ n. 124 ∷ decimal n) numbers.now) }
{
    for number in numbers {
        line.push(b'|')?;
        put_number(line, *number)?;
    }
    Ok(())
}

// Appends a name after a `|`.
fn put_name(line: &mut Vec<u8>, name: &[u8]) -> Result<(), AllocError>
    ensures { OnOk result (line.new.items ≡ line.old.items ++ 124 ∷ name.now) }
{
    line.push(b'|')?;
    line.extend_from_slice(name)
}
