//! Numbers and names, and the byte that ends each.
ghost use Rattle.std.specs.Prelude.{◌≡◌, IfSome, IsTrue};
ghost use Rattle.std.specs.Str.Lines.{strip_carriage_return};
ghost use Rattle.mp_events.specs.Usual.{BeginsWithName, BeginsWithNumber};
ghost use Rattle.mp_model.specs.Legal.{IsName};

use mp_names::limits::MAX_NAME;

// So many digits are worth less than 10^18, which a `u64` holds.
const MOST_DIGITS: usize = 18;

/// A number at the beginning of a text.
#[derive(Clone, Copy)]
pub struct FoundNumber<'a> {
    /// It.
    pub value: u64,
    /// What follows the byte that ends it.
    pub rest: &'a [u8],
}

/// A name at the beginning of a text.
#[derive(Clone, Copy)]
pub struct FoundName<'a> {
    /// Its bytes.
    pub name: &'a [u8],
    /// What follows the byte that ends it.
    pub rest: &'a [u8],
}

/// The number that a text begins with, if it has few digits, this byte ends it and it is at most `greatest`.
// The loop's bound is fixed, so that the compiler writes it out.
pub fn number_before<'a>(text: &'a [u8], end: u8, greatest: u64) -> Option<FoundNumber<'a>>
    ensures { IfSome result (λ found. BeginsWithNumber text.now end greatest found.value found.rest.now) }
{
    let mut value = 0u64;
    for place in 0..=MOST_DIGITS {
        if place == text.len() {
            return None;
        }
        let byte = text[place];
        if byte.is_ascii_digit() {
            value = value.wrapping_mul(10).wrapping_add(u64::from(byte - b'0'));
        } else if byte == end && 0 < place && value <= greatest {
            let rest = &text[place + 1..];
            return Some(FoundNumber { value, rest });
        } else {
            return None;
        }
    }
    None
}

/// The name that a text begins with, if it isn't too long, this byte ends it, a `|` or a line feed, and no carriage return
/// stands before that.
pub fn name_before<'a>(text: &'a [u8], end: u8) -> Option<FoundName<'a>>
    ensures { IfSome result (λ found. BeginsWithName text.now end found.name.now found.rest.now) }
{
    for (place, byte) in text.iter().enumerate() {
        if *byte == b'|' || *byte == b'\n' {
            let name = &text[..place];
            if *byte == end && ends_well(name) {
                let rest = &text[place + 1..];
                return Some(FoundName { name, rest });
            }
            return None;
        }
    }
    None
}

// Whether bytes are as many as a name has, and no carriage return ends them.
fn ends_well(name: &[u8]) -> bool
    ensures named { IsTrue result → IsName name.now }
    ensures stays { IsTrue result → strip_carriage_return name.now ≡ name.now }
{
    match name {
        [.., last] => *last != b'\r' && name.len() <= MAX_NAME,
        [] => false,
    }
}
