//! Reading and writing numbers.
ghost use Rattle.std.specs.Prelude.{◌≡◌, ◌≤◌, ◌++◌, IsTrue, OnOk, OnErr, length};
ghost use Rattle.std.specs.Char.{is_ascii_digit};
ghost use Rattle.std.specs.Fmt.{decimal};
ghost use Rattle.std.specs.List.{list_all};
ghost use Rattle.std.specs.Option.{SomeIff};
ghost use Rattle.std.specs.Str.Parse.{AllDigits};
ghost use Rattle.mp_text.specs.declared.numbers.TheConstants.{DIGITS_THAT_FIT};
ghost use Rattle.mp_text.specs.Numbers.{is_number, number_of, value_of};

use itoa::write_digits;
use std::alloc::AllocError;
use std::error::Error;
use std::fmt;

/// What is wrong with a text that should say a number.
#[derive(Clone, Copy, Debug)]
pub enum BadNumber {
    /// It is empty, or has a byte that is no digit.
    Digits,
    /// It is digits alone, and their value is above the greatest that is allowed.
    Range,
}

impl fmt::Display for BadNumber {
    fn fmt<W: fmt::Write>(&self, f: &mut fmt::Formatter<W>) -> fmt::Result {
        f.write_str(match self {
            BadNumber::Digits => "not a number",
            BadNumber::Range => "number out of range",
        })
    }
}

impl Error for BadNumber {}

/// The greatest `u64` has so many digits.
const MOST_DIGITS: usize = 20;

/// A text of so many digits, or of fewer, is worth less than 10^19, which a `u64` holds.
const DIGITS_THAT_FIT: usize = 19;

/// The number that `text` says in decimal digits, of which any count may be leading zeros.
///
/// `Digits` comes exactly where `text` is empty or has a byte other than `0` to `9`, and `Range`
/// exactly where it is digits alone that are worth more than `max`.
pub fn number(text: &[u8], max: u64) -> Result<u64, BadNumber>
    ensures { result ≡ number_of text.now max }
{
    if text.len() > DIGITS_THAT_FIT {
        return number_of_any_length(text, max);
    }
    match value_that_fits(text) {
        Some(value) if value <= max => Ok(value),
        Some(_) => Err(BadNumber::Range),
        None => Err(BadNumber::Digits),
    }
}

/// What a text of few bytes is worth, or `None` where it is empty or has a byte that is no digit.
fn value_that_fits(text: &[u8]) -> Option<u64>
    requires { length text.now ≤ DIGITS_THAT_FIT }
    ensures { SomeIff result (IsTrue (is_number text.now)) (value_of text.now) }
{
    if text.is_empty() {
        return None;
    }
    let mut value = 0u64;
    for byte in text {
        if !byte.is_ascii_digit() {
            return None;
        }
        value = value * 10 + u64::from(*byte - b'0');
    }
    Some(value)
}

/// As [`number`], whatever the length of the text.
fn number_of_any_length(text: &[u8], max: u64) -> Result<u64, BadNumber>
    ensures { result ≡ number_of text.now max }
{
    if !is_digits(text) {
        return Err(BadNumber::Digits);
    }
    value_within(text, max).ok_or(BadNumber::Range)
}

/// Whether `text` is one or more digits.
fn is_digits(text: &[u8]) -> bool
    ensures { result ≡ is_number text.now }
{
    !text.is_empty() && all_digits(text)
}

/// Whether `text` has no byte but digits.
fn all_digits(text: &[u8]) -> bool
    ensures { result ≡ list_all is_ascii_digit text.now }
{
    text.iter().all(|byte| byte.is_ascii_digit())
}

/// What digits are worth, or `None` where that is above `max`.
fn value_within(digits: &[u8], max: u64) -> Option<u64>
    requires { AllDigits 10 digits.now }
    ensures { SomeIff result (value_of digits.now ≤ max) (value_of digits.now) }
{
    let mut value = 0u64;
    for digit in digits {
        value = value
            .checked_mul(10)?
            .checked_add(u64::from(*digit - b'0'))?;
        if value > max {
            return None;
        }
    }
    Some(value)
}

/// Appends the decimal text of `n`, without leading zeros. Where there is no memory for it, `out`
/// stays as it was. `AllocError`: no memory.
pub fn put_number(out: &mut Vec<u8>, n: u64) -> Result<(), AllocError>
    ensures written { OnOk result (out.new.items ≡ out.old.items ++ decimal n) }
    ensures unchanged { OnErr result (out.new.items ≡ out.old.items) }
{
    let mut buffer = [0; MOST_DIGITS];
    let start = write_digits(n, &mut buffer, MOST_DIGITS);
    out.extend_from_slice(&buffer[start..])
}
