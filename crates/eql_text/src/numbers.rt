//! Numbers read from texts.
ghost use Rattle.std.specs.Prelude.{◌≡◌, ◌≤◌, ◌-◌, ◌^◌, min};
ghost use Rattle.std.specs.Option.{option_map};
ghost use Rattle.std.specs.Str.{chars};
ghost use Rattle.eql_text.specs.Numbers.{numeral, positive, negative, parse_long, parse_number, read_number, capped_number};

use crate::walk::{first_char, strip};
use eql_values::Text;

/// What a text says as a whole number of 64 signed bits.
#[derive(Clone, Copy, Debug, PartialEq, Eq)]
pub enum LongRead {
    /// This number.
    Long(i64),
    /// A number outside 64 signed bits.
    Range,
    /// No number.
    NoLong,
}

impl LongRead {
    ghost use Rattle.eql_text.specs.Numbers.{long_in};

    /// The number, if there is one.
    pub fn long(self) -> Option<i64>
        ensures { result ≡ long_in self }
    {
        match self {
            LongRead::Long(number) => Some(number),
            LongRead::Range | LongRead::NoLong => None,
        }
    }
}

/// The number that digits of a base write, held at the greatest `u64`. `None` where the text is no numeral.
pub fn numeral(text: &str, base: u32) -> Option<u64>
    requires least { 2 ≤ base }
    requires most { base ≤ 36 }
    ensures { result ≡ option_map capped_number (numeral base (chars text.now)) }
{
    let (first, mut rest) = first_char(text)?;
    let mut value = u64::from(first.to_digit(base)?);
    while let Some((c, next)) = first_char(rest) {
        let digit = c.to_digit(base)?;
        value = value
            .saturating_mul(u64::from(base))
            .saturating_add(u64::from(digit));
        rest = next;
    }
    Some(value)
}

/// The numeral as a number above or at 0.
fn positive(text: &str, base: u32) -> LongRead
    requires least { 2 ≤ base }
    requires most { base ≤ 36 }
    ensures { result ≡ positive (numeral base (chars text.now)) }
{
    match numeral(text, base) {
        Some(value) => match i64::try_from(value) {
            Ok(number) => LongRead::Long(number),
            Err(_) => LongRead::Range,
        },
        None => LongRead::NoLong,
    }
}

/// The decimal numeral as a number below or at 0.
fn negative(text: &str) -> LongRead
    ensures { result ≡ negative (numeral 10 (chars text.now)) }
{
    match numeral(text, 10) {
        Some(value) => match 0i64.checked_sub_unsigned(value) {
            Some(number) => LongRead::Long(number),
            None => LongRead::Range,
        },
        None => LongRead::NoLong,
    }
}

/// Reads an optional `-` and one or more ASCII digits. `Range` where the value is outside 64 signed bits,
/// `NoLong` for any other text.
pub fn parse_long(s: &Text) -> LongRead
    ensures { result ≡ parse_long s.now }
{
    long_from_str(s.text())
}

/// Reads a whole number from a `&str`, as `parse_long` does from a `Text`.
pub fn long_from_str(text: &str) -> LongRead
    ensures { result ≡ parse_long (chars text.now) }
{
    match first_char(text) {
        Some(('-', digits)) => negative(digits),
        _ => positive(text, 10),
    }
}

/// Reads a text that begins with `0x` as `0x` and one or more hexadecimal digits of either case, and every
/// other text as `parse_long` does. `None` where the text isn't so or the value is outside 64 signed bits.
pub fn parse_number(s: &Text) -> Option<i64>
    ensures { result ≡ parse_number s.now }
{
    read_number(s.text()).long()
}

fn read_number(text: &str) -> LongRead
    ensures { result ≡ read_number (chars text.now) }
{
    match strip(text, "0x", false) {
        Some(digits) => positive(digits, 16),
        None => long_from_str(text),
    }
}
