//! Numbers, read as `serde_json` reads them, but for the value of a float.
ghost use Rattle.std.specs.Prelude.{◌≡◌, ◌<◌, ◌≤◌, ◌==◌, length, slice_index, option_map, is_some, IsTrue, true, false};
ghost use Rattle.std.specs.List.{list_all};
ghost use Rattle.std.specs.Char.{is_ascii_digit};
ghost use Rattle.serde_json.specs.Read.{number_of, number_from, float_of};
ghost use Rattle.eql_lines.specs.Numbers.{num_of};

use fast_float::Numeral;

/// A number: whole where `serde_json` holds it as a number of 64 bits.
#[derive(Clone, Copy, Debug, Drop)]
pub(crate) enum Num {
    /// A whole number from 0 on.
    Unsigned(u64),
    /// A whole number below 0.
    Negative(i64),
    /// Any other number.
    Fractional,
}

/// The number that the text of a token writes, or none where it is too large for a float.
#[inline(always)]
pub(crate) fn parse_number(text: &str) -> Option<Num>
    ensures { result ≡ option_map num_of (number_of text.now) }
{
    let bytes = text.as_bytes();
    if has_minus(bytes) {
        negative(&Numeral::scan(&bytes[1..]))
    } else {
        unsigned(&Numeral::scan(bytes))
    }
}

/// Whether a float can hold the number that the text of a token writes.
pub(crate) fn fits_float(text: &str) -> bool
    ensures { result ≡ is_some (number_of text.now) }
{
    is_short_whole(text.as_bytes()) || parse_number(text).is_some()
}

/// Whether the bytes are digits, one to 19 of them.
#[inline(always)]
fn is_short_whole(bytes: &[u8]) -> bool
    ensures some { result ≡ true → 0 < length bytes.now }
    ensures short { result ≡ true → length bytes.now ≤ 19 }
    ensures digits { result ≡ true → list_all is_ascii_digit bytes.now ≡ true }
{
    !bytes.is_empty() && bytes.len() <= 19 && is_whole(bytes)
}

/// Whether all bytes are digits.
#[inline(always)]
fn is_whole(bytes: &[u8]) -> bool
    ensures { result ≡ list_all is_ascii_digit bytes.now }
{
    bytes.iter().all(|byte| byte.is_ascii_digit())
}

#[inline(always)]
fn has_minus(bytes: &[u8]) -> bool
    ensures value { result ≡ (slice_index bytes.now 0 == 45) }
    ensures len { IsTrue result → 0 < length bytes.now }
{
    !bytes.is_empty() && bytes[0] == b'-'
}

#[inline(always)]
fn unsigned(numeral: &Numeral<'_>) -> Option<Num>
    ensures { result ≡ option_map num_of (number_from false numeral.now) }
{
    match numeral.to_u64() {
        Some(n) => Some(Num::Unsigned(n)),
        None => fractional(false, numeral),
    }
}

#[inline(always)]
fn negative(numeral: &Numeral<'_>) -> Option<Num>
    ensures { result ≡ option_map num_of (number_from true numeral.now) }
{
    if let Some(n) = numeral.to_i64(true) {
        if n < 0 {
            return Some(Num::Negative(n));
        }
    }
    fractional(true, numeral)
}

fn fractional(negative: bool, numeral: &Numeral<'_>) -> Option<Num>
    ensures { result ≡ option_map num_of (float_of negative numeral.now) }
{
    if numeral.to_float::<f64>(negative).is_finite() {
        Some(Num::Fractional)
    } else {
        None
    }
}
