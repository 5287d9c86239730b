//! Numbers that digits spell.
ghost use Rattle.std.specs.Prelude.{◌≡◌, ℕ, ◌<◌, ◌≤◌, ◌^◌, length, pos, MatchOption, slice_index, true};
ghost use Rattle.std.specs.List.{prefix_len};
ghost use Rattle.eql_lexer.specs.Bytes.{is_digit, is_hex, is_word, number, hex_digit, hex_number};

use crate::byte::{is_digit_byte, is_hex_byte, is_word_byte};

/// How many bytes from the front go on with a word.
pub fn word_len(bytes: &[u8]) -> usize
    ensures value { result ≡ prefix_len is_word bytes.now }
    ensures within { result ≤ length bytes.now }
{
    bytes.iter().take_while(|b| is_word_byte(**b)).count()
}

/// How many bytes from the front are digits.
pub fn digits_len(bytes: &[u8]) -> usize
    ensures value { result ≡ prefix_len is_digit bytes.now }
    ensures within { result ≤ length bytes.now }
{
    bytes.iter().take_while(|b| is_digit_byte(**b)).count()
}

/// How many bytes from the front are hexadecimal digits.
pub fn hex_len(bytes: &[u8]) -> usize
    ensures value { result ≡ prefix_len is_hex bytes.now }
    ensures within { result ≤ length bytes.now }
{
    bytes.iter().take_while(|b| is_hex_byte(**b)).count()
}

/// The number that digits spell, where it is at most 9223372036854775807.
pub fn number_of(digits: &[u8]) -> Option<i64>
    ensures { MatchOption result (2 ^ 63 ≤ number 0 digits.now)
        (λ n. (n ≡ pos (number 0 digits.now)) × (number 0 digits.now < 2 ^ 63)) }
{
    let mut n: u64 = 0;
    for b in digits {
        let Some(tens) = n.checked_mul(10) else {
            return None;
        };
        let Some(next) = tens.checked_add(u64::from(b.saturating_sub(b'0'))) else {
            return None;
        };
        n = next;
    }
    i64::try_from(n).ok()
}

/// The value of a hexadecimal digit.
fn hex_value(b: u8) -> u8
    requires { is_hex b ≡ true }
    ensures value { result ≡ hex_digit b }
    ensures small { result < 16 }
{
    if b <= 57 {
        b - 48
    } else if b <= 70 {
        b - 55
    } else {
        b - 87
    }
}

/// The number that up to eight hexadecimal digits spell.
pub fn hex_number_of(digits: &[u8]) -> u32
    requires short { length digits.now ≤ 8 }
    requires digits { (k : ℕ) → k < length digits.now → is_hex (slice_index digits.now k) ≡ true }
    ensures { result ≡ hex_number 0 digits.now }
{
    let mut n: u64 = 0;
    for b in digits {
        n = n * 16 + u64::from(hex_value(*b));
    }
    n as u32
}
