//! IPv4 addresses and blocks of them.
ghost use Rattle.std.specs.Prelude.{◌≡◌, ◌≤◌, ◌-◌, ◌^◌, IfSome, List, MatchOption, ◌∷◌, [], length, ◌<◌};
ghost use Rattle.std.specs.Str.{chars};
ghost use Rattle.eql_text.specs.Addresses.{parts, has_spare_zero, plain, address, block, parse_ip4, parse_block, in_block};

use crate::numbers::numeral;
use crate::walk::{ended, first_char};
use eql_values::Text;

/// The IPv4 addresses whose first `bits` bits are those of `base`. More than 32 bits count as 32.
#[derive(Clone, Copy, Debug, PartialEq, Eq)]
pub struct Block {
    /// An address, its first number in the highest byte.
    pub base: u32,
    /// How many bits count, 0 to 32.
    pub bits: u32,
}

/// The part of a text before the first separator, and what follows it.
fn split_once_at(text: &str, separator: char) -> Option<(&str, &str)>
    requires { separator < 128 }
    ensures { MatchOption result
        (parts separator (chars text.now) ≡ chars text.now ∷ [])
        (λ p. parts separator (chars text.now) ≡ chars p.0.now ∷ parts separator (chars p.1.now)) }
{
    text.split_once(separator)
}

/// Whether a numeral begins with a zero that it doesn't need.
fn has_spare_zero(text: &str) -> bool
    ensures { result ≡ has_spare_zero (chars text.now) }
{
    match first_char(text) {
        Some((first, rest)) => first == '0' && !ended(rest),
        None => false,
    }
}

/// A number from 0 to `most` in decimal digits, without superfluous leading zeros.
fn plain(text: &str, most: u32) -> Option<u32>
    ensures number { result ≡ plain most (chars text.now) }
    ensures within { IfSome result (λ n. n ≤ most) }
{
    if has_spare_zero(text) {
        return None;
    }
    let value = numeral(text, 10)?;
    if value <= u64::from(most) {
        Some(value as u32)
    } else {
        None
    }
}

/// Reads four numbers from 0 to 255 with dots between, without superfluous leading zeros. The first is the
/// highest byte of the result. `None` for any other text.
pub fn parse_ip4(s: &Text) -> Option<u32>
    ensures { result ≡ parse_ip4 s.now }
{
    ip4_from_str(s.text())
}

/// The four parts of a text between three dots.
fn quarters(text: &str) -> Option<(&str, &str, &str, &str)>
    ensures { MatchOption result
        (parse_ip4 (chars text.now) ≡ None)
        (λ q. parse_ip4 (chars text.now) ≡ address (plain 255 (chars q.0.now)
        ∷ plain 255 (chars q.1.now) ∷ plain 255 (chars q.2.now)
        ∷ plain 255 (chars q.3.now) ∷ [])) }
{
    let (a, rest) = split_once_at(text, '.')?;
    let (b, rest) = split_once_at(rest, '.')?;
    let (c, d) = split_once_at(rest, '.')?;
    match split_once_at(d, '.') {
        Some(_) => None,
        None => Some((a, b, c, d)),
    }
}

/// Reads an IPv4 address from a `&str`, as `parse_ip4` does from a `Text`.
pub fn ip4_from_str(text: &str) -> Option<u32>
    ensures { result ≡ parse_ip4 (chars text.now) }
{
    let (a, b, c, d) = quarters(text)?;
    let high = plain(a, 255)? * 256 + plain(b, 255)?;
    let low = plain(c, 255)? * 256 + plain(d, 255)?;
    Some(high * 65536 + low)
}

/// Reads an IPv4 address, `/`, and a number of bits from 0 to 32 without superfluous leading zeros. `None`
/// for any other text.
pub fn parse_block(s: &Text) -> Option<Block>
    ensures { result ≡ parse_block s.now }
{
    block_in(s.text())
}

/// The two parts of a text round one `/`.
fn halves(text: &str) -> Option<(&str, &str)>
    ensures { MatchOption result
        (parse_block (chars text.now) ≡ None)
        (λ h. parse_block (chars text.now)
        ≡ block (parse_ip4 (chars h.0.now)) (plain 32 (chars h.1.now))) }
{
    let (base, bits) = split_once_at(text, '/')?;
    match split_once_at(bits, '/') {
        Some(_) => None,
        None => Some((base, bits)),
    }
}

fn block_in(text: &str) -> Option<Block>
    ensures { result ≡ parse_block (chars text.now) }
{
    let (base, bits) = halves(text)?;
    let base = ip4_from_str(base)?;
    let bits = plain(bits, 32)?;
    Some(Block { base, bits })
}

/// Whether an address lies in a block: whether its first bits are those of the block.
pub fn in_block(ip: u32, block: Block) -> bool
    ensures { result ≡ in_block ip block }
{
    let others = 32u32.saturating_sub(block.bits);
    u64::from(ip) >> others == u64::from(block.base) >> others
}
