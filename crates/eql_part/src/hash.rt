//! A hash of a key, by which its part and its machine are found.
ghost use Rattle.std.specs.Prelude.{◌≡◌};
ghost use Rattle.std.specs.List.{fold};
ghost use Rattle.std.specs.Str.{chars};
ghost use Rattle.eql_part.specs.Hashes.{key_hash, mixed_hash, value_hash};

use eql_values::{Key, Text, Value};

/// 2^64 over the golden ratio. A product by it has upper bits that change with each lower bit.
const FACTOR: u64 = 11_400_714_819_323_198_485;

/// A hash that goes on by one number.
pub(crate) fn mix(hash: u64, number: u64) -> u64
    ensures { result ≡ mixed_hash hash number }
{
    hash.wrapping_add(number).wrapping_mul(FACTOR)
}

/// A hash that goes on by characters.
fn mix_characters(hash: u64, text: &str) -> u64
    ensures { result ≡ fold mixed_hash hash (chars text.now) }
{
    text.chars().fold(
        hash,
        |hash, character| mix(hash, u64::from(u32::from(character))),
    )
}

/// A hash that goes on by the characters of a text.
fn mix_text(hash: u64, text: &Text) -> u64
    ensures { result ≡ fold mixed_hash hash text.now }
{
    mix_characters(hash, text.text())
}

/// A hash that goes on by one value.
fn mix_value(hash: u64, value: &Value) -> u64
    ensures { result ≡ value_hash hash value.now }
{
    match value {
        Value::Null => mix(hash, 0),
        Value::Bool(truth) => mix(mix(hash, 1), u64::from(*truth)),
        Value::Long(number) => mix(mix(hash, 2), number.cast_unsigned()),
        Value::Text(text) => mix_text(mix(hash, 3), text),
        Value::Ip(address) => mix(mix(hash, 4), u64::from(*address)),
    }
}

/// A hash of a key's values, of 64 bits, which tells keys of few values apart. It takes no memory.
pub fn hash_of(key: &Key) -> u64
    ensures { result ≡ key_hash key.now }
{
    key.items()
        .iter()
        .fold(0, |hash, value| mix_value(hash, value))
}
