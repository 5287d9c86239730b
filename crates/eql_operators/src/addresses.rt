//! Addresses and blocks of them.
ghost use Rattle.std.specs.Prelude.{◌≡◌};
ghost use Rattle.std.specs.Option.{option_map};
ghost use Rattle.eql_text.specs.Addresses.{in_block};
ghost use Rattle.eql_check.specs.Functions as f;

use eql_text::{in_block, parse_block, parse_ip4};
use eql_values::Value;

/// The address that a value is, or that a text writes.
pub fn address(value: &Value) -> Option<u32>
    ensures { result ≡ f.address_of value.now }
{
    match value {
        Value::Ip(ip) => Some(*ip),
        Value::Text(text) => parse_ip4(text),
        _ => None,
    }
}

/// Whether an address lies in the block that a text writes; null where it writes none.
pub fn lies_in_one(ip: u32, block: &Value) -> Option<bool>
    ensures { result ≡ option_map (in_block ip) (f.block_of block.now) }
{
    match block {
        Value::Text(text) => match parse_block(text) {
            Some(block) => Some(in_block(ip, block)),
            None => None,
        },
        _ => None,
    }
}
