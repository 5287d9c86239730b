//! The JSON that the bytes of a mapping are.
ghost use Rattle.std.specs.Prelude.{◌≡◌, ◌<◌, IfOk, OnErr, length, option_map};
ghost use Rattle.serde_json.specs.View.{view};
ghost use Rattle.eql_text.specs.Json.{json_of};

use eql_values::Memory;
use serde_json::Value;
use std::alloc::Global;

/// What `serde_json` reads in the bytes, or `None` where they are no UTF-8 text or no JSON text.
/// `Memory` is reported only where the bytes aren't empty.
pub fn read_json(alloc: Global, bytes: &[u8]) -> Result<Option<Value>, Memory>
    ensures value { IfOk result (λ value. option_map view value ≡ json_of bytes.now) }
    ensures memory { OnErr result (0 < length bytes.now) }
{
    match Value::from_slice(alloc, bytes) {
        Ok(value) => Ok(Some(value)),
        Err(error) => if error.is_memory() {
            Err(Memory)
        } else {
            Ok(None)
        },
    }
}
