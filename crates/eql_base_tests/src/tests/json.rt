//! The JSON of bytes: what is one, and what is none.
use crate::tests::table::{Asked, bytes_of, is_bool, see};
use eql_check::read_json;
use eql_values::Memory;
use std::alloc::Global;

/// Whether bytes are one JSON text.
fn is_json(alloc: Global, bytes: &[u8]) -> Result<bool, Memory> {
    match read_json(alloc, bytes) {
        Ok(value) => {
            let is_some = value.is_some();
            drop(value);
            Ok(is_some)
        }
        Err(error) => Err(error),
    }
}

/// Whether the bytes of a row are one JSON text as they should be.
pub fn is_told(alloc: Global, row: &str, wanted: &str) -> Result<bool, Memory> {
    let bytes = bytes_of(alloc, row)?;
    let is_json = is_json(alloc, &bytes);
    drop(bytes);
    Ok(is_bool(is_json?, wanted))
}

/// Bytes, and whether they are one JSON value.
static TEXTS: &str = r#"
 => false
{"a":[1,null,true,"x"]} => true
 7␍␊ => true
{"a":1 => false
1 2 => false
{a:1} => false
"ÿ" => false
"\u0041" => true
01 => false
"#;

#[test]
fn json_is_told(rt: HostRuntime) {
    see(&rt, rt.alloc(), &Asked::Json, TEXTS);
}
