//! Mappings: what is read, and what is refused.
use crate::tests::answer::{behind, see};
use eql_check::Mapping;
use eql_values::{Kind, Memory, Text};
use std::alloc::Global;
use std::process::Abort;
use std::test::Fail;

/// How many names a mapping has, or what its refusal says.
fn read(alloc: Global, bytes: &[u8]) -> Result<String, Memory> {
    match Mapping::read(alloc, bytes) {
        Ok(mapping) => Ok(format!(in alloc; "{} names", mapping.names().items().len())?),
        Err(refused) => refused.message(alloc),
    }
}

/// Sees that this is read from a mapping's text, which has this name; of a refusal what it says behind `mapping: `.
pub fn is_read(
    rt: &impl Abort,
    alloc: Global,
    name: &str,
    bytes: &[u8],
    wanted: &str,
) -> Result<(), Memory> {
    let got = read(alloc, bytes)?;
    see(rt, name, behind(got.as_str(), "mapping: "), wanted);
    Ok(())
}

/// A mapping of three names, one of which stands there twice: its last kind counts.
static THREE: &[u8] = br#"{"n":"long","a.b":"keyword","n":"ip","b":"boolean"}"#;

/// Whether a name with its kind is this one.
fn is_named(named: &(Text, Kind), name: &str, kind: Kind) -> bool {
    named.0.text() == name && named.1 == kind
}

/// Whether a mapping has these three names with their kinds, in order.
fn has_three(mapping: &Mapping) -> bool {
    match mapping.names().items().as_slice() {
        [first, second, third] => {
            is_named(first, "a.b", Kind::Text)
                && is_named(second, "b", Kind::Bool)
                && is_named(third, "n", Kind::Ip)
        }
        _ => false,
    }
}

/// Whether they are read.
fn three_are_read(alloc: Global) -> Result<bool, Fail> {
    let mapping = Mapping::read(alloc, THREE)?;
    let has_three = has_three(&mapping);
    drop(mapping);
    Ok(has_three)
}

/// Texts of mappings, and how they are read.
static MAPPINGS: &[(&str, &str)] = &[
    (r#"{"a":"date"}"#, "MapKind a"),
    (
        r#"{"a":"keyword","b":"long","c":"boolean","d":"ip"}"#,
        "4 names",
    ),
    (r#"{"b":"date","a":1,"c":"long"}"#, "MapKind a"),
    (r#"{"é":1,"z":2}"#, "MapKind z"),
    (r#"{"ab":1,"a":2}"#, "MapKind a"),
    (r#"{"\u0061":"l\u006fng"}"#, "1 names"),
    (r#"{"":"long"}"#, "1 names"),
    (r#"{"a":"date","a":"long"}"#, "1 names"),
    (r#"{"a":"long","a":"date"}"#, "MapKind a"),
    (r#"{"a":"Long"}"#, "MapKind a"),
    (r#"{"a":"text"}"#, "MapKind a"),
    (r#"{"a":null}"#, "MapKind a"),
    (r#"{"a":{"b":"long"}}"#, "MapKind a"),
    (r#"{"a\n\u202e\"b":1}"#, r#"MapKind a\n\u{202e}"b"#),
    ("{}", "0 names"),
    (" { } ", "0 names"),
    (r#"["a"]"#, "MapSyntax"),
    ("null", "MapSyntax"),
    (r#"{"a":"long""#, "MapSyntax"),
    (r#"{"a":"long"} {}"#, "MapSyntax"),
    ("\u{feff}{}", "MapSyntax"),
    ("", "MapSyntax"),
];

/// Bytes that are no text.
static NO_TEXT: &[u8] = b"{\"\xff\":\"long\"}";

/// Sees how each text is read.
fn each_is_read(rt: &impl Abort, alloc: Global) -> Result<(), Memory> {
    for (text, wanted) in MAPPINGS {
        is_read(rt, alloc, text, text.as_bytes(), wanted)?;
    }
    is_read(rt, alloc, "no text", NO_TEXT, "MapSyntax")
}

#[test]
fn mappings_and_refusals(rt: HostRuntime) -> Result<(), Fail> {
    assert!(rt; three_are_read(rt.alloc())?, "a.b, b and n");
    Ok(each_is_read(&rt, rt.alloc())?)
}
