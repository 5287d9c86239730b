//! The keys of matches as JSON.
ghost use Rattle.std.specs.Prelude.{◌≡◌, ◌++◌, [], IfOk, OnOk, codes, encode_utf8_all, map, string_bytes};
ghost use Rattle.std.specs.Fmt.{decimal};
ghost use Rattle.serde_json.specs.View.{view};
ghost use Rattle.eql_book.specs.Listing.{ip_text, json_value, key_json, key_text};

use crate::json::push_json;
use eql_values::{Text, Value as FieldValue};
use serde_json::Value;
use std::alloc::{AllocError, Global};

/// Prints four numbers with dots between.
fn print_numbers(
    text: &mut String,
    first: u32,
    second: u32,
    third: u32,
    fourth: u32,
) -> Result<(), AllocError>
    ensures { OnOk result (string_bytes text.new ≡ string_bytes text.old ++ decimal first
        ++ codes "." ++ decimal second ++ codes "." ++ decimal third ++ codes "."
        ++ decimal fourth) }
{
    write!(text, "{first}.{second}.{third}.{fourth}")
}

/// An IPv4 address as four numbers with dots between.
fn ip_text(alloc: Global, ip: u32) -> Result<String, AllocError>
    ensures { IfOk result (λ text. string_bytes text ≡ ip_text ip) }
{
    let mut text = String::new(alloc);
    print_numbers(
        &mut text,
        ip / 16777216,
        ip / 65536 % 256,
        ip / 256 % 256,
        ip % 256,
    )?;
    Ok(text)
}

/// A copy of a text.
fn text_bytes(text: &Text) -> Result<String, AllocError>
    ensures { IfOk result (λ copy. string_bytes copy ≡ encode_utf8_all text.now) }
{
    let copy = text.to_string()?;
    Ok(copy)
}

/// A value of a key as JSON.
fn json_value(alloc: Global, value: &FieldValue) -> Result<Value, AllocError>
    ensures { IfOk result (λ v. view v ≡ json_value value.now) }
{
    match value {
        FieldValue::Null => Ok(Value::Null),
        FieldValue::Bool(b) => Ok(Value::Bool(*b)),
        FieldValue::Long(n) => Ok(Value::from(*n)),
        FieldValue::Text(text) => {
            let copy = text_bytes(text)?;
            Ok(Value::String(copy))
        }
        FieldValue::Ip(ip) => {
            let text = ip_text(alloc, *ip)?;
            Ok(Value::String(text))
        }
    }
}

/// The values of a key as JSON.
fn json_values(alloc: Global, key: &[FieldValue]) -> Result<Vec<Value>, AllocError>
    ensures { IfOk result (λ list. map view list.items ≡ map json_value key.now) }
{
    let mut list = Vec::new(alloc);
    for value in key {
        list.push(json_value(alloc, value)?)?;
    }
    Ok(list)
}

/// Prints a key of no values.
fn print_none(waiting: &mut String) -> Result<(), AllocError>
    ensures { OnOk result (string_bytes waiting.new ≡ string_bytes waiting.old ++ key_text []) }
{
    waiting.push_str("[]")?;
    Ok(())
}

/// Prints the values of a key as a compact JSON array, without a character that steers a terminal.
pub(crate) fn print_key(
    alloc: Global,
    waiting: &mut String,
    key: &[FieldValue],
) -> Result<(), AllocError>
    ensures { OnOk result
        (string_bytes waiting.new ≡ string_bytes waiting.old ++ key_text key.now) }
{
    if key.is_empty() {
        return print_none(waiting);
    }
    let text = key_string(alloc, key)?;
    push_json(waiting, &text)
}

/// The values of a key as a compact JSON array.
fn key_string(alloc: Global, key: &[FieldValue]) -> Result<String, AllocError>
    ensures { IfOk result (λ text. string_bytes text ≡ key_json key.now) }
{
    Value::Array(json_values(alloc, key)?).to_string(alloc)
}
