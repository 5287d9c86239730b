//! The reading of a line as a `Value`, for the few lines that the walk gives up.
ghost use Rattle.std.specs.Prelude.{◌≡◌, ℕ, length, option_map, if◌then◌else◌, IfOk, OnOk};
ghost use Rattle.serde_json.specs.View.{view, items_view, members_view, number_view};
ghost use Rattle.eql_text.specs.Json.{json_of};
ghost use Rattle.eql_lines.specs.Lines.{line_of, AreFilled};
ghost use Rattle.eql_lines.specs.Paths.{path_at};
ghost use Rattle.eql_lines.specs.Reach.{over, Scalar, reach, reach_items, reach_members, at_end, behind, of_number};
ghost use Rattle.eql_lines.specs.Found.{one, nothing, found_at, found_by, found_of, found_all, scalar_of};

use crate::line::Line;
use crate::number::Num;
use crate::paths::leads;
use crate::slots::{Seen, Slot};
use serde_json::value::Map;
use serde_json::{Number, Value};
use std::alloc::{AllocError, Global};

/// A number as the walk keeps it.
fn kept(number: &Number) -> Num
    ensures { scalar_of result ≡ of_number (number_view number.now) }
{
    if let Some(n) = number.as_u64() {
        Num::Unsigned(n)
    } else if let Some(n) = number.as_i64() {
        Num::Negative(n)
    } else {
        Num::Fractional
    }
}

/// What a path goes on with behind a name, if it does.
fn behind<'p>(path: &'p [u8], name: &[u8]) -> Option<&'p [u8]>
    ensures { option_map (λ r. r.now) result ≡ behind name.now path.now }
{
    if !leads(path, name) {
        return None;
    }
    let len = name.len();
    Some(if len < path.len() {
        &path[len + 1..]
    } else {
        &[]
    })
}

/// Adds a scalar where the path is at its end.
fn add_at_end(slot: &mut Slot, path: &[u8], seen: Seen, text: &str) -> Result<(), AllocError>
    ensures { OnOk result ((s : Scalar) → found_by seen text.now ≡ one s
        → found_of slot.new ≡ found_all (found_of slot.old) (at_end path.now s)) }
{
    if path.is_empty() {
        slot.add(seen, text)?;
    }
    Ok(())
}

/// Adds what a path reaches in a value.
#[cycle(again)]
pub(crate) fn reach_value(value: &Value, path: &[u8], slot: &mut Slot) -> Result<(), AllocError>
    ensures { OnOk result
        (found_of slot.new ≡ found_all (found_of slot.old) (reach (view value.now) path.now)) }
{
    match value {
        Value::Null => Ok(()),
        Value::Bool(truth) => add_at_end(slot, path, Seen::Truth(*truth), ""),
        Value::Number(number) => add_at_end(slot, path, Seen::Number(kept(number)), ""),
        Value::String(text) => add_at_end(slot, path, Seen::Text, text.as_str()),
        Value::Array(items) => reach_all(items, path, slot),
        Value::Object(members) => reach_each(members, path, slot),
    }
}

#[cycle(again)]
fn reach_all(items: &Vec<Value>, path: &[u8], slot: &mut Slot) -> Result<(), AllocError>
    ensures { OnOk result (found_of slot.new
        ≡ found_all (found_of slot.old) (reach_items (items_view items.now.items) path.now)) }
{
    for item in items {
        reach_value(item, path, slot)?;
    }
    Ok(())
}

#[cycle(again)]
fn reach_each(members: &Map<String, Value>, path: &[u8], slot: &mut Slot) -> Result<(), AllocError>
    ensures { OnOk result (found_of slot.new
        ≡ found_all (found_of slot.old)
        (reach_members (members_view members.now.entries) path.now)) }
{
    for (key, member) in members.iter() {
        if let Some(rest) = behind(path, key.as_bytes()) {
            reach_value(member, rest, slot)?;
        }
    }
    Ok(())
}

/// Fills each slot with what its path reaches in the value.
fn fill(paths: &Vec<String>, slots: &mut Vec<Slot>, value: &Value) -> Result<(), AllocError>
    requires { length slots.old.items ≡ length paths.now.items }
    ensures filled { OnOk result ((i : ℕ) → found_at slots.new.items i
        ≡ found_all nothing (over (reach (view value.now)) (path_at paths.now.items i))) }
    ensures length { length slots.new.items ≡ length slots.old.items }
{
    for i in 0..paths.len() {
        let slot = &mut slots[i];
        slot.clear();
        reach_value(value, paths[i].as_bytes(), slot)?;
    }
    Ok(())
}

/// What a line is that is JSON.
fn object_line(is_object: bool) -> Line
    ensures { result ≡ (if is_object then Line.Object else Line.NotObject) }
{
    if is_object {
        Line::Object
    } else {
        Line::NotObject
    }
}

/// Reads a line as a value.
pub(crate) fn read_again(
    alloc: Global,
    paths: &Vec<String>,
    slots: &mut Vec<Slot>,
    bytes: &[u8],
) -> Result<Line, AllocError>
    requires { length slots.old.items ≡ length paths.now.items }
    ensures line { IfOk result (λ line. line ≡ line_of (json_of bytes.now)) }
    ensures slots { OnOk result (AreFilled paths.now.items slots.new.items (json_of bytes.now)) }
    ensures length { length slots.new.items ≡ length slots.old.items }
{
    match Value::from_slice(alloc, bytes) {
        Ok(value) => {
            fill(paths, slots, &value)?;
            Ok(object_line(value.is_object()))
        }
        Err(error) => if error.is_memory() {
            Err(AllocError)
        } else {
            Ok(Line::NotJson)
        },
    }
}
