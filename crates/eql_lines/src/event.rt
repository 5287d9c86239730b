//! An event, from what was found in an object.
ghost use Rattle.std.specs.Prelude.{◌≡◌, ◌≤◌, ◌+◌, Ok, Err, IfOk, List, map, string_bytes, length};
ghost use Rattle.std.specs.Str.{chars};
ghost use Rattle.eql_values.specs.declared.cut.Reason.{Reason as Cause};
ghost use Rattle.eql_lines.specs.declared.refused.Refused.TheVariants as refused;
ghost use Rattle.eql_lines.specs.declared.wanted.LineRead.TheVariants as read;
ghost use Rattle.eql_lines.specs.Found.{found_of};
ghost use Rattle.eql_lines.specs.Gathered.{tie_found, values_found, event_in_slots};

use crate::refused::Refused;
use crate::slots::Slot;
use crate::times::time_in;
use crate::values::{tie_in, value_in};
use crate::wanted::{Fields, Wanted};
use eql_values::{Kind, Memory, Slots, Text, Texts, Value};
use std::alloc::Global;

/// The slot of the timestamp.
pub(crate) const TIME: usize = 0;

/// The slot of the categories.
pub(crate) const CATEGORY: usize = 1;

/// The slot of the tiebreaker.
pub(crate) const TIE: usize = 2;

/// The slot of the first field.
pub(crate) const FIRST_FIELD: usize = 3;

/// Copies of the texts that were found.
fn copied_texts(alloc: Global, texts: &[String]) -> Result<Texts, Memory>
    ensures { IfOk result (λ t. t ≡ map chars (map string_bytes texts.now)) }
{
    let mut copies = Vec::with_capacity(alloc, texts.len())?;
    for text in texts {
        copies.push(Text::copy_of(alloc, text)?)?;
    }
    Ok(Texts::of(copies))
}

/// The tiebreaker, if one is wanted.
fn wanted_tie(tie: &Option<Text>, slot: &Slot) -> Result<Option<i64>, Refused>
    ensures ok { IfOk result (λ t. tie_found tie.now (found_of slot.now) ≡ Ok t) }
    ensures bad { (r : Cause) → result ≡ Err (refused.Bad r)
        → tie_found tie.now (found_of slot.now) ≡ Err r }
{
    match tie {
        Some(_) => Ok(tie_in(slot)?),
        None => Ok(None),
    }
}

/// The values of the wanted fields, of which each has its slot.
fn values_in(
    alloc: Global,
    fields: &Vec<(Text, Kind)>,
    slots: &[Slot],
) -> Result<Vec<Value>, Refused>
    requires { length slots.now ≡ length fields.now.items }
    ensures ok { IfOk result (λ v.
        values_found fields.now.items (map found_of slots.now) ≡ Ok v.items) }
    ensures bad { (r : Cause) → result ≡ Err (refused.Bad r)
        → values_found fields.now.items (map found_of slots.now) ≡ Err r }
{
    let mut values = Vec::with_capacity(alloc, fields.len())?;
    for place in 0..fields.len() {
        let kind = fields[place].1;
        values.push(value_in(alloc, kind, &slots[place])?)?;
    }
    Ok(values)
}

/// The event that was found.
pub(crate) fn event_in(alloc: Global, wanted: &Wanted, slots: &Vec<Slot>) -> Result<Fields, Refused>
    requires { length slots.now.items ≡ 3 + length wanted.now.fields }
    ensures ok { IfOk result (λ f.
        event_in_slots wanted.now slots.now.items ≡ read.Event f) }
    ensures bad { (r : Cause) → result ≡ Err (refused.Bad r)
        → event_in_slots wanted.now slots.now.items ≡ read.Bad r }
{
    let ts = time_in(&slots[TIME])?;
    let tie = wanted_tie(&wanted.tie, &slots[TIE])?;
    let values = values_in(alloc, wanted.fields.items(), &slots[FIRST_FIELD..])?;
    let categories = copied_texts(alloc, slots[CATEGORY].texts())?;
    Ok(Fields {
        ts,
        tie,
        categories,
        slots: Slots::of(values),
    })
}
