//! The rules of join keys: as many for each item, and of one kind at each place.
ghost use Rattle.std.specs.Prelude.{◌≡◌, ◌++◌, ◌≤◌, [], length, OnOk};
ghost use Rattle.eql_check.specs.Kinds.{kind_at};
ghost use Rattle.eql_check.specs.Conditions.{own_count as own_count_of};
ghost use Rattle.eql_check.specs.Rules as rules_of;
ghost use Rattle.eql_check.specs.Rules.{counts_broken, kinds_broken, key_kinds, settled_kinds};
ghost use Rattle.eql_check.specs.Answers.{Judges};
ghost use Rattle.eql_check.specs.Entries.{terms_in};

use crate::kinds::alike;
use crate::mapping::Mapping;
use crate::refused::CheckRefused;
use eql_query::{FieldRef, Term};
use eql_values::{Kind, Memory};
use std::alloc::Global;

/// How many keys of its own the first item has.
fn own_count(items: &[&Term]) -> usize
    ensures { result ≡ own_count_of (terms_in items.now) }
{
    match items {
        [] => 0,
        [first, ..] => first.by.items().len(),
    }
}

/// Each item has as many keys as the first.
pub(crate) fn check_counts(items: &[&Term]) -> Result<(), CheckRefused>
    requires { length items.now ≤ 4294967295 }
    ensures { Judges result
        (counts_broken (own_count_of (terms_in items.now)) 1 (terms_in items.now)) }
{
    let count = own_count(items);
    for (index, item) in items.iter().enumerate() {
        if item.by.items().len() != count {
            return Err(CheckRefused::KeyCount {
                item: index as u32 + 1,
            });
        }
    }
    Ok(())
}

/// Whether keys have the kinds that are settled by the items before, place by place.
fn fit(mapping: &Mapping, before: &[Option<Kind>], keys: &[FieldRef]) -> bool
    ensures { result ≡ rules_of.fit before.now (key_kinds (kind_at mapping.now) keys.now) }
{
    for (settled, key) in before.iter().zip(keys.iter()) {
        if !alike(*settled, mapping.kind(&key.name)) {
            return false;
        }
    }
    true
}

/// Settles the kinds of keys at the places where none is settled yet.
fn settle(mapping: &Mapping, keys: &[FieldRef], kinds: &mut Vec<Option<Kind>>) -> Result<(), Memory>
    ensures { OnOk result (kinds.new.items
        ≡ settled_kinds kinds.old.items (key_kinds (kind_at mapping.now) keys.now)) }
{
    for (place, key) in keys.iter().enumerate() {
        let kind = mapping.kind(&key.name);
        if place == kinds.len() {
            kinds.push(kind)?;
        } else if kinds[place].is_none() {
            kinds[place] = kind;
        }
    }
    Ok(())
}

/// At each place all keys that aren't always null are of one kind.
pub(crate) fn check_kinds(
    alloc: Global,
    mapping: &Mapping,
    items: &[&Term],
) -> Result<(), CheckRefused>
    requires { length items.now ≤ 4294967295 }
    ensures { Judges result (kinds_broken (kind_at mapping.now) [] 1 (terms_in items.now)) }
{
    let mut before = Vec::new(alloc);
    for (index, item) in items.iter().enumerate() {
        let keys = item.by.items();
        if !fit(mapping, &before, keys) {
            return Err(CheckRefused::KeyKind {
                item: index as u32 + 1,
            });
        }
        settle(mapping, keys, &mut before)?;
    }
    Ok(())
}
