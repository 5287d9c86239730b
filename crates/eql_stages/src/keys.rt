//! Keys, by the slots of their fields. They are compared where they lie, and copied only for a new route.
ghost use Rattle.std.specs.Prelude.{◌≡◌, IfOk};
ghost use Rattle.std.specs.List.{list_all};
ghost use Rattle.eql_values.specs.Orders.{value_cmp, key_cmp};
ghost use Rattle.eql_check.specs.Comparisons as test;
ghost use Rattle.eql_stages.specs.Keys as keys;

use eql_values::{Key, Memory, Value};
use std::alloc::{AllocError, Global};
use std::cmp::Ordering;
use std::marker::Model;

/// A key field of an item.
#[derive(Clone, Copy)]
pub(crate) struct KeyField {
    /// Its slot among the values of an event; a field that no mapping has is always null.
    pub(crate) slot: Option<usize>,
    /// Whether it may be null.
    pub(crate) optional: bool,
}

/// The key fields of an item, the shared ones first.
#[derive(Drop)]
pub(crate) struct KeyFields {
    items: Vec<KeyField>,
}

impl Model for KeyFields {
    ghost use Rattle.std.specs.Prelude.{List};
    ghost use Rattle.eql_stages.specs.declared.keys.KeyField.{KeyField};

    ghost Value = { List KeyField };

    ghost view = { λ l. l.items.items };
}

impl KeyFields {
    /// The list of these fields.
    pub(crate) fn of(items: Vec<KeyField>) -> KeyFields
        ensures { result ≡ items.items }
    {
        KeyFields { items }
    }

    /// The fields, lent.
    pub(crate) fn items(&self) -> &Vec<KeyField>
        ensures { result.now.items ≡ self.now }
    {
        &self.items
    }
}

impl Clone for KeyFields {
    ghost is_clone = { λ old new. new ≡ old };

    fn clone(&self) -> Result<KeyFields, AllocError> {
        let items = self.items.clone()?;
        Ok(KeyFields { items })
    }
}

fn is_null(value: &Value) -> bool
    ensures { result ≡ test.is_null value.now }
{
    match value {
        Value::Null => true,
        _ => false,
    }
}

impl KeyField {
    /// The field isn't null, or it may be.
    fn is_given(self, slots: &[Value]) -> bool
        ensures { result ≡ keys.is_given slots.now self }
    {
        match self.slot {
            Some(slot) if slot < slots.len() => !is_null(&slots[slot]) || self.optional,
            _ => self.optional,
        }
    }

    /// Compares the field's value with another.
    fn compare(self, slots: &[Value], other: &Value) -> Ordering
        ensures { result ≡ value_cmp (keys.value_of slots.now self) other.now }
    {
        match self.slot {
            Some(slot) if slot < slots.len() => slots[slot].cmp(other),
            _ => Value::Null.cmp(other),
        }
    }

    /// A copy of the field's value.
    fn copied(self, slots: &[Value]) -> Result<Value, Memory>
        ensures { IfOk result (λ v. v ≡ keys.value_of slots.now self) }
    {
        match self.slot {
            Some(slot) if slot < slots.len() => Ok(slots[slot].clone()?),
            _ => Ok(Value::Null),
        }
    }
}

/// Whether the fields give a key: each is marked as optional, or isn't null.
pub(crate) fn is_whole(fields: &[KeyField], slots: &[Value]) -> bool
    ensures { result ≡ list_all (keys.is_given slots.now) fields.now }
{
    for field in fields {
        if !field.is_given(slots) {
            return false;
        }
    }
    true
}

/// Compares the key that the fields give with another.
pub(crate) fn compare(fields: &[KeyField], slots: &[Value], key: &[Value]) -> Ordering
    ensures { result ≡ key_cmp (keys.values_of slots.now fields.now) key.now }
{
    for (place, field) in fields.iter().enumerate() {
        if place == key.len() {
            return Ordering::Greater;
        }
        let order = field.compare(slots, &key[place]);
        if order.is_ne() {
            return order;
        }
    }
    if fields.len() < key.len() {
        Ordering::Less
    } else {
        Ordering::Equal
    }
}

/// A copy of the key that the fields give.
pub(crate) fn copied(alloc: Global, fields: &[KeyField], slots: &[Value]) -> Result<Key, Memory>
    ensures { IfOk result (λ key. key ≡ keys.values_of slots.now fields.now) }
{
    let mut values = Vec::with_capacity(alloc, fields.len())?;
    for field in fields {
        values.push(field.copied(slots)?)?;
    }
    Ok(Key::of(values))
}
