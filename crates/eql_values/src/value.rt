//! Values of fields, and the lists of values that events and queries hold.
ghost use Rattle.std.specs.Prelude.{◌≡◌};
ghost use Rattle.std.proofs.Common.{rules};
ghost use Rattle.std.specs.Cmp.{partial_order_from_total};
ghost use Rattle.std.specs.Cmp.{partial_equiv_from_equiv, eq_by_cmp_equiv};
ghost use Rattle.std.specs.Cmp.Rules.{comparing};
ghost use Rattle.std.specs.Ordering.{as_partial_cmp};
ghost use Rattle.eql_values.specs.Names.{names_eq};
ghost use Rattle.eql_values.specs.Orders.{kind_rank, value_cmp, value_eq, key_cmp, key_eq};
ghost use Rattle.eql_values.specs.Totals.{value_cmp_total, key_cmp_total, names_eq_equiv};

use crate::text::Text;
use std::alloc::AllocError;
use std::cmp::Ordering;
use std::marker::Model;
use std::slice;

/// What a field holds, by the mapping.
#[derive(Clone, Copy, Debug, PartialEq, Eq)]
pub enum Kind {
    /// True or false.
    Bool,
    /// A whole number of 64 signed bits.
    Long,
    /// A text.
    Text,
    /// An IPv4 address.
    Ip,
}

/// The value of a field of an event. Values are ordered as the variants stand here, and within
/// one variant by what it holds.
#[derive(Drop)]
pub enum Value {
    /// The field is missing or has no single value.
    Null,
    /// True or false.
    Bool(bool),
    /// A whole number of 64 signed bits.
    Long(i64),
    /// A text.
    Text(Text),
    /// An IPv4 address; its first number is in the highest eight bits.
    Ip(u32),
}

impl Value {
    /// The place of the value's kind among the kinds.
    fn rank(&self) -> u8
        ensures { result ≡ kind_rank self.now }
    {
        match self {
            Value::Null => 0,
            Value::Bool(_) => 1,
            Value::Long(_) => 2,
            Value::Text(_) => 3,
            Value::Ip(_) => 4,
        }
    }
}

impl Clone for Value {
    ghost is_clone = { λ old new. new ≡ old };

    fn clone(&self) -> Result<Value, AllocError> {
        match self {
            Value::Null => Ok(Value::Null),
            Value::Bool(b) => Ok(Value::Bool(*b)),
            Value::Long(n) => Ok(Value::Long(*n)),
            Value::Text(t) => {
                let copy = t.clone()?;
                Ok(Value::Text(copy))
            }
            Value::Ip(n) => Ok(Value::Ip(*n)),
        }
    }
}

impl PartialEq for Value {
    ghost eq = { value_eq };

    ghost laws = { partial_equiv_from_equiv (eq_by_cmp_equiv value_cmp_total) };

    fn eq(&self, other: &Value) -> bool {
        self.cmp(other).is_eq()
    }
}

impl Eq for Value {
    ghost laws = { eq_by_cmp_equiv value_cmp_total };
}

impl Ord for Value {
    ghost cmp = { value_cmp };

    ghost total = { value_cmp_total };

    ghost matches_partial_cmp = { Prim.search (comparing, rules) };

    ghost matches_eq = { Prim.search (comparing, rules) };

    fn cmp(&self, other: &Value) -> Ordering {
        match (self, other) {
            (Value::Bool(a), Value::Bool(b)) => a.cmp(b),
            (Value::Long(a), Value::Long(b)) => a.cmp(b),
            (Value::Text(a), Value::Text(b)) => a.cmp(b),
            (Value::Ip(a), Value::Ip(b)) => a.cmp(b),
            _ => self.rank().cmp(&other.rank()),
        }
    }
}

impl PartialOrd for Value {
    ghost partial_cmp = { as_partial_cmp value_cmp };

    ghost laws = { partial_order_from_total value_cmp_total };

    fn partial_cmp(&self, other: &Value) -> Option<Ordering> {
        Some(self.cmp(other))
    }
}

/// The values of a key. One alone stands in the key itself, so that a copy of the key takes no memory for a list.
#[derive(Drop)]
enum KeyValues {
    /// One value.
    One(Value),
    /// Any number of values.
    Many(Vec<Value>),
}

/// A join key: the values of the key fields, in their order. Keys are ordered as lists.
pub struct Key {
    values: KeyValues,
}

impl Model for Key {
    ghost use Rattle.std.specs.Prelude.{List};
    ghost use Rattle.eql_values.specs.declared.value.Value.{Value as FieldValue};
    ghost use Rattle.eql_values.specs.Keys.{values_of};

    ghost Value = { List FieldValue };

    ghost view = { λ k. values_of k.values };
}

// A drop of its own: where a key is dropped there is one call, and no match.
impl Drop for Key {
    fn drop(self) {
        let Key { values: _ } = self;
    }
}

impl Key {
    /// The list of these values.
    pub fn of(items: Vec<Value>) -> Key
        ensures { result ≡ items.items }
    {
        let mut items = items;
        if items.len() == 1 {
            if let Some(value) = items.pop() {
                return Key {
                    values: KeyValues::One(value),
                };
            }
        }
        Key {
            values: KeyValues::Many(items),
        }
    }

    /// The values, lent.
    pub fn items(&self) -> &[Value]
        ensures { result.now ≡ self.now }
    {
        match &self.values {
            KeyValues::One(value) => slice::from_ref(value),
            KeyValues::Many(values) => values.as_slice(),
        }
    }
}

impl Clone for Key {
    ghost is_clone = { λ old new. new ≡ old };

    fn clone(&self) -> Result<Key, AllocError> {
        match &self.values {
            KeyValues::One(value) => {
                let value = value.clone()?;
                Ok(Key {
                    values: KeyValues::One(value),
                })
            }
            KeyValues::Many(values) => {
                let values = values.clone()?;
                Ok(Key {
                    values: KeyValues::Many(values),
                })
            }
        }
    }
}

impl PartialEq for Key {
    ghost eq = { key_eq };

    ghost laws = { partial_equiv_from_equiv (eq_by_cmp_equiv key_cmp_total) };

    fn eq(&self, other: &Key) -> bool {
        self.cmp(other).is_eq()
    }
}

impl Eq for Key {
    ghost laws = { eq_by_cmp_equiv key_cmp_total };
}

impl Ord for Key {
    ghost cmp = { key_cmp };

    ghost total = { key_cmp_total };

    ghost matches_partial_cmp = { Prim.search (comparing, rules) };

    ghost matches_eq = { Prim.search (comparing, rules) };

    fn cmp(&self, other: &Key) -> Ordering {
        self.items().cmp(other.items())
    }
}

impl PartialOrd for Key {
    ghost partial_cmp = { as_partial_cmp key_cmp };

    ghost laws = { partial_order_from_total key_cmp_total };

    fn partial_cmp(&self, other: &Key) -> Option<Ordering> {
        Some(self.cmp(other))
    }
}

/// The values of the used fields of an event, in the order of the fields.
#[derive(Drop)]
pub struct Slots {
    items: Vec<Value>,
}

impl Model for Slots {
    ghost use Rattle.std.specs.Prelude.{List};
    ghost use Rattle.eql_values.specs.declared.value.Value.{Value as FieldValue};

    ghost Value = { List FieldValue };

    ghost view = { λ l. l.items.items };
}

impl Slots {
    /// The list of these values.
    pub fn of(items: Vec<Value>) -> Slots
        ensures { result ≡ items.items }
    {
        Slots { items }
    }

    /// The values, lent.
    pub fn items(&self) -> &Vec<Value>
        ensures { result.now.items ≡ self.now }
    {
        &self.items
    }

    /// The values, taken out.
    pub fn into_items(self) -> Vec<Value>
        ensures { result.items ≡ self }
    {
        self.items
    }
}

impl Clone for Slots {
    ghost is_clone = { λ old new. new ≡ old };

    fn clone(&self) -> Result<Slots, AllocError> {
        let items = self.items.clone()?;
        Ok(Slots { items })
    }
}

/// The literals of a list test.
#[derive(Drop)]
pub struct Literals {
    items: Vec<Value>,
}

impl Model for Literals {
    ghost use Rattle.std.specs.Prelude.{List};
    ghost use Rattle.eql_values.specs.declared.value.Value.{Value as FieldValue};

    ghost Value = { List FieldValue };

    ghost view = { λ l. l.items.items };
}

impl Literals {
    /// The list of these values.
    pub fn of(items: Vec<Value>) -> Literals
        ensures { result ≡ items.items }
    {
        Literals { items }
    }

    /// The values, lent.
    pub fn items(&self) -> &Vec<Value>
        ensures { result.now.items ≡ self.now }
    {
        &self.items
    }

    /// The values, taken out.
    pub fn into_items(self) -> Vec<Value>
        ensures { result.items ≡ self }
    {
        self.items
    }
}

impl Clone for Literals {
    ghost is_clone = { λ old new. new ≡ old };

    fn clone(&self) -> Result<Literals, AllocError> {
        let items = self.items.clone()?;
        Ok(Literals { items })
    }
}

/// Names of fields with their kinds.
#[derive(Drop)]
pub struct NameKinds {
    items: Vec<(Text, Kind)>,
}

impl Model for NameKinds {
    ghost use Rattle.std.specs.Prelude.{List};
    ghost use Rattle.std.specs.Prelude.{ℕ};
    ghost use Rattle.eql_values.specs.declared.value.Kind.{Kind as FieldKind};

    ghost Value = { List (List ℕ × FieldKind) };

    ghost view = { λ l. l.items.items };
}

impl NameKinds {
    /// The list of these pairs.
    pub fn of(items: Vec<(Text, Kind)>) -> NameKinds
        ensures { result ≡ items.items }
    {
        NameKinds { items }
    }

    /// The pairs, lent.
    pub fn items(&self) -> &Vec<(Text, Kind)>
        ensures { result.now.items ≡ self.now }
    {
        &self.items
    }

    /// The pairs, taken out.
    pub fn into_items(self) -> Vec<(Text, Kind)>
        ensures { result.items ≡ self }
    {
        self.items
    }
}

impl PartialEq for NameKinds {
    ghost eq = { names_eq };

    ghost laws = { partial_equiv_from_equiv names_eq_equiv };

    fn eq(&self, other: &NameKinds) -> bool {
        self.items == other.items
    }
}

impl Eq for NameKinds {
    ghost laws = { names_eq_equiv };
}

impl Clone for NameKinds {
    ghost is_clone = { λ old new. new ≡ old };

    fn clone(&self) -> Result<NameKinds, AllocError> {
        let items = self.items.clone()?;
        Ok(NameKinds { items })
    }
}
