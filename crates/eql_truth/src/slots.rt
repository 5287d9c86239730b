//! The slots of the used fields.
ghost use Rattle.std.specs.Prelude.{◌≡◌, IfOk};
ghost use Rattle.eql_check.specs.Truth as truth;

use eql_operators::slot_of;
use eql_values::{Kind, Memory, Text, Value};

/// A copy of the value of a field: that of its slot, and null where it is no used field.
pub fn look_up(fields: &[(Text, Kind)], slots: &[Value], name: &Text) -> Result<Value, Memory>
    ensures { IfOk result (λ v. v ≡ truth.value_at fields.now slots.now name.now) }
{
    match slot_of(fields, name) {
        Some(slot) if slot < slots.len() => Ok(slots[slot].clone()?),
        _ => Ok(Value::Null),
    }
}
