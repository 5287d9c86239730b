//! The slots of the used fields.
ghost use Rattle.std.specs.Prelude.{◌≡◌, ◌<◌, IfSome, length};
ghost use Rattle.eql_check.specs.Truth as truth;

use eql_values::{Kind, Text};

/// The slot of the field with this name: its place among the used fields, from 0; `None` where it is no used field.
pub fn slot_of(fields: &[(Text, Kind)], name: &Text) -> Option<usize>
    ensures value { result ≡ truth.slot_of fields.now name.now }
    ensures within { IfSome result (λ i. i < length fields.now) }
{
    fields.iter().position(|field| field.0 == *name)
}
