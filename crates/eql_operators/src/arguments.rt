//! The arguments of a call.
ghost use Rattle.std.specs.Prelude.{◌≡◌, ◌<◌, ℕ, List, length, get_or, ◌∷◌, []};
ghost use Rattle.eql_values.specs.declared.value.Value.{Value as FieldValue};

use eql_values::Value;

/// A list of values, wherever they lie.
pub trait Arguments {
    /// The values.
    ghost values: { Self → List FieldValue };

    /// How many they are.
    fn count(&self) -> usize
        ensures { result ≡ length (values self.now) };

    /// The value at a place, from 0.
    fn at(&self, place: usize) -> &Value
        requires { place < length (values self.now) }
        ensures { result.now ≡ get_or (values self.now) place result.now };
}

impl Arguments for Vec<Value> {
    ghost values = { λ v. v.items };

    fn count(&self) -> usize {
        self.len()
    }

    fn at(&self, place: usize) -> &Value {
        &self[place]
    }
}
