//! A number for each key, by which keys are told apart before they are compared as a whole. Where the numbers of two keys differ,
//! they are nearly always in the order of the keys. No clause says so: what is done with the numbers is to be right whatever they
//! are, and it is fast where they put the keys in order.

use crate::value::{Key, Value};

/// The eight bytes of a text from a place on as a number, the first of them the highest. Bytes that it lacks count as 0.
fn lead_of_bytes(bytes: &[u8], from: usize) -> u64 {
    let rest = bytes.get(from..).unwrap_or(&[]);
    if let [a, b, c, d, e, f, g, h, ..] = rest {
        return u64::from_be_bytes([*a, *b, *c, *d, *e, *f, *g, *h]);
    }
    let mut lead = 0;
    for byte in rest {
        lead = (lead << 8) | u64::from(*byte);
    }
    for _lacking in rest.len()..8 {
        lead <<= 8;
    }
    lead
}

/// The number of a value, with the eight bytes of a text from a place on.
fn lead_of_value(value: &Value, from: usize) -> u64 {
    match value {
        Value::Null => 0,
        Value::Bool(value) => 1 + u64::from(*value),
        Value::Long(value) => u64::from_be_bytes(value.to_be_bytes()) ^ (1 << 63),
        Value::Text(text) => lead_of_bytes(text.text().as_bytes(), from),
        Value::Ip(value) => 1 + u64::from(*value),
    }
}

/// Whether eight bytes don't tell the value from those that begin with it.
fn goes_on(value: &Value) -> bool {
    match value {
        Value::Text(text) => 8 <= text.text().len(),
        _ => false,
    }
}

impl Key {
    /// The number of the key: that of its first value, and behind it what comes next in the first value where that is a text of
    /// eight bytes or more, and else that of the second value.
    pub fn lead(&self) -> u128 {
        let values = self.items();
        let Some(first) = values.first() else {
            return 0;
        };
        let high = lead_of_value(first, 0);
        let low = if goes_on(first) {
            lead_of_value(first, 8)
        } else {
            match values.get(1) {
                None => 0,
                Some(second) => lead_of_value(second, 0),
            }
        };
        (u128::from(high) << 64) | u128::from(low)
    }
}
