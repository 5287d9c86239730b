//! The shared values: copies, tests of stages and orders, each called once where memory is ample.
use eql_values::{Key, Literals, Mark, Mask, Memory, OrderKey, Text, Value};
use std::alloc::Global;
use std::cmp::Ordering;

/// One value of each kind, in the order of the kinds.
fn one_of_each(alloc: Global) -> Result<Vec<Value>, Memory> {
    let text = Text::of(String::from_str(alloc, "café")?);
    Ok(vec![in alloc;
        Value::Null,
        Value::Bool(true),
        Value::Long(-7),
        Value::Text(text),
        Value::Ip(0x0a00_0001),
    ]?)
}

/// Whether a key is equal to its copy.
fn copies_key(alloc: Global) -> Result<bool, Memory> {
    let key = Key::of(one_of_each(alloc)?);
    Ok(key.clone()? == key)
}

/// Whether literals are equal to their copy.
fn copies_literals(alloc: Global) -> Result<bool, Memory> {
    let literals = Literals::of(one_of_each(alloc)?);
    let copy = literals.clone()?;
    Ok(copy.items().as_slice() == literals.items().as_slice())
}

#[test]
fn copies_are_equal(rt: HostRuntime) {
    assert!(rt; copies_key(rt.alloc()) == Ok(true) && copies_literals(rt.alloc()) == Ok(true));
}

/// Whether each value is less than the next.
fn ascend(values: &[Value]) -> bool {
    for (lesser, greater) in values.iter().zip(values.iter().skip(1)) {
        if lesser.cmp(greater) != Ordering::Less {
            return false;
        }
    }
    true
}

/// Whether the kinds of values stand in their order.
fn kinds_ascend(alloc: Global) -> Result<bool, Memory> {
    Ok(ascend(&one_of_each(alloc)?))
}

#[test]
fn kinds_stand_in_their_order(rt: HostRuntime) {
    assert!(rt; kinds_ascend(rt.alloc()) == Ok(true));
}

/// Stages, and whether the mask of the stages 1, 128, 129 and 256 has them.
static STAGES: &[(u32, bool)] = &[
    (1, true),
    (2, false),
    (127, false),
    (128, true),
    (129, true),
    (130, false),
    (256, true),
];

/// The first stage of which the mask says the opposite.
fn wrong_stage() -> Option<u32> {
    let mask = Mask {
        low: 1 << 127 | 1,
        high: 1 << 127 | 1,
    };
    for (stage, has) in STAGES {
        if mask.has(*stage) != *has {
            return Some(*stage);
        }
    }
    None
}

/// Whether marks stand in their order.
fn marks_ascend() -> bool {
    Mark::Start < Mark::At(-1) && Mark::At(-1) < Mark::At(0) && Mark::At(9) < Mark::End
}

/// An event, and events of which the first comes before it, and the others behind.
const EVENT: OrderKey = OrderKey {
    ts: 5,
    tie: Some(1),
    shard: 0,
    line: 2,
    at: 9,
};

const EARLIER: OrderKey = OrderKey {
    ts: 4,
    tie: None,
    ..EVENT
};

const WITHOUT_TIE: OrderKey = OrderKey { tie: None, ..EVENT };

const OF_NEXT_SHARD: OrderKey = OrderKey {
    shard: 1,
    line: 1,
    ..EVENT
};

const OF_NEXT_LINE: OrderKey = OrderKey { line: 3, ..EVENT };

/// Whether events stand in their order.
fn events_ascend() -> bool {
    EARLIER < EVENT && EVENT < WITHOUT_TIE && EVENT < OF_NEXT_SHARD && EVENT < OF_NEXT_LINE
}

#[test]
fn stages_marks_and_events(rt: HostRuntime) {
    assert_eq!(rt; wrong_stage(), None);
    assert!(rt; marks_ascend() && events_ascend());
}
