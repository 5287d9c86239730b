//! What the condition of a checked query gives over the values of fields, evaluated plainly and run as code.
use eql_check::Checked;
use eql_code::{Code, Stack, compile};
use eql_query::{Body, Expr};
use eql_truth::eval;
use eql_values::{Memory, Slots, Text, Value};
use std::alloc::Global;

/// The characters of a field whose value is a text.
fn characters_of(name: &str) -> Option<&'static str> {
    Some(match name {
        "t" => "Cmd.exe",
        "event.type" => "start",
        "process.name" => "CMD.EXE",
        "user.name" => "AB",
        _ => return None,
    })
}

/// The value of a field where it is no text.
fn other_value(name: &str) -> Value {
    match name {
        "b" => Value::Bool(true),
        "l" => Value::Long(5),
        "process.args_count" => Value::Long(3),
        "destination.port" => Value::Long(445),
        // 10.9.8.7
        "i" | "destination.ip" => Value::Ip(168_364_039),
        _ => Value::Null,
    }
}

/// The value of a field.
fn value_of(alloc: Global, name: &str) -> Result<Value, Memory> {
    match characters_of(name) {
        Some(characters) => Ok(Value::Text(Text::of(String::from_str(alloc, characters)?))),
        None => Ok(other_value(name)),
    }
}

/// The values of the used fields, by their slots.
fn slots_of(alloc: Global, checked: &Checked) -> Result<Slots, Memory> {
    let mut values = Vec::new(alloc);
    for field in checked.fields().items() {
        values.push(value_of(alloc, field.0.text())?)?;
    }
    Ok(Slots::of(values))
}

/// Whether code gives this value, and holds exactly when it is true, one after the other on one stack.
fn code_gives(alloc: Global, code: &Code, slots: &Slots, value: &Value) -> Result<bool, Memory> {
    let mut stack = Stack::with(alloc, code.depth())?;
    let is_same = code.run(alloc, slots, &mut stack)? == *value;
    let holds = code.holds(alloc, slots, &mut stack)?;
    Ok(is_same && holds == (*value == Value::Bool(true)))
}

/// The same for a copy of the code.
fn copy_gives(alloc: Global, code: &Code, slots: &Slots, value: &Value) -> Result<bool, Memory> {
    let copy = code.clone()?;
    code_gives(alloc, &copy, slots, value)
}

/// Whether a condition's code and a copy of it give this value, and hold exactly when it is true.
fn both_give(
    alloc: Global,
    cond: &Expr,
    checked: &Checked,
    slots: &Slots,
    value: &Value,
) -> Result<bool, Memory> {
    let code = compile(alloc, cond, checked)?;
    Ok(code_gives(alloc, &code, slots, value)? && copy_gives(alloc, &code, slots, value)?)
}

/// A value as a word.
fn word(value: &Value) -> &'static str {
    match value {
        Value::Bool(true) => "true",
        Value::Bool(false) => "false",
        Value::Null => "null",
        _ => "no truth value",
    }
}

/// What a condition of a checked query gives over these values, evaluated plainly. Its code and a copy of that give
/// the same.
fn given_over(
    alloc: Global,
    cond: &Expr,
    checked: &Checked,
    slots: &Slots,
) -> Result<&'static str, Memory> {
    let plain = eval(alloc, cond, checked, slots)?;
    if both_give(alloc, cond, checked, slots, &plain)? {
        Ok(word(&plain))
    } else {
        Ok("another value by its code")
    }
}

/// What the condition of a checked query gives: `true`, `false` or `null`.
pub fn given(alloc: Global, checked: &Checked) -> Result<&'static str, Memory> {
    let Body::Event(term) = &checked.query().body else {
        return Ok("a sequence");
    };
    let slots = slots_of(alloc, checked)?;
    let given = given_over(alloc, &term.cond, checked, &slots);
    drop(slots);
    given
}
