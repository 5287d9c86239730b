//! Conditions as users write them.
use crate::tests::answer::{Asked, each_answers, one_answers};
use std::test::Fail;

/// Conditions, and what each gives.
static CONDITIONS: &str = r#"
// A comparison with a field without value, and a result that is none, are null and not false.
process.pid == 1 => null
not (process.pid == 1) => null
5 / 0 == 0 => null
not (5 / 0 == 0) => null
9223372036854775807 + 1 == 0 => null
not (9223372036854775807 + 1 == 0) => null
process.pid == 1 or true => true
process.pid == 1 and false => false
process.pid == 1 or process.args_count == 3 => true
process.pid == null and process.args_count == 3 => true
process.pid != null or process.args_count == 4 => false

// Operators bind as the grammar has it: `-`, then `*`, `/` and `%`, then `+` and `-`, each from the left, then
// comparisons, `not`, `and`, `or`.
-7 / 2 == -4 and -7 % 2 == 1 => true
1 + 2 * 3 == 7 => true
(1 + 2) * 3 == 9 => true
10 - 4 - 3 == 3 => true
10 - (4 - 3) == 9 => true
2 * 7 % 4 == 2 => true
8 / 2 / 2 == 2 => true
-2 * -3 == 6 => true
7 - -3 == 10 => true
--5 == 5 => true
not true or true => true
not (true or true) => false
true or nb and false => true
(true or nb) and false => false
false and nb or true => true
not nb and false => false
not not b => true
not l == 5 => false
(l == 5) == true => true
(nl == 5) == true => null
(nl == 5) == null => true

// One text fits two patterns.
user.name : "a*" => true
user.name : "*b" => true
"AB" : "a*" => true
"AB" : "*b" => true
process.name : "a*" => false

// The conditions of a chain of events: a process starts, connects and ends. Each conjunct stands also by itself.
event.type == "start" and process.name : "cmd.exe" and process.args_count > 1 => true
cidrMatch(destination.ip, "10.0.0.0/8") and destination.port in (445, 3389) => true
event.type == "end" => false
event.type == "start" => true
process.name : "cmd.exe" => true
process.args_count > 1 => true
process.args_count > 3 => false
cidrMatch(destination.ip, "10.0.0.0/8") => true
destination.port in (445, 3389) => true
destination.port not in (80, 443) => true

// Fields and texts in each of their spellings: in backticks, with `?`, between three quotes, by escapes.
`process.name` == "CMD.EXE" => true
process.`name` == "CMD.EXE" => true
?process.name == "CMD.EXE" => true
?l == 5 => true
?nl == 5 => null
"""C:\x""" == "C:\\x" => true
length("""\n""") == 2 => true
length("\n") == 1 => true
"\u{e9}" == "é" => true
"e\u{301}" == "é" => false

// Lists in lists: where an `and` is false or an `or` is true, what is left of that list says no more, and what stands
// behind the list does.
(false and b or true) and (nb or true) => true
not (true or nb) or (b and l == 5 and false) => false
(b or nb) and (false and nb) and b => false
(nb and false) or (nb or true) and b => true
nb and (true or b) and (false or nb) => null
(false and true and b) or (false and nb) or nb => null
(true or false or b) and (true or nb) and nl == 1 => null
(true or false) and (false or false or true) and not (false and true) => true
(false and true) == (true or false) => false
(false and true and true) == (not (true or false or false)) => true
(true or length(t) == 7) and (false and startsWith(t, "x") or l in (4, 5)) => true
concat(true or nb, false and b) == "truefalse" => true
concat(false and b and b, "-", nb or b or false, "-", l) == "false-true-5" => true
concat(true or nb, nb and true) == null => true
"#;

/// A condition of two lines, with each kind of comment.
static COMMENTED: &str = "/* a start */ event.type == // its type\n \"start\"";

#[test]
fn conditions_give_these_values(rt: HostRuntime) -> Result<(), Fail> {
    each_answers(&rt, rt.alloc(), Asked::Value, CONDITIONS)?;
    one_answers(&rt, rt.alloc(), Asked::Value, COMMENTED, "true")
}
