//! Nulls of every kind in every place, beside values.
use crate::tests::answer::{Asked, each_answers};
use std::test::Fail;

/// Conditions, and what each gives.
static CONDITIONS: &str = r#"
// `and` is false where an operand is false, else null where one is null, else true.
true and true => true
true and false => false
false and true => false
false and false => false
true and nb => null
nb and true => null
false and nb => false
nb and false => false
nb and nb => null
null and true => null
false and null => false
null and null => null
?x and true => null
false and ?x => false
b and true and nb => null
true and nb and false => false
nb and true and true => null
nb and nb and false => false
false and nb and nb => false
false and null and true => false
b and b and b => true
true and nb and null and b => null
null and b and ?x and false => false

// `or` is true where an operand is true, else null where one is null, else false.
true or true => true
true or false => true
false or true => true
false or false => false
true or nb => true
nb or true => true
false or nb => null
nb or false => null
nb or nb => null
null or true => true
false or null => null
null or null => null
?x or true => true
false or ?x => null
b or true or nb => true
true or nb or false => true
nb or true or true => true
nb or nb or false => null
false or nb or nb => null
false or null or true => true
b or b or b => true
false or nb or null or false => null
null or false or ?x or b => true

// `not`, and operands that stand alone.
not true => false
not false => true
not b => false
not nb => null
not null => null
not ?x => null
true => true
false => false
b => true
nb => null
null => null
?x => null

// Comparisons with the literal `null`: `==` and `!=` ask whether the other side is null, and no order is known.
nl == null => true
nl != null => false
l == null => false
l != null => true
null == null => true
null != null => false
null == nt => true
null != t => true
?x == null => true
null != ?x => false
5 == null => false
null != 5 => true
nb == null => true
b != null => true
ni == null => true
i == null => false
"a" == null => false
null == true => false
nl < null => null
5 < null => null
null >= 5 => null
null <= null => null
"a" > null => null

// Comparisons of two values.
l == 5 => true
l != 5 => false
l < 5 => false
l <= 5 => true
l > 4 => true
l >= 6 => false
t == "Cmd.exe" => true
t == "cmd.exe" => false
t != "cmd.exe" => true
t < "D" => true
"é" > "z" => true
"\u{10000}" > "\u{ffff}" => true
t <= "Cmd.exe" => true
t >= "Cmd.exe" => true
b == true => true
false == b => false
b != true => false
i == "10.9.8.7" => true
i != "10.9.8.7" => false
"10.9.8.8" == i => false
"10.9.8.8" != i => true

// Comparisons of a value with a field that has none.
nl < 5 => null
nl <= 5 => null
nl == 5 => null
nl != 5 => null
nl >= 5 => null
nl > 5 => null
5 < nl => null
5 <= nl => null
5 == nl => null
5 != nl => null
5 >= nl => null
5 > nl => null
nt < "a" => null
nt <= "a" => null
nt == "a" => null
nt != "a" => null
nt >= "a" => null
nt > "a" => null
"a" < nt => null
"a" <= nt => null
"a" == nt => null
"a" != nt => null
"a" >= nt => null
"a" > nt => null
nb == true => null
nb != true => null
true == nb => null
true != nb => null
ni == "10.9.8.7" => null
ni != "10.9.8.7" => null
"10.9.8.7" == ni => null
"10.9.8.7" != ni => null

// Comparisons of a value with a field that the mapping doesn't have.
?x < 5 => null
?x <= 5 => null
?x == 5 => null
?x != 5 => null
?x >= 5 => null
?x > 5 => null
5 < ?x => null
5 <= ?x => null
5 == ?x => null
5 != ?x => null
5 >= ?x => null
5 > ?x => null
?x < "a" => null
?x <= "a" => null
?x == "a" => null
?x != "a" => null
?x >= "a" => null
?x > "a" => null
"a" < ?x => null
"a" <= ?x => null
"a" == ?x => null
"a" != ?x => null
"a" >= ?x => null
"a" > ?x => null
?x == false => null
?x != false => null
false == ?x => null
false != ?x => null

// Operators on two numbers: quotients are floors, and a result outside 64 signed bits is null.
-7 / 2 == -4 => true
-7 % 2 == 1 => true
7 / -2 == -4 => true
7 % -2 == -1 => true
-7 / -2 == 3 => true
-7 % -2 == -1 => true
5 / 0 == null => true
5 % 0 == null => true
9223372036854775807 + 1 == null => true
-9223372036854775807 - 1 == null => false
-9223372036854775807 - 1 - 1 == null => true
9223372036854775807 * 2 == null => true
(-9223372036854775807 - 1) / -1 == null => true
(-9223372036854775807 - 1) % -1 == 0 => true
l + 2 == 7 => true
2 - l == -3 => true
l * l == 25 => true
-(-9223372036854775807 - 1) == null => true
-nl == null => true
-null == null => true
-l == -5 => true
-nl == 0 => null

// Operators on a number and a null give null, which no number equals.
nl + 2 == null => true
nl - 2 == null => true
nl * 2 == null => true
nl / 2 == null => true
nl % 2 == null => true
2 + nl == null => true
2 - nl == null => true
2 * nl == null => true
2 / nl == null => true
2 % nl == null => true
?x + 2 == null => true
?x - 2 == null => true
?x * 2 == null => true
?x / 2 == null => true
?x % 2 == null => true
2 + null == null => true
2 - null == null => true
2 * null == null => true
2 / null == null => true
2 % null == null => true
nl + 2 == 0 => null
nl - 2 == 0 => null
nl * 2 == 0 => null
nl / 2 == 0 => null
nl % 2 == 0 => null
2 + nl == 0 => null
2 - nl == 0 => null
2 * nl == 0 => null
2 / nl == 0 => null
2 % nl == 0 => null
?x + 2 == 0 => null
?x - 2 == 0 => null
?x * 2 == 0 => null
?x / 2 == 0 => null
?x % 2 == 0 => null
2 + null == 0 => null
2 - null == 0 => null
2 * null == 0 => null
2 / null == 0 => null
2 % null == 0 => null
"#;

#[test]
fn nulls_give_these_values(rt: HostRuntime) -> Result<(), Fail> {
    each_answers(&rt, rt.alloc(), Asked::Value, CONDITIONS)
}
