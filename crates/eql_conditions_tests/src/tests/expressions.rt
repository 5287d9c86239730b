//! Expressions: the functions and fields that there are, and the kinds that fit.
use crate::tests::answer::{Asked, each_answers};
use std::test::Fail;

/// Queries, and what the check of each returns.
static QUERIES: &str = r#"
// A field is one of the mapping's, or it is marked as optional.
any where n == 1 => 0 keys n
any where x == 1 => UnknownField x
any where ?x == 1 => 0 keys
any where ?n == 1 => 0 keys n
any where `n` == 1 => 0 keys n
any where N == 1 => UnknownField N
any where n.m == 1 => UnknownField n.m
any where x == null => UnknownField x
any where ?x == null => 0 keys
any where not x => UnknownField x
any where -x == 1 => UnknownField x
any where x : "a" => UnknownField x
any where x in (1) => UnknownField x
any where length(x) == 1 => UnknownField x
sequence by x [any where true] [any where true] => UnknownField x
sequence by ?x [any where true] [any where true] => 1 keys
sequence [any where true] by x [any where true] by t => UnknownField x
sequence [any where true] by ?x [any where true] by t => 1 keys t
sequence [any where true] [any where true] until [any where x] => UnknownField x

// The used fields, in the order of first use: the shared keys, and of each item its condition's and its keys.
any where m == 1 and n == 2 and m == 3 => 0 keys m n
any where concat(t, ?x, n) == "a" or b => 0 keys t n b
sequence by t [any where m == 1] by n [any where b] by m => 2 keys t m n b
sequence [any where m == 1] by t [any where true] by t until [any where n == 1] by t => 1 keys m t n

// A function is one of the table's, and its form with `~` is there where it compares texts.
any where length("a") == 1 => 0 keys
any where Length("a") == 1 => UnknownFunction Length
any where strlen("a") == 1 => UnknownFunction strlen
any where n() == 1 => UnknownFunction n
any where indexOf~("a", "b") == 1 => 0 keys
any where startsWith~(t, "a") => 0 keys t
any where endsWith~("a", "b") => 0 keys
any where stringContains~("a", "b") => 0 keys
any where between~("a", "b", "c") == "" => 0 keys
any where add~(1, 2) == 3 => UnknownFunction add~
any where subtract~(1, 2) == 3 => UnknownFunction subtract~
any where multiply~(1, 2) == 3 => UnknownFunction multiply~
any where divide~(1, 2) == 3 => UnknownFunction divide~
any where modulo~(1, 2) == 3 => UnknownFunction modulo~
any where length~("a") == 1 => UnknownFunction length~
any where concat~("a") == "a" => UnknownFunction concat~
any where substring~("a", 0) == "a" => UnknownFunction substring~
any where string~(1) == "1" => UnknownFunction string~
any where number~("1") == 1 => UnknownFunction number~
any where cidrMatch~(a, "10.0.0.0/8") => UnknownFunction cidrMatch~

// The fewest arguments and one less, the most and one more.
any where add(1) == 1 => Arity add
any where subtract(1) == 1 => Arity subtract
any where multiply(1) == 1 => Arity multiply
any where divide(1) == 1 => Arity divide
any where modulo(1) == 1 => Arity modulo
any where add(1, 2) == 1 => 0 keys
any where subtract(1, 2) == 1 => 0 keys
any where multiply(1, 2) == 1 => 0 keys
any where divide(1, 2) == 1 => 0 keys
any where modulo(1, 2) == 1 => 0 keys
any where add(1, 2, 3) == 1 => Arity add
any where subtract(1, 2, 3) == 1 => Arity subtract
any where multiply(1, 2, 3) == 1 => Arity multiply
any where divide(1, 2, 3) == 1 => Arity divide
any where modulo(1, 2, 3) == 1 => Arity modulo
any where length() == 1 => Arity length
any where length("a", "b") == 1 => Arity length
any where indexOf("a") == 1 => Arity indexOf
any where indexOf("a", "b") == 1 => 0 keys
any where indexOf("a", "b", 1) == 1 => 0 keys
any where indexOf("a", "b", 1, 2) == 1 => Arity indexOf
any where startsWith("a") => Arity startsWith
any where startsWith("a", "b") => 0 keys
any where startsWith("a", "b", "c") => Arity startsWith
any where endsWith~(t) => Arity endsWith~
any where endsWith("a", "b") => 0 keys
any where endsWith("a", "b", "c") => Arity endsWith
any where stringContains("a") => Arity stringContains
any where stringContains("a", "b") => 0 keys
any where stringContains("a", "b", "c") => Arity stringContains
any where concat() == "" => Arity concat
any where concat("a") == "" => 0 keys
any where concat(1, 2, 3, 4, 5, 6, 7, 8, 9) == "" => 0 keys
any where substring("a") == "" => Arity substring
any where substring("a", 1) == "" => 0 keys
any where substring("a", 1, 2) == "" => 0 keys
any where substring("a", 1, 2, 3) == "" => Arity substring
any where between("a", "b") == "" => Arity between
any where between("a", "b", "c") == "" => 0 keys
any where between("a", "b", "c", true) == "" => 0 keys
any where between("a", "b", "c", true, true) == "" => Arity between
any where string() == "" => Arity string
any where string(1) == "" => 0 keys
any where string(1, 2) == "" => Arity string
any where number() == 1 => Arity number
any where number("1") == 1 => 0 keys
any where number("1", 2, 3) == 1 => Arity number
any where cidrMatch(a) => Arity cidrMatch
any where cidrMatch(a, "10.0.0.0/8") => 0 keys a
any where cidrMatch(a, "10.0.0.0/8", "10.0.0.0/8", "10.0.0.0/8") => 0 keys a

// Conditions, and operands of `not`, `and` and `or`, are Boolean or always null.
any where b => 0 keys b
any where true => 0 keys
any where null => 0 keys
any where ?x => 0 keys
any where 1 => KindMismatch 1
any where "a" => KindMismatch 1
any where n => KindMismatch 1
any where t => KindMismatch 1
any where a => KindMismatch 1
any where length(t) => KindMismatch 1
any where n + 1 => KindMismatch 1
any where not b => 0 keys b
any where not null => 0 keys
any where not n => KindMismatch 1
any where b and null => 0 keys b
any where b and n => KindMismatch 1
any where "true" and b => KindMismatch 1
any where ?x or b => 0 keys b
any where b or true or t => KindMismatch 1
sequence [any where true] [any where 1] => KindMismatch 2
sequence [any where true] [any where true] until [any where 1] => KindMismatch 3

// `==` and `!=` take two sides of one kind, or an address and a text in quotes that is one.
any where n == 1 => 0 keys n
any where n == "1" => KindMismatch 1
any where n == true => KindMismatch 1
any where t != "a" => 0 keys t
any where t != 1 => KindMismatch 1
any where b == true => 0 keys b
any where b == "true" => KindMismatch 1
any where "a" == 1 => KindMismatch 1
any where null == a => 0 keys a
any where null != "a" => 0 keys
any where null == null => 0 keys
any where ?x == 1 => 0 keys
any where a == "10.0.0.1" => 0 keys a
any where "10.0.0.1" != a => 0 keys a
any where a == "255.255.255.255" => 0 keys a
any where a == "255.255.255.256" => KindMismatch 1
any where a != "10.0.0" => KindMismatch 1
any where a == "10.0.0.01" => KindMismatch 1
any where a == 1 => KindMismatch 1
any where a == concat("10.0.0.1") => KindMismatch 1
any where (n == 1) == true => 0 keys n

// The other comparisons take two numbers, two texts, or what is always null.
any where n < 1 => 0 keys n
any where t >= "a" => 0 keys t
any where n < "1" => KindMismatch 1
any where null < 1 => 0 keys
any where "a" > null => 0 keys
any where null <= null => 0 keys
any where b < true => KindMismatch 1
any where null < true => KindMismatch 1
any where a <= "10.0.0.1" => KindMismatch 1
any where a > null => KindMismatch 1

// No comparison has a field on both sides.
any where n == m => FieldToField 1
any where n == n => FieldToField 1
any where n < m + 1 => FieldToField 1
any where n <= m => FieldToField 1
any where n > m => FieldToField 1
any where n >= m => FieldToField 1
any where n != m => FieldToField 1
any where -n == m => FieldToField 1
any where (b or true) == (true and b) => FieldToField 1
any where n + m == 1 => 0 keys n m
any where length(t) == n => FieldToField 1
any where length(t) == 1 => 0 keys t
any where ?x == ?y => FieldToField 1
any where n != ?x => FieldToField 1
any where a == c => FieldToField 1
any where (n == 1) == (m == 1) => FieldToField 1
any where (n in (1)) == b => FieldToField 1
any where (t : "a") != (not b) => FieldToField 1
any where n == 1 and m == 2 => 0 keys n m
sequence [any where true] [any where n == m] => FieldToField 2

// Patterns are for texts, and the literals of a list have the kind of the value; with `~` all are texts.
any where t : "*" => 0 keys t
any where null like "*" => 0 keys
any where n : "*" => KindMismatch 1
any where b like ("a", "b") => KindMismatch 1
any where a like~ "10.*" => KindMismatch 1
any where n in (1, -2) => 0 keys n
any where n in (1, "2") => KindMismatch 1
any where n not in (true) => KindMismatch 1
any where t in ("a", "b") => 0 keys t
any where t in ("a", 1) => KindMismatch 1
any where b in (true, false) => 0 keys b
any where b in (1) => KindMismatch 1
any where a in ("10.0.0.1", "0.0.0.0") => 0 keys a
any where a in ("10.0.0.1", "x") => KindMismatch 1
any where a in (1) => KindMismatch 1
any where null in (1) => 0 keys
any where ?x in (1, "a", true) => 0 keys
any where t in~ ("a", "b") => 0 keys t
any where t not in~ ("a", 1) => KindMismatch 1
any where null in~ ("a") => 0 keys
any where null in~ (1) => KindMismatch 1
any where n in~ (1) => KindMismatch 1
any where t in~ (1) => KindMismatch 1
any where a in~ ("10.0.0.1") => KindMismatch 1

// Numbers are for arithmetic, and each function has its kinds.
any where -n == 1 => 0 keys n
any where -null == 1 => 0 keys
any where -t == 1 => KindMismatch 1
any where n + null == 1 => 0 keys n
any where n + "a" == 1 => KindMismatch 1
any where b * 1 == 1 => KindMismatch 1
any where 1 % a == 1 => KindMismatch 1
any where add(1, null) == 1 => 0 keys
any where add(1, "a") == 1 => KindMismatch 1
any where length(null) == 1 => 0 keys
any where length(1) == 1 => KindMismatch 1
any where length("a") == "1" => KindMismatch 1
any where indexOf(t, "a", ?x) == 1 => 0 keys t
any where indexOf("a", 1) == 1 => KindMismatch 1
any where indexOf("a", "b", "c") == 1 => KindMismatch 1
any where startsWith(n, "a") => KindMismatch 1
any where endsWith~("a", a) => KindMismatch 1
any where stringContains(true, "a") => KindMismatch 1
any where concat(a, b, n, t, null) == "" => 0 keys a b n t
any where concat(1, 2) == 12 => KindMismatch 1
any where substring("a", "b") == "" => KindMismatch 1
any where substring("a", 1, true) == "" => KindMismatch 1
any where between("a", "b", "c", null) == "" => 0 keys
any where between("a", "b", "c", 1) == "" => KindMismatch 1
any where between("a", "b", 1) == "" => KindMismatch 1
any where string(a) == "" => 0 keys a
any where string(1) == 1 => KindMismatch 1
any where number(t) == 1 => 0 keys t
any where number(1) == 1 => KindMismatch 1
any where cidrMatch(t, "10.0.0.0/8") => 0 keys t
any where cidrMatch(?x, "10.0.0.0/8") => 0 keys
any where cidrMatch(n, "10.0.0.0/8") => KindMismatch 1
any where cidrMatch(a, ?x) => 0 keys a
any where cidrMatch(a, t) => KindMismatch 1
any where cidrMatch(a, c) => KindMismatch 1
any where cidrMatch(a, concat("10.0.0.0/8")) => KindMismatch 1
any where cidrMatch(a, 1) => KindMismatch 1

// A block of `cidrMatch` is an IPv4 address, `/` and 0 to 32.
any where cidrMatch(a, "10.0.0.0/0") => 0 keys a
any where cidrMatch(a, "10.0.0.0/32") => 0 keys a
any where cidrMatch(a, "10.0.0.0/33") => Cidr 10.0.0.0/33
any where cidrMatch(a, "255.255.255.255/8") => 0 keys a
any where cidrMatch(a, "256.0.0.0/8") => Cidr 256.0.0.0/8
any where cidrMatch(a, "10.0.0.0/08") => Cidr 10.0.0.0/08
any where cidrMatch(a, "10.0.0.0/") => Cidr 10.0.0.0/
any where cidrMatch(a, "10.0.0.0") => Cidr 10.0.0.0
any where cidrMatch(a, "10.0.0/8") => Cidr 10.0.0/8
any where cidrMatch(a, "10.0.0.0/8", "x", "y") => Cidr x
any where cidrMatch("x", "10.0.0.0/8") => 0 keys
any where cidrMatch(a, "10.0.0.0/8", null) => 0 keys a
any where cidrMatch(a, null, "10.0.0.0/8") => 0 keys a
any where cidrMatch(a, null, "x") => Cidr x
// the refusal ends in a blank
any where cidrMatch(a, "") => Cidr "#;

#[test]
fn expressions_are_checked(rt: HostRuntime) -> Result<(), Fail> {
    each_answers(&rt, rt.alloc(), Asked::Check, QUERIES)
}
