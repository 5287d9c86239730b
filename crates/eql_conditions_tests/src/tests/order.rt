//! Queries that break several rules, and the one that is told.
use crate::tests::answer::{Asked, each_answers};
use std::test::Fail;

/// Queries, and what the check of each returns.
static QUERIES: &str = r#"
// At one node: function, arity, block, kinds, two fields.
any where length~() == 1 => UnknownFunction length~
any where cidrMatch~(1, "x") => UnknownFunction cidrMatch~
any where length(1, 2) == 1 => Arity length
any where cidrMatch() => Arity cidrMatch
any where cidrMatch(1) => Arity cidrMatch
any where cidrMatch(1, "x") => Cidr x
any where cidrMatch(1, "10.0.0.0/33") => Cidr 10.0.0.0/33
any where cidrMatch(a, 1, "x") => Cidr x
any where cidrMatch(a, t, "x") => Cidr x
any where n == t => KindMismatch 1
any where b < b => KindMismatch 1
any where a == t => KindMismatch 1

// Operands come before their operator, and left before right.
any where strlen(x) == 1 => UnknownField x
any where cidrMatch(x, "y") => UnknownField x
any where length(1 + "a", 2) == 1 => KindMismatch 1
any where x == strlen() => UnknownField x
any where strlen() == x => UnknownFunction strlen
any where 1 + "a" == x => KindMismatch 1
any where not 1 and x => KindMismatch 1
any where 1 and x => UnknownField x
any where n == m and x => FieldToField 1
any where x or y => UnknownField x
any where (n == m) == x => FieldToField 1
any where x in~ (1) => UnknownField x
any where -x : "a" => UnknownField x
any where x like "a" => UnknownField x
any where concat(x, length()) == "" => UnknownField x
any where concat(length(), x) == "" => Arity length
any where length(x) + 1 => UnknownField x

// The shared keys come first, and then each item: its condition, its keys, its runs. The until item is the last.
sequence by z [any where x] by y with runs=0 [any where w] => UnknownField z
sequence by t, z, y [any where x] [any where true] => UnknownField z
sequence [any where x] by y with runs=0 [any where w] => UnknownField x
sequence [any where 1] by y with runs=0 [any where w] => KindMismatch 1
sequence [any where true] by y with runs=0 [any where w] => UnknownField y
sequence [any where true] by t, y, z with runs=0 [any where w] => UnknownField y
sequence [any where true] by t with runs=0 [any where w] => Runs 0
sequence [any where true] by t with runs=101 [any where true] by y => Runs 101
sequence [any where true] [any where w] until [any where v] => UnknownField w
sequence [any where true] [any where true] with runs=0 until [any where v] => Runs 0
sequence [any where true] [any where true] until [any where v] by u => UnknownField v
sequence [any where true] [any where true] until [any where true] by u => UnknownField u

// The rules of the whole query come after those of the items: counts of keys, kinds of keys, stages, then the limits of
// keys and of fields, spans and pipes.
sequence [any where true] by t [any where true] until [any where v] => UnknownField v
sequence with maxspan=0s [any where true] [any where x] | head 1000001 => UnknownField x
sequence [any where true] with runs=101 until [any where true] by t => Runs 101
any where x | head 1000001 => UnknownField x
sequence [any where true] by n, t [any where true] by t, n [any where true] => KeyCount 3
sequence [any where true] by n until [any where true] => KeyCount 2
sequence [any where true] by n until [any where true] by t => KeyKind 2
sequence [any where true] by n with runs=100 [any where true] by t with runs=100 [any where true] by n with runs=57 => KeyKind 2
sequence by t, n, m, b, a, c, ?x, ?y, ?z [any where true] => FewStages
sequence by t, n, m, b, a, c, ?x, ?y, ?z [any where true] with runs=100 [any where true] with runs=100 [any where true] with runs=57 => ManyStages 257
sequence with maxspan=0s [any where true] => FewStages
sequence [any where true] | head 1000001 => FewStages
sequence by t, n, m, b, a, c, ?x, ?y, ?z with maxspan=0s [any where true] [any where true] => ManyKeys 9
sequence by t, n, m, b, a, c, ?x, ?y, ?z [any where true] [any where true] | head 1000001 => ManyKeys 9
sequence with maxspan=0s [any where true] [any where true] | head 1000001 => Span
"#;

#[test]
fn refusals_come_in_this_order(rt: HostRuntime) -> Result<(), Fail> {
    each_answers(&rt, rt.alloc(), Asked::Check, QUERIES)
}
