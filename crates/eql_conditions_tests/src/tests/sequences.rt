//! Sequences: their keys, runs, stages and spans, and pipes.
use crate::tests::answer::{Asked, each_answers};
use std::test::Fail;

/// Queries, and what the check of each returns.
static QUERIES: &str = r#"
// All items have as many keys of their own as the first, the until item among them.
sequence [any where true] by t [any where true] by t => 1 keys t
sequence [any where true] by t, n [any where true] by t, m => 2 keys t n m
sequence [any where true] by t [any where true] => KeyCount 2
sequence [any where true] [any where true] by t => KeyCount 2
sequence [any where true] by t [any where true] by t [any where true] by t, n => KeyCount 3
sequence by t [any where true] by n [any where true] => KeyCount 2
sequence by t [any where true] by n [any where true] by m => 2 keys t n m
sequence [any where true] by t [any where true] by t until [any where true] => KeyCount 3
sequence [any where true] by t [any where true] by t until [any where true] by t => 1 keys t
sequence [any where true] [any where true] until [any where true] by t => KeyCount 3
sequence by t [any where true] [any where true] until [any where true] => 1 keys t

// The keys at one place are of one kind; what is always null fits every kind.
sequence [any where true] by n [any where true] by m => 1 keys n m
sequence [any where true] by a [any where true] by c => 1 keys a c
sequence [any where true] by n [any where true] by t => KeyKind 2
sequence [any where true] by t, n [any where true] by t, b => KeyKind 2
sequence [any where true] by t, n [any where true] by n, t => KeyKind 2
sequence [any where true] by ?x [any where true] by t => 1 keys t
sequence [any where true] by t [any where true] by ?x => 1 keys t
sequence [any where true] by ?x [any where true] by t [any where true] by n => KeyKind 3
sequence [any where true] by n [any where true] by ?x [any where true] by t => KeyKind 3
sequence [any where true] by ?x, n [any where true] by t, ?y [any where true] by t, t => KeyKind 3
sequence [any where true] by n [any where true] by n until [any where true] by t => KeyKind 3
sequence [any where true] by n [any where true] by n until [any where true] by m => 1 keys n m

// An item has 1 to 100 runs, and a sequence 2 to 256 stages. The until item is no stage.
sequence [any where true] [any where true] => 0 keys
sequence [any where true] => FewStages
sequence [any where true] with runs=1 => FewStages
sequence [any where true] with runs=2 => 0 keys
sequence [any where true] until [any where true] => FewStages
sequence [any where true] with runs=0 [any where true] => Runs 0
sequence [any where true] with runs=100 [any where true] => 0 keys
sequence [any where true] with runs=101 [any where true] => Runs 101
sequence [any where true] with runs=9223372036854775807 => Runs 9223372036854775807
sequence [any where true] with runs=100 [any where true] with runs=100 [any where true] with runs=56 => 0 keys
sequence [any where true] with runs=100 [any where true] with runs=100 [any where true] with runs=57 => ManyStages 257
sequence [any where true] with runs=100 [any where true] with runs=100 [any where true] with runs=56 [any where true] => ManyStages 257
sequence [any where true] with runs=100 [any where true] with runs=100 [any where true] with runs=100 => ManyStages 300
sequence [any where true] with runs=100 [any where true] with runs=100 [any where true] with runs=56 until [any where true] => 0 keys

// There are at most 8 keys, the shared ones and those of an item.
sequence by t, n, m, b, a, c, ?x, ?y [any where true] [any where true] => 8 keys t n m b a c
sequence by t, n, m, b, a, c, ?x, ?y, ?z [any where true] [any where true] => ManyKeys 9
sequence by t, n, m, b, a, c, ?x [any where true] by ?y [any where true] by ?z => 8 keys t n m b a c
sequence by t, n, m, b, a, c, ?x, ?y [any where true] by n [any where true] by m => ManyKeys 9
sequence by t, t, t, t, t, t, t, t, t [any where true] [any where true] => ManyKeys 9

// A span is a millisecond to 36,500 days.
sequence with maxspan=0ms [any where true] [any where true] => Span
sequence with maxspan=1ms [any where true] [any where true] => 0 keys
sequence with maxspan=3153600000000ms [any where true] [any where true] => 0 keys
sequence with maxspan=3153600000001ms [any where true] [any where true] => Span
sequence with maxspan=0s [any where true] [any where true] => Span
sequence with maxspan=3153600000s [any where true] [any where true] => 0 keys
sequence with maxspan=3153600001s [any where true] [any where true] => Span
sequence with maxspan=0m [any where true] [any where true] => Span
sequence with maxspan=52560000m [any where true] [any where true] => 0 keys
sequence with maxspan=52560001m [any where true] [any where true] => Span
sequence with maxspan=0h [any where true] [any where true] => Span
sequence with maxspan=876000h [any where true] [any where true] => 0 keys
sequence with maxspan=876001h [any where true] [any where true] => Span
sequence with maxspan=0d [any where true] [any where true] => Span
sequence with maxspan=1d [any where true] [any where true] => 0 keys
sequence with maxspan=36500d [any where true] [any where true] => 0 keys
sequence with maxspan=36501d [any where true] [any where true] => Span
sequence with maxspan=9223372036854775807d [any where true] [any where true] => Span

// There are at most 8 pipes, with counts of 0 to 1,000,000.
any where true | head 0 => 0 keys
any where true | tail 0 => 0 keys
any where true | head 1000000 => 0 keys
any where true | head 1000001 => Pipe
any where true | tail 1000000 => 0 keys
any where true | tail 1000001 => Pipe
any where true | head 1 | tail 9223372036854775807 => Pipe
any where true | head 1000000 | head 1000000 | head 1000000 | head 1000000 | head 1000000 | head 1000000 | head 1000000 | head 1000000 => 0 keys
any where true | head 1 | tail 1 | head 1 | tail 1 | head 1 | tail 1 | head 1 | tail 1 | head 1 => Pipe
sequence [any where true] [any where true] | head 1000001 => Pipe
"#;

#[test]
fn sequences_are_checked(rt: HostRuntime) -> Result<(), Fail> {
    each_answers(&rt, rt.alloc(), Asked::Check, QUERIES)
}
