//! Queries and mappings: how a query may be spelled, its canonical text, and what is told of those that are refused.
use crate::tests::row::{Row, ended, found, printed, refused};
use crate::tests::run::check;
use crate::tests::sequences::FOUR;
use crate::tests::text::Piece::{Bytes, Each, Times};

/// A query that finds the one pair of the four events.
macro_rules! spells {
    ($shows:expr, $query:expr $(, $field:ident: $value:expr)* $(,)?) => {
        found!($shows, $query, FOUR, &["1 [] 0:2 0:3"] $(, $field: $value)*)
    };
}

/// One search, spelled in several ways.
static SPELLINGS: &[Row] = &[
    spells!(
        "a tab between items",
        "sequence [process where true]\t[file where true]"
    ),
    spells!(
        "two blanks between words",
        "sequence  [process  where true]  [file where  true]"
    ),
    spells!(
        "no blanks at brackets",
        "sequence[process where true][file where true]"
    ),
    spells!(
        "lines, and two line feeds at the end",
        "\nsequence\r\n  [process where true]\r\n  [file where true]\n\n",
    ),
    spells!(
        "comments",
        "sequence // two items\n[process where true] /* the second: */ [file where true]//",
    ),
    spells!(
        "categories in quotes",
        r#"sequence ["process" where true] ["""file""" where true]"#
    ),
    spells!(
        "conditions in parentheses",
        "sequence [process where (true)] [file where ((true))]"
    ),
    spells!(
        "one run, said",
        "sequence [process where true] with runs=1 [file where true]"
    ),
    spells!(
        "escapes in a category",
        r#"sequence ["pro\u{63}ess" where true] ["fil\u{00000065}" where true]"#,
    ),
];

/// Texts that break a rule of tokens, each with the place, in bytes from 0.
static BROKEN_TOKENS: &[Row] = &[
    refused!(
        "a string that isn't closed",
        r#"any where x == "a"#,
        "lex: OpenString at 15"
    ),
    refused!(
        "a fraction",
        "process where process.pid == 1.5",
        "lex: Fraction at 29"
    ),
    refused!(
        "a single quote",
        "process where process.name == 'a'",
        "lex: SingleQuote at 30"
    ),
    refused!(
        "a byte that begins no token",
        "any where x == #",
        "lex: BadByte at 15"
    ),
    refused!(
        "a backslash that begins no escape",
        r#"any where x == "\q""#,
        "lex: BadEscape at 16"
    ),
    refused!(
        "a number of 2^63",
        "any where x == 9223372036854775808",
        "lex: NumberRange at 15"
    ),
    refused!(
        "a comment that isn't closed",
        "any where true /* x",
        "lex: OpenComment at 15"
    ),
    refused!("a text that isn't UTF-8", "any where ", "lex: NotUtf8", behind: &[Bytes(b"\xff")]),
    refused!(
        "tokens are told before the grammar",
        "any any '",
        "lex: SingleQuote at 8"
    ),
    refused!(
        "of two broken rules the first in the text",
        r#"1.5 ' "\q""#,
        "lex: Fraction at 0"
    ),
    refused!("a text of 65,537 bytes", "", "lex: TooLong", behind: &[Times("x", 65_537)]),
    refused!(
        "a longer text that isn't UTF-8",
        "",
        "lex: TooLong",
        behind: &[Times("x", 70_000), Bytes(b"\xff")],
    ),
    refused!(
        "a text of 65,536 blanks is read",
        "",
        "parse: Syntax at 0",
        behind: &[Times(" ", 65_536)],
    ),
];

/// Tokens that are no query, each with the place, in bytes from 0.
static BROKEN_GRAMMAR: &[Row] = &[
    refused!(
        "comparisons in a chain",
        "any where a == b == c",
        "parse: Syntax at 17"
    ),
    refused!(
        "a keyword as a category",
        "sequence [process where true] [until where true]",
        "parse: Syntax at 31",
    ),
    refused!("an empty query", "", "parse: Syntax at 0"),
    refused!("an early end", "any where ", "parse: Syntax at 9"),
    refused!(
        "more than a query",
        "any where true any",
        "parse: Syntax at 15"
    ),
    refused!(
        "another unit",
        "sequence with maxspan=1w [a where true]",
        "parse: Syntax at 23"
    ),
    // The level too many begins behind ten bytes and 64 times `not`, at what is negated.
    refused!(
        "65 levels",
        "any where ",
        "parse: TooDeep at 266",
        behind: &[Times("not ", 64), Bytes(b"true")],
    ),
    // Or at the 65th `not`.
    refused!(
        "66 levels",
        "any where ",
        "parse: TooDeep at 266",
        behind: &[Times("not ", 65), Bytes(b"true")],
    ),
    // The parenthesis too many is the 129th.
    refused!(
        "129 parentheses",
        "sequence [any where ",
        "parse: TooDeep at 148",
        behind: &[Times("(", 129), Bytes(b"true"), Times(")", 129), Bytes(b"] [any where true]")],
    ),
    found!(
        "64 levels in 128 parentheses",
        "any where ",
        &[],
        &[],
        behind: &[Times("(", 128), Times("not ", 63), Bytes(b"true"), Times(")", 128)],
    ),
];

/// Forms of the language that are left out.
static LEFT_OUT: &[Row] = &[
    refused!(
        "the missing event",
        "sequence [process where true] ![file where true]",
        "parse: LeftOut ! at 30",
    ),
    refused!(
        "samples",
        "sample by user.name [process where true]",
        "parse: LeftOut sample at 0"
    ),
    refused!(
        "joins",
        "join [process where true] [file where true]",
        "parse: LeftOut join at 0"
    ),
    refused!(
        "regular expressions",
        r#"process where process.name regex "a""#,
        "parse: LeftOut regex at 27",
    ),
    refused!(
        "regular expressions with folding",
        r#"process where process.name regex~ "a""#,
        "parse: LeftOut regex~ at 27",
    ),
    refused!(
        "another pipe",
        "any where true | count",
        "parse: LeftOut count at 17"
    ),
    refused!(
        "a pipe behind a pipe",
        "any where true | head 1 | unique",
        "parse: LeftOut unique at 26",
    ),
    refused!(
        "microseconds",
        "sequence with maxspan=5micros [a where true] [b where true]",
        "parse: LeftOut micros at 23",
    ),
    refused!(
        "nanoseconds",
        "sequence with maxspan=5 nanos [a where true] [b where true]",
        "parse: LeftOut nanos at 24",
    ),
    refused!(
        "number with a base",
        r#"any where number("1", 16) == 1"#,
        "parse: LeftOut number at 10",
    ),
];

/// A mapping that is refused.
macro_rules! unmapped {
    ($shows:expr, $line:expr $(, $field:ident: $value:expr)* $(,)?) => {
        ended!($shows, 3, $line $(, $field: $value)*)
    };
}

/// Mappings at both sides of each limit.
static MAPPINGS: &[Row] = &[
    unmapped!(
        "a kind that there isn't",
        "mapping: MapKind a",
        fields: &[Bytes(br#"{"a":"date"}"#)],
    ),
    unmapped!(
        "the first name in byte order",
        "mapping: MapKind B",
        fields: &[Bytes(br#"{"c":"long","b":"float","B":1,"a":"ip"}"#)],
    ),
    unmapped!("no text", "mapping: MapSyntax", fields: &[]),
    unmapped!("a list", "mapping: MapSyntax", fields: &[Bytes(b"[]")]),
    unmapped!("more than an object", "mapping: MapSyntax", fields: &[Bytes(b"{}{}")]),
    found!(
        "an empty mapping in blanks",
        "any where true",
        &[],
        &[],
        fields: &[Bytes(b"\n { }\n\n")],
    ),
    unmapped!(
        "4,194,305 bytes",
        "mapping: MapLong",
        piece: 65_536,
        fields: &[Bytes(b"{}"), Times(" ", 4_194_303)],
    ),
    found!(
        "4,194,304 bytes",
        "any where true",
        &[],
        &[],
        piece: 65_536,
        fields: &[Bytes(b"{}"), Times(" ", 4_194_302)],
    ),
    unmapped!(
        "1,025 names",
        "mapping: MapMany",
        fields: &[Bytes(b"{"), Each("\"n#\":\"long\",", 1024), Bytes(b"\"n\":\"long\"}")],
    ),
    found!(
        "1,024 names",
        "any where n == 1 or n1023 == 2",
        &[],
        &[],
        fields: &[Bytes(b"{"), Each("\"n#\":\"long\",", 1023), Bytes(b"\"n\":\"long\"}")],
    ),
];

/// Queries that break a rule of the check.
static UNCHECKED: &[Row] = &[
    refused!(
        "a function that there isn't",
        "any where f(1)",
        "check: UnknownFunction f"
    ),
    refused!(
        "too few arguments",
        "any where length() == 1",
        "check: Arity length"
    ),
    refused!(
        "a number and a text",
        r#"any where 1 == "a""#,
        "check: KindMismatch 1"
    ),
    refused!(
        "a number as the condition of the second item",
        "sequence [any where true] [any where 1]",
        "check: KindMismatch 2",
    ),
    refused!(
        "a number as the condition of the last item",
        "sequence [any where true] [any where true] until [any where 1]",
        "check: KindMismatch 3",
    ),
    refused!(
        "two fields compared",
        "any where process.pid == file.pid + 1",
        "check: FieldToField 1",
    ),
    refused!(
        "an item without a key",
        "sequence [any where true] by user.name [any where true]",
        "check: KeyCount 2",
    ),
    refused!(
        "keys of two kinds",
        "sequence [any where true] by user.name [any where true] by process.pid",
        "check: KeyKind 2",
    ),
    refused!(
        "a key that isn't mapped",
        "sequence by x [any where true] [any where y]",
        "check: UnknownField x",
    ),
    refused!(
        "one stage",
        "sequence [process where true]",
        "check: FewStages"
    ),
    refused!(
        "no runs",
        "sequence [any where true] with runs=0 [any where true]",
        "check: Runs 0"
    ),
    refused!(
        "101 runs",
        "sequence [any where true] with runs=101 [any where true]",
        "check: Runs 101",
    ),
    refused!(
        "nine keys",
        "sequence by user.id, user.id, user.id, user.id, user.id, user.id, user.id, user.id, user.id [any where true] [any where true]",
        "check: ManyKeys 9",
    ),
    refused!(
        "65 fields",
        "any where ",
        "check: ManyFields 65",
        behind: &[Each("n# == 1 or ", 64), Bytes(b"n65 == 1")],
        fields: &[Bytes(b"{"), Each("\"n#\":\"long\",", 65), Bytes(b"\"n\":\"long\"}")],
    ),
    found!(
        "64 fields",
        "any where ",
        &[],
        &[],
        behind: &[Each("n# == 1 or ", 64), Bytes(b"n64 == 1")],
        fields: &[Bytes(b"{"), Each("\"n#\":\"long\",", 65), Bytes(b"\"n\":\"long\"}")],
    ),
    refused!(
        "no span",
        "sequence with maxspan=0s [any where true] [any where true]",
        "check: Span",
    ),
    refused!(
        "36,501 days",
        "sequence with maxspan=36501d [any where true] [any where true]",
        "check: Span",
    ),
    found!(
        "36,500 days",
        "sequence with maxspan=36500d [any where true] [any where true]",
        &[],
        &[],
    ),
    refused!(
        "a head of 1,000,001",
        "any where true | head 1000001",
        "check: Pipe"
    ),
    refused!("nine pipes", "any where true", "check: Pipe", behind: &[Times(" | tail 1", 9)]),
    found!("eight pipes", "any where true", &[], &[], behind: &[Times(" | tail 1", 8)]),
    refused!(
        "a block of 33 bits",
        r#"any where cidrMatch(destination.ip, "10.0.0.0/8", "10.0.0.0/33")"#,
        "check: Cidr 10.0.0.0/33",
    ),
];

/// Canonical texts.
static CANONICAL: &[Row] = &[
    printed!(
        "a condition",
        r#"process where process.name == "a" and not process.pid in (1,2)"#,
        &[r#""process" where ((`process.name` == "a") and (not (`process.pid` in (1, 2))))"#],
    ),
    printed!(
        "a sequence with all that it may have",
        "sequence by user.name,?host.id with maxspan=1m [any where true] by process.pid with runs=2 [process where not true] by file.pid with runs=1 until [\"x y\" where false] by file.pid|head 3|tail 1",
        &[
            "sequence by `user.name`, ?`host.id` with maxspan=1m [any where true] by `process.pid` with runs=2 [\"process\" where (not true)] by `file.pid` until [\"x y\" where false] by `file.pid` | head 3 | tail 1",
        ],
    ),
    printed!(
        "patterns, sums, calls and lists",
        r#"any where process.name : ("a*", "b") or -process.pid + 2 * 3 < 4 or startsWith~(user.name, "x\ty") or process.name not in~ ("q")"#,
        &[
            r#"any where ((`process.name` : ("a*", "b")) or (((-`process.pid`) + (2 * 3)) < 4) or startsWith~(`user.name`, "x\ty") or (`process.name` not in~ ("q")))"#,
        ],
    ),
    printed!(
        "names in backticks, strings without escapes, and a pattern alone",
        "any where `a``b`.c like (\"\"\"\\\u{1}\"\"\") and ?\u{60}d e\u{60} != null",
        &["any where ((`a``b.c` like \"\\\\\\u{01}\") and (?`d e` != null))"],
        fields: &[Bytes(br#"{"a`b.c":"keyword"}"#)],
    ),
    printed!(
        "no character of a string steers a terminal or turns the line",
        "any where user.name : (\"exe\u{202e}gpj\u{85}\", \"\"\"\u{2028}\u{7f}é\"\"\")",
        &[r#"any where (`user.name` : ("exe\u{202e}gpj\u{85}", "\u{2028}\u{7f}é"))"#],
    ),
    printed!(
        "a name in backticks has no escapes",
        "any where ?`a\u{202e}b` != null",
        &["any where (?`a\u{202e}b` != null)"],
    ),
];

#[test]
fn queries_are_spelled_in_several_ways(rt: HostRuntime) {
    check(&rt, rt.alloc(), &[SPELLINGS, CANONICAL]);
}

#[test]
fn queries_are_refused_by_name(rt: HostRuntime) {
    check(
        &rt,
        rt.alloc(),
        &[BROKEN_TOKENS, BROKEN_GRAMMAR, LEFT_OUT, UNCHECKED],
    );
}

#[test]
fn mappings_are_refused_by_name(rt: HostRuntime) {
    check(&rt, rt.alloc(), &[MAPPINGS]);
}
