//! Texts with their tokens, and texts with the canonical text of their query, or the line by which
//! they are refused.
use eql_lexer::{Tok, Token, Tokens, lex};
use eql_parser::{parse, print};
use eql_query::{Query, copy_query};
use eql_values::Memory;
use std::alloc::{AllocError, Global};
use std::fmt::Write;
use std::process::Abort;

/// Sees that no row is wrong.
fn see_none(rt: &impl Abort, wrong: Result<Option<&'static str>, Memory>) {
    assert!(rt; matches!(wrong, Ok(None)), "wrong: {wrong:?}");
}

/// What a token is, with its text where it has one.
fn parts_of(tok: &Tok) -> (&'static str, &str) {
    match tok {
        Tok::Word(text) => ("word ", text.text()),
        Tok::Back(text) => ("back ", text.text()),
        Tok::Str(text) => ("str ", text.text()),
        Tok::Num(_) => ("num ", ""),
        Tok::Sign(_) => ("", ""),
    }
}

/// Adds the number or the sign that a token is.
fn push_value(line: &mut String, tok: &Tok) -> Result<(), AllocError> {
    match tok {
        Tok::Num(value) => write!(line, "{value}"),
        Tok::Sign(sign) => write!(line, "{sign:?}"),
        _ => Ok(()),
    }
}

/// Adds a token with its place.
fn push_token(line: &mut String, token: &Token) -> Result<(), AllocError> {
    let (kind, text) = parts_of(&token.tok);
    line.push_str(kind)?;
    line.push_str(text)?;
    push_value(line, &token.tok)?;
    write!(line, " {}..{}; ", token.start, token.end)
}

/// Adds tokens with their places.
fn push_tokens(line: &mut String, tokens: &Tokens) -> Result<(), AllocError> {
    for token in tokens.items().iter() {
        push_token(line, token)?;
    }
    Ok(())
}

/// These tokens with their places, from a list that is made of them anew.
fn shown(alloc: Global, tokens: Tokens) -> Result<String, Memory> {
    let tokens = Tokens::of(tokens.into_items());
    let mut line = String::new(alloc);
    push_tokens(&mut line, &tokens)?;
    Ok(line)
}

/// The tokens of a text with their places, or its refusal.
fn tokens_of(alloc: Global, text: &[u8]) -> Result<String, Memory> {
    match lex(alloc, text) {
        Ok(tokens) => shown(alloc, tokens),
        Err(refused) => refused.message(alloc),
    }
}

/// The canonical text of a copy of a query.
fn printed(alloc: Global, query: &Query) -> Result<String, Memory> {
    let copy = copy_query(alloc, query)?;
    let text = print(alloc, &copy);
    drop(copy);
    Ok(String::from_str(alloc, text?.text())?)
}

/// The canonical text of the query that these tokens are, or its refusal.
fn parsed(alloc: Global, tokens: &Tokens) -> Result<String, Memory> {
    match parse(alloc, tokens) {
        Ok(query) => printed(alloc, &query),
        Err(refused) => refused.message(alloc),
    }
}

/// The canonical text of the query that a text is, or its refusal.
fn canonical(alloc: Global, text: &str) -> Result<String, Memory> {
    match lex(alloc, text.as_bytes()) {
        Ok(tokens) => parsed(alloc, &tokens),
        Err(refused) => refused.message(alloc),
    }
}

/// Texts, each with its tokens and their places, or with its refusal.
static TOKENS: &[(&[u8], &str)] = &[
    (
        b"any where like~ @x",
        "word any 0..3; word where 4..9; word like~ 10..15; word @x 16..18; ",
    ),
    (b"`a``b` `c d`", "back a`b 0..6; back c d 7..12; "),
    (
        b"\"a\\n\\\"\\u{e9}\" \"\"\"x\\\"\"\"",
        "str a\n\"\u{e9} 0..13; str x\\ 14..22; ",
    ),
    (b"\"\\t\\\\\"", "str \t\\ 0..6; "),
    (
        b"<= < == = != ! >= >",
        "AtMost 0..2; Less 3..4; Equal 5..7; Assign 8..9; NotEqual 10..12; Bang 13..14; AtLeast 15..17; Greater 18..19; ",
    ),
    (
        b"1 // 2\n/* 3 **/9223372036854775807",
        "num 1 0..1; num 9223372036854775807 15..34; ",
    ),
    (b"1 // 2\r3\n4", "num 1 0..1; num 4 9..10; "),
    (
        b"()[],.|?:+-*/%",
        "Open 0..1; Close 1..2; OpenBracket 2..3; CloseBracket 3..4; Comma 4..5; Dot 5..6; Bar 6..7; Question 7..8; Colon 8..9; Plus 9..10; Minus 10..11; Star 11..12; Slash 12..13; Percent 13..14; ",
    ),
    (b"any where x == \"a", "lex: OpenString at 15"),
    (b"\"a\\q", "lex: OpenString at 0"),
    (b"x ``", "lex: OpenString at 2"),
    (b"\"\"\"a\"\"", "lex: OpenString at 0"),
    (b"\"a\\q\"", "lex: BadEscape at 2"),
    (b"\"\\u{d800}\"", "lex: BadEscape at 1"),
    (b"process where process.pid == 1.5", "lex: Fraction at 29"),
    (b"99999999999999999999.5", "lex: Fraction at 0"),
    (
        b"process where process.name == 'a'",
        "lex: SingleQuote at 30",
    ),
    (b"x 9223372036854775808", "lex: NumberRange at 2"),
    (b"a /* b *", "lex: OpenComment at 2"),
    (b"a #", "lex: BadByte at 2"),
    (&[b'a', 255], "lex: NotUtf8"),
];

/// What is expected of the first text that has other tokens.
fn wrong_tokens(alloc: Global) -> Result<Option<&'static str>, Memory> {
    for &(text, expected) in TOKENS {
        if tokens_of(alloc, text)?.as_str() != expected {
            return Ok(Some(expected));
        }
    }
    Ok(None)
}

#[test]
fn texts_have_these_tokens(rt: HostRuntime) {
    see_none(&rt, wrong_tokens(rt.alloc()));
}

/// Adds a text so many times.
fn push_times(text: &mut String, count: usize, piece: &str) -> Result<(), AllocError> {
    for _ in 0..count {
        text.push_str(piece)?;
    }
    Ok(())
}

/// Whether these are the tokens of so many blanks, or their refusal.
fn blanks_have(alloc: Global, count: usize, expected: &str) -> Result<bool, Memory> {
    let mut text = String::new(alloc);
    push_times(&mut text, count, " ")?;
    Ok(tokens_of(alloc, text.as_str().as_bytes())?.as_str() == expected)
}

/// How many blanks a text has, and its tokens or its refusal.
static BLANKS: &[(usize, &str)] = &[(65536, ""), (65537, "lex: TooLong")];

/// What is expected of the first text of blanks that has other tokens.
fn wrong_blanks(alloc: Global) -> Result<Option<&'static str>, Memory> {
    for &(count, expected) in BLANKS {
        if !blanks_have(alloc, count, expected)? {
            return Ok(Some(expected));
        }
    }
    Ok(None)
}

#[test]
fn most_bytes(rt: HostRuntime) {
    see_none(&rt, wrong_blanks(rt.alloc()));
}

/// Queries, each with its canonical text or its refusal: a row is a line.
static QUERIES: &str = r#"
sequence by host.id with maxspan=1m [process where true] by ?user with runs=3 ["a b" where 1 == 1] until [any where false] | head 5 | tail 2 => sequence by `host.id` with maxspan=1m ["process" where true] by ?`user` with runs=3 ["a b" where (1 == 1)] until [any where false] | head 5 | tail 2
sequence by a, b.c with maxspan=1m [any where true] by ?`c``d` with runs=3 until ["x y" where false] | head 2 | tail 1 => sequence by `a`, `b.c` with maxspan=1m [any where true] by ?`c``d` with runs=3 until ["x y" where false] | head 2 | tail 1
sequence by a, b.c with maxspan=1m [any where true] until ["x y" where false] => sequence by `a`, `b.c` with maxspan=1m [any where true] until ["x y" where false]
process where process.name == "a" and not process.pid in (1,2) => "process" where ((`process.name` == "a") and (not (`process.pid` in (1, 2))))
any where a == b == c => parse: Syntax at 17
sequence [process where true] ![file where true] => parse: LeftOut ! at 30
sample by user.name [process where true] => parse: LeftOut sample at 0
process where process.name regex "a" => parse: LeftOut regex at 27
any where 1 | sort a => parse: LeftOut sort at 14
sequence with maxspan=5 nanos [a where true] => parse: LeftOut nanos at 24
any where number("1", 2) => parse: LeftOut number at 10
any where a regex~ "b" => parse: LeftOut regex~ at 12
sequence by a.until ![any where true] => parse: LeftOut ! at 20
sequence [any where true] until ![any where true] => parse: Syntax at 32
any where sample => parse: Syntax at 10
any where 5 micros => parse: Syntax at 12
any where number(1, regex) => parse: Syntax at 20
any where number(1, 2) regex "a" => parse: LeftOut number at 10
any where number(number(1, 2), 3 => parse: LeftOut number at 17
any where number~(1, 2) 3 => parse: Syntax at 24
any where => parse: Syntax at 9
 => parse: Syntax at 0
until where true => parse: Syntax at 0
any where a in () => parse: Syntax at 16
any where not => parse: Syntax at 13
any where 'a' => lex: SingleQuote at 10
any where null => any where null
any where true => any where true
any where 7 => any where 7
any where "a" => any where "a"
any where a.`b c`.where => any where `a.b c.where`
any where ?a => any where ?`a`
any where not a and b => any where ((not `a`) and `b`)
any where not (a and b) => any where (not (`a` and `b`))
any where a and b or c => any where ((`a` and `b`) or `c`)
any where a < -1 + 2 => any where (`a` < ((-1) + 2))
any where a <= b => any where (`a` <= `b`)
any where a == b => any where (`a` == `b`)
any where a != b => any where (`a` != `b`)
any where a >= b => any where (`a` >= `b`)
any where a > b => any where (`a` > `b`)
any where a : "x*" => any where (`a` : "x*")
any where a like ("x", "y") => any where (`a` like ("x", "y"))
any where a like~ "x" => any where (`a` like~ "x")
any where a in (1, -2, "x", true) => any where (`a` in (1, -2, "x", true))
any where a in~ ("x") => any where (`a` in~ ("x"))
any where a not in (1) => any where (`a` not in (1))
any where a not in~ (1) => any where (`a` not in~ (1))
any where -a => any where (-`a`)
any where 1 + 2 * 3 => any where (1 + (2 * 3))
any where 1 - 2 - 3 => any where ((1 - 2) - 3)
any where 1 * 2 / 3 => any where ((1 * 2) / 3)
any where 1 % 2 => any where (1 % 2)
any where length() => any where length()
any where startsWith~(a, "x") => any where startsWith~(`a`, "x")
any where p not in~ (-7, true) or not null like "a\n\u{1b}\"" or length("é", 2) >= 5 % -3 => any where ((`p` not in~ (-7, true)) or (not (null like "a\n\u{1b}\"")) or (length("é", 2) >= (5 % (-3))))
any where a == "\u{0000202E}\u{085}\u{7f}" or a : ("\u{2069}é", "\u{2028}*") => any where ((`a` == "\u{202e}\u{85}\u{7f}") or (`a` : ("\u{2069}é", "\u{2028}*")))
"#;

/// Whether what stands behind the last ` => ` of a row is the canonical text of what stands before it, or its refusal.
fn is_canonical(alloc: Global, row: &str) -> Result<bool, Memory> {
    match row.rsplit_once(" => ") {
        Some((text, expected)) => Ok(canonical(alloc, text)?.as_str() == expected),
        None => Ok(row.is_empty()),
    }
}

/// The first row of a query that has another canonical text or refusal.
fn wrong_query(alloc: Global) -> Result<Option<&'static str>, Memory> {
    for row in QUERIES.lines() {
        if !is_canonical(alloc, row)? {
            return Ok(Some(row));
        }
    }
    Ok(None)
}

#[test]
fn queries_have_these_canonical_texts(rt: HostRuntime) {
    see_none(&rt, wrong_query(rt.alloc()));
}

/// What stands before, what opens and how often, what stands inside, and what closes; and how the canonical text or the
/// refusal begins.
type Nested = (
    &'static str,
    &'static str,
    usize,
    &'static str,
    &'static str,
    &'static str,
);

/// Levels of conditions, up to the greatest depth and beyond it.
static LIMITS: &[Nested] = &[
    // The 65th level begins at what is negated, at one more `not` or `-`, or at an argument.
    ("", "not ", 63, "true", "", "any where (not "),
    ("", "not ", 64, "true", "", "parse: TooDeep at 266"),
    ("", "not ", 65, "true", "", "parse: TooDeep at 266"),
    ("", "not ", 64, "", "", "parse: Syntax at 265"),
    ("", "not ", 64, "or", "", "parse: Syntax at 266"),
    ("", "-", 63, "a", "", "any where (-"),
    ("", "-", 64, "a", "", "parse: TooDeep at 74"),
    ("", "-", 65, "a", "", "parse: TooDeep at 74"),
    ("", "f(", 64, "", ")", "any where f(f("),
    ("", "f(", 64, "true", ")", "parse: TooDeep at 138"),
    ("", "f(", 64, "g(true)", ")", "parse: TooDeep at 138"),
    ("", "f(", 64, "not true", ")", "parse: TooDeep at 138"),
    ("", "f(", 64, "or", ")", "parse: Syntax at 138"),
    // Parentheses are no level. What stands in them begins one.
    ("", "not ", 64, "((true))", "", "parse: TooDeep at 268"),
    ("", "f(", 64, "((true))", ")", "parse: TooDeep at 140"),
    ("", "f(", 64, "()", ")", "parse: Syntax at 139"),
    // With `~` behind it a name is called or refused, so it begins a level.
    ("", "f(", 64, "g~", ")", "parse: TooDeep at 138"),
    ("", "f(", 64, "(g~)", ")", "parse: TooDeep at 139"),
    ("", "f(", 63, "g~", ")", "parse: Syntax at 138"),
    // Levels that operators begin above their operands, and what comes behind an operand.
    // An operator behind its operand begins the level above it.
    ("", "not ", 62, "a or b", "", "any where ((not "),
    ("", "not ", 63, "a or b", "", "parse: TooDeep at 264"),
    ("", "not ", 63, "a and b", "", "parse: TooDeep at 264"),
    ("", "not ", 63, "a == b", "", "parse: TooDeep at 264"),
    ("", "not ", 63, "a : \"b\"", "", "parse: TooDeep at 264"),
    ("", "not ", 63, "a in (1)", "", "parse: TooDeep at 264"),
    ("", "not ", 63, "a not in (1)", "", "parse: TooDeep at 264"),
    ("", "-", 62, "a + b", "", "any where ((-"),
    ("", "-", 63, "a + b", "", "parse: TooDeep at 75"),
    ("", "-", 63, "a * b", "", "parse: TooDeep at 75"),
    ("", "f(", 63, "a + b", ")", "parse: TooDeep at 138"),
    ("a or b or (", "not ", 62, "c)", "", "any where ("),
    ("a or b or ", "not ", 63, "c", "", "parse: TooDeep at 272"),
    // What comes first in the text is told.
    (
        "number(",
        "not ",
        62,
        "a, 2)",
        "",
        "parse: LeftOut number at 10",
    ),
    ("number(", "not ", 63, "a, 2)", "", "parse: TooDeep at 269"),
    (
        "a regex ",
        "not ",
        65,
        "a",
        "",
        "parse: LeftOut regex at 12",
    ),
    ("", "not ", 65, "a regex", "", "parse: TooDeep at 266"),
    ("", "(", 128, "true", ")", "any where true"),
    ("", "(", 129, "true", ")", "parse: TooDeep at 138"),
    ("", "(", 128, "a in (1)", ")", "parse: TooDeep at 143"),
    ("number(", "(", 128, "a, 2)", "", "parse: TooDeep at 144"),
];

/// Adds what a row has before the condition inside, with that, and what closes.
fn push_nested(text: &mut String, row: &Nested) -> Result<(), AllocError> {
    let (before, open, count, inside, close, _) = row;
    text.push_str("any where ")?;
    text.push_str(before)?;
    push_times(text, *count, open)?;
    text.push_str(inside)?;
    push_times(text, *count, close)
}

/// Whether the canonical text or the refusal of a row begins as it should.
fn begins(alloc: Global, row: &Nested) -> Result<bool, Memory> {
    let mut text = String::new(alloc);
    push_nested(&mut text, row)?;
    Ok(canonical(alloc, text.as_str())?.as_str().starts_with(row.5))
}

/// What is expected of the first row whose canonical text or refusal begins otherwise.
fn wrong_limit(alloc: Global) -> Result<Option<&'static str>, Memory> {
    for row in LIMITS {
        if !begins(alloc, row)? {
            return Ok(Some(row.5));
        }
    }
    Ok(None)
}

#[test]
fn limits_of_depth(rt: HostRuntime) {
    see_none(&rt, wrong_limit(rt.alloc()));
}
