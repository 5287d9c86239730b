//! String functions: worked examples, the folding of Unicode, wildcards against a plain matcher, and searches of
//! texts that repeat themselves.
use crate::tests::table::{
    Asked, OfTexts, field, is_bool, is_number, number_at, see, see_true, text_at,
};
use eql_text::{
    LongRead, between, contains, ends, equal, in_block, index_of, ip4_from_str, long_from_str,
    parse_block, parse_ip4, parse_long, parse_number, starts, substring, wildcard,
};
use eql_values::{Memory, Text};
use std::alloc::Global;

/// Whether this is the answer to what is asked of two texts, by the other fields of their row.
fn is_answer_of_two(
    alloc: Global,
    of: &OfTexts,
    s: &Text,
    t: &Text,
    row: &str,
    wanted: &str,
) -> bool {
    match of {
        OfTexts::Place => is_place(s, t, row, wanted),
        OfTexts::Part => is_part(alloc, s, row, wanted),
        OfTexts::Between => is_part_between(alloc, s, t, row, wanted),
        OfTexts::Number => is_read(s, wanted),
        OfTexts::Address => is_address(s, t, wanted),
        OfTexts::Equal => is_equal(s, t, wanted),
        OfTexts::Sides => are_sides(s, t, row, wanted),
    }
}

/// Whether this is the answer to what is asked of the texts that a row begins with.
pub fn is_answer(alloc: Global, of: &OfTexts, row: &str, wanted: &str) -> Result<bool, Memory> {
    let s = text_at(alloc, row, 0)?;
    let t = text_at(alloc, row, 1)?;
    let is_right = is_answer_of_two(alloc, of, &s, &t, row, wanted);
    drop(t);
    drop(s);
    Ok(is_right)
}

/// Whether a text is what stands between two quotes.
fn is_quoted(got: &str, wanted: &str) -> bool {
    wanted.split('"').nth(1) == Some(got)
}

/// A text, another one, from where on it is looked for, and where it is found.
static PLACES: &str = "
abcabc|c|3 => 5
abc|x|0 => none
abc||3 => 3
abc||4 => none
abc|a|-1 => 0
café é|é|4 => 5
aaaaaaaab|aaaab|0 => 4
abababababac|ababababac|0 => 2
aabaabaabaabaac|aabaabaac|0 => 6
ééééèéééééé|éééééé|0 => 5
aaaaaaaaaaa|aaaaaaaaaaaa|0 => none
";

/// Whether a text is found in another one where it should be.
fn is_place(s: &Text, t: &Text, row: &str, wanted: &str) -> bool {
    let start = number_at(row, 2).unwrap_or(0);
    is_number(index_of(s, t, start, false), wanted)
}

#[test]
fn places(rt: HostRuntime) {
    see(&rt, rt.alloc(), &Asked::Text(OfTexts::Place), PLACES);
}

/// A text, from where and to where a part of it is taken, and the part.
static PARTS: &str = r#"
start regsvr32.exe|6|none => "regsvr32.exe"
start regsvr32.exe|-4|none => ".exe"
start regsvr32.exe|-4|-1 => ".ex"
abc|5|none => ""
café|-2|9 => "fé"
"#;

/// Whether a text was made, and is what stands between two quotes.
fn is_made(made: Result<Text, Memory>, wanted: &str) -> bool {
    match made {
        Ok(part) => {
            let is_right = is_quoted(part.text(), wanted);
            drop(part);
            is_right
        }
        Err(Memory) => false,
    }
}

/// Whether the part of a text between two places is as it should be.
fn is_part(alloc: Global, s: &Text, row: &str, wanted: &str) -> bool {
    let from = number_at(row, 1).unwrap_or(0);
    is_made(substring(alloc, s, from, number_at(row, 2)), wanted)
}

#[test]
fn parts(rt: HostRuntime) {
    see(&rt, rt.alloc(), &Asked::Text(OfTexts::Part), PARTS);
}

/// A text, what stands before a part and behind it, whether the longest part is taken, and the part.
static BETWEEN: &str = r#"
system event log|system | log|false => "event"
a-b-c-d|a|-|false => ""
a-b-c-d|a|-|true => "-b-c"
a-b|x|b|false => ""
<aaaaaaaaaa>|<|aaaaa|true => "aaaaa"
<abababababa>|<|ababa|true => "ababab"
<éaéaéaéaéa|<|éaéa|true => "éaéaéa"
"#;

/// Whether the part of a text between two others is as it should be.
fn is_between(alloc: Global, s: &Text, l: &Text, r: &Text, greedy: bool, wanted: &str) -> bool {
    is_made(between(alloc, s, l, r, greedy, false), wanted)
}

/// Whether the part of a text between another one and that of the row's third field is as it should be.
fn is_part_between(alloc: Global, s: &Text, l: &Text, row: &str, wanted: &str) -> bool {
    match text_at(alloc, row, 2) {
        Ok(r) => {
            let is_right = is_between(alloc, s, l, &r, field(row, 3) == "true", wanted);
            drop(r);
            is_right
        }
        Err(Memory) => false,
    }
}

#[test]
fn parts_between(rt: HostRuntime) {
    see(&rt, rt.alloc(), &Asked::Text(OfTexts::Between), BETWEEN);
}

/// A text, the long that it is read as, and the number.
static NUMBERS: &str = "
-12 => -12|-12
1x => no long|none
- => no long|none
+1 => no long|none
9223372036854775807 => 9223372036854775807|9223372036854775807
9223372036854775808 => range|none
-9223372036854775808 => -9223372036854775808|-9223372036854775808
00000000000000000000000007 => 7|7
0x1F => no long|31
0x => no long|none
0x8000000000000000 => no long|none
";

/// Whether this is what a number, `no long` or `range` says.
fn is_long(got: LongRead, wanted: &str) -> bool {
    match got {
        LongRead::Long(long) => is_number(Some(long), wanted),
        LongRead::NoLong => wanted == "no long",
        LongRead::Range => wanted == "range",
    }
}

/// Whether a text is read as this long and this number.
fn is_read(s: &Text, wanted: &str) -> bool {
    let long = field(wanted, 0);
    is_long(long_from_str(s.text()), long)
        && is_long(parse_long(s), long)
        && is_number(parse_number(s), field(wanted, 1))
}

#[test]
fn numbers(rt: HostRuntime) {
    see(&rt, rt.alloc(), &Asked::Text(OfTexts::Number), NUMBERS);
}

/// An address, a block, the address as a number, and whether it lies in the block.
static ADDRESSES: &str = "
10.9.8.7|10.0.0.0/8 => 168364039|true
11.0.0.1|10.0.0.0/8 => 184549377|false
11.0.0.1|0.0.0.0/0 => 184549377|true
255.255.255.255|255.255.255.255/32 => 4294967295|true
1.2.3|1.2.3.4/33 => none|none
1.2.3.04|1.2.3.4/08 => none|none
1.2.3.4.5|1.2.3.4 => none|none
";

/// Whether an address lies in a block as it should, where the text is one.
fn is_inside(ip: Option<u32>, block: &Text, wanted: &str) -> bool {
    match parse_block(block) {
        Some(block) => is_bool(in_block(ip.unwrap_or(0), block), wanted),
        None => wanted == "none",
    }
}

/// Whether an address is this number.
fn is_ip(ip: Option<u32>, wanted: &str) -> bool {
    match ip {
        Some(ip) => is_number(Some(i64::from(ip)), wanted),
        None => is_number(None, wanted),
    }
}

/// Whether an address is read as its number, and lies in its block or doesn't.
fn is_address(s: &Text, block: &Text, wanted: &str) -> bool {
    let ip = field(wanted, 0);
    is_ip(parse_ip4(s), ip)
        && is_ip(ip4_from_str(s.text()), ip)
        && is_inside(parse_ip4(s), block, field(wanted, 1))
}

#[test]
fn addresses(rt: HostRuntime) {
    see(&rt, rt.alloc(), &Asked::Text(OfTexts::Address), ADDRESSES);
}

/// Two texts, and whether they are equal when folded. They are never equal otherwise.
static FOLDED: &str = "
CMD.EXE|cmd.exe => true
ß|ẞ => true
ß|ss => false
İ|i => false
ı|I => false
\u{212a}|k => true
Σ|ς => true
\u{1f88}|\u{1f80} => true
\u{1f88}|\u{1f00}\u{3b9} => false
";

/// Whether two texts are equal when folded as they should be, and not equal otherwise.
fn is_equal(a: &Text, b: &Text, wanted: &str) -> bool {
    is_bool(equal(a, b, true), wanted)
        && is_bool(wildcard(a, b, true), wanted)
        && !equal(a, b, false)
}

/// By the simple case foldings of the Unicode Character Database's CaseFolding.txt (its lines C and S).
#[test]
fn folding(rt: HostRuntime) {
    see(&rt, rt.alloc(), &Asked::Text(OfTexts::Equal), FOLDED);
}

/// A text, another one, whether case is folded, and whether the text starts with it, ends with it and contains it.
static MIDDLES: &str = "
CMD.EXE|cmd|true => true|false|true
CMD.EXE|CMD|false => true|false|true
CMD.EXE|.exe|true => false|true|true
CMD.EXE|.exe|false => false|false|false
CMD.EXE|d.E|true => false|false|true
CMD.EXE|d.E|false => false|false|false
CMD.EXE||true => true|true|true
||false => true|true|true
10 \u{212a}elvin|KELVIN|true => false|true|true
";

/// Whether a text starts with another one, ends with it and contains it as it should.
fn are_sides(s: &Text, t: &Text, row: &str, wanted: &str) -> bool {
    let fold = field(row, 2) == "true";
    is_bool(starts(s, t, fold), field(wanted, 0))
        && is_bool(ends(s, t, fold), field(wanted, 1))
        && is_bool(contains(s, t, fold), field(wanted, 2))
}

#[test]
fn ends_and_middles(rt: HostRuntime) {
    see(&rt, rt.alloc(), &Asked::Text(OfTexts::Sides), MIDDLES);
}

/// Whether a pattern fits a text, by trying each way in turn.
fn fits(pattern: &[u8], text: &[u8]) -> bool {
    match pattern {
        [] => text.is_empty(),
        [b'*', rest @ ..] => fits(rest, text) || !text.is_empty() && fits(pattern, &text[1..]),
        [d, rest @ ..] => {
            !text.is_empty() && (*d == b'?' || *d == text[0]) && fits(rest, &text[1..])
        }
    }
}

/// The word with this number, over these letters: the digits of the number in a base that has a digit more.
fn word(alloc: Global, letters: &str, number: usize) -> Result<Text, Memory> {
    let mut word = String::new(alloc);
    let mut left = number;
    for _ in 0..3 {
        if let Some(letter) = letters.as_bytes().get(left % 5) {
            word.push(char::from(*letter))?;
        }
        left /= 5;
    }
    Ok(Text::of(word))
}

/// Whether both matchers say the same of the pattern and the text with this number.
fn is_fit(alloc: Global, number: usize) -> Result<bool, Memory> {
    let pattern = word(alloc, "ab*?", number / 125)?;
    let text = word(alloc, "ab", number % 125)?;
    let wanted = fits(pattern.text().as_bytes(), text.text().as_bytes());
    let is_right = wildcard(&pattern, &text, false) == wanted;
    drop(text);
    drop(pattern);
    Ok(is_right)
}

/// Whether both matchers say the same of each pattern and text.
fn are_fits(alloc: Global) -> Result<bool, Memory> {
    for number in 0..15_625 {
        if !is_fit(alloc, number)? {
            return Ok(false);
        }
    }
    Ok(true)
}

#[test]
fn wildcards_as_the_plain_matcher(rt: HostRuntime) {
    see_true(&rt, are_fits(rt.alloc()));
}

/// Whether a pattern fits a long text.
fn fits_long(alloc: Global, pattern: &str, long: &Text, fold: bool) -> Result<bool, Memory> {
    let pattern = Text::copy_of(alloc, pattern)?;
    let fits = wildcard(&pattern, long, fold);
    drop(pattern);
    Ok(fits)
}

/// Whether a long text of one letter has no part that it nearly has.
fn has_none(long: &Text, part: &Text, fold: bool) -> bool {
    !contains(long, part, fold) && index_of(long, part, 100, fold).is_none()
}

/// Whether of patterns that end with another letter and with the same one the second alone fits a long text.
fn same_letter_fits(alloc: Global, long: &Text, fold: bool) -> Result<bool, Memory> {
    Ok(!fits_long(alloc, "*a*a*a*a*b", long, fold)? && fits_long(alloc, "*a*a*a*a*", long, fold)?)
}

/// Whether searches of a long text answer as they should, with case as it is or folded.
fn is_searched(
    alloc: Global,
    long: &Text,
    part: &Text,
    wide: &Text,
    fold: bool,
) -> Result<bool, Memory> {
    let has_none = has_none(long, part, fold) && !wildcard(wide, long, fold);
    Ok(has_none && same_letter_fits(alloc, long, fold)?)
}

/// Whether they do with case as it is, and with case folded.
fn is_searched_both(alloc: Global, long: &Text, part: &Text) -> Result<bool, Memory> {
    let wide = Text::of(format!(in alloc; "*{}*", part.text())?);
    let plain = is_searched(alloc, long, part, &wide, false);
    let folded = is_searched(alloc, long, part, &wide, true);
    drop(wide);
    Ok(plain? && folded?)
}

/// A text of so many `a`, and what follows.
fn repeated(alloc: Global, count: usize, end: &str) -> Result<Text, Memory> {
    let mut text = "a".repeat(alloc, count)?;
    text.push_str(end)?;
    Ok(Text::of(text))
}

/// Whether all searches of a long text answer as they should.
fn are_searches_right(alloc: Global) -> Result<bool, Memory> {
    let long = repeated(alloc, 200_000, "")?;
    let part = repeated(alloc, 20_000, "b")?;
    let is_right = is_searched_both(alloc, &long, &part);
    drop(part);
    drop(long);
    is_right
}

#[test]
fn no_search_takes_long(rt: HostRuntime) {
    see_true(&rt, are_searches_right(rt.alloc()));
}
