//! Lines of shards: what each is, as a short text.
//!
//! A table is one text. Each line is a row: a line of a shard, ` => `, and what it is: `blank`, the reason, or an event's time,
//! tiebreaker, categories and fields. A row that begins with `// ` is a comment. `«count piece»` stands for the piece so many
//! times, with the number from 0 in place of each `#`.
use eql_lines::{Fields, LineRead, LineScan, Wanted, read_line};
use eql_values::{Kind, NameKinds, Text, Value};
use std::alloc::{AllocError, Global};

/// Puts a piece with this number in place of each `#`.
fn push_numbered(text: &mut String, piece: &str, number: u32) -> Result<(), AllocError> {
    let mut parts = piece.split('#');
    text.push_str(parts.next().unwrap_or(""))?;
    for part in parts {
        write!(text, "{number}{part}")?;
    }
    Ok(())
}

/// Puts a piece as often as its count says, `count piece`.
fn push_repeated(text: &mut String, repeated: &str) -> Result<(), AllocError> {
    let (count, piece) = repeated.split_once(' ').unwrap_or(("0", ""));
    for number in 0..count.parse::<u32>().unwrap_or(0) {
        push_numbered(text, piece, number)?;
    }
    Ok(())
}

/// A row with its pieces as often as they say.
fn expanded(alloc: Global, row: &str) -> Result<String, AllocError> {
    let mut text = String::new(alloc);
    for part in row.split('»') {
        let (plain, repeated) = part.split_once('«').unwrap_or((part, ""));
        text.push_str(plain)?;
        push_repeated(&mut text, repeated)?;
    }
    Ok(text)
}

/// The kind of this name.
fn kind_of(name: &str) -> Kind {
    match name {
        "long" => Kind::Long,
        "boolean" => Kind::Bool,
        "ip" => Kind::Ip,
        _ => Kind::Text,
    }
}

/// A name.
fn name(alloc: Global, name: &str) -> Result<Text, AllocError> {
    Ok(Text::of(String::from_str(alloc, name)?))
}

/// Fields that are written `name=kind`, each with a space behind it.
fn fields_of(alloc: Global, words: &str) -> Result<NameKinds, AllocError> {
    let mut fields = Vec::new(alloc);
    for word in words.split(' ') {
        if let Some((field, kind)) = word.split_once('=') {
            fields.push((name(alloc, field)?, kind_of(kind)))?;
        }
    }
    Ok(NameKinds::of(fields))
}

/// The tiebreaker that is named behind `|`.
fn tie_of(alloc: Global, words: &str) -> Result<Option<Text>, AllocError> {
    match words.split_once('|') {
        Some((_, tie)) => Ok(Some(name(alloc, tie)?)),
        None => Ok(None),
    }
}

/// What is wanted of lines: fields, and behind them a tiebreaker.
fn wanted_of(alloc: Global, words: &str) -> Result<Wanted, AllocError> {
    let words = expanded(alloc, words)?;
    Ok(Wanted {
        tie: tie_of(alloc, words.as_str())?,
        fields: fields_of(alloc, words.as_str())?,
    })
}

/// Puts a value.
fn push_value(told: &mut String, value: &Value) -> Result<(), AllocError> {
    match value {
        Value::Null => told.push_str(" null"),
        Value::Bool(truth) => write!(told, " {truth}"),
        Value::Long(number) => write!(told, " {number}"),
        Value::Text(text) => write!(told, " {}", text.text()),
        Value::Ip(address) => write!(told, " {address}"),
    }
}

/// Puts categories in brackets.
fn push_categories(told: &mut String, categories: &[Text]) -> Result<(), AllocError> {
    let mut before = " [";
    for category in categories {
        write!(told, "{before}{}", category.text())?;
        before = " ";
    }
    told.push_str(if categories.is_empty() { " []" } else { "]" })
}

/// Puts an event.
fn push_event(told: &mut String, fields: &Fields) -> Result<(), AllocError> {
    let ts = fields.ts;
    match fields.tie {
        Some(tie) => write!(told, "{ts} {tie}")?,
        None => write!(told, "{ts} none")?,
    }
    push_categories(told, fields.categories.items())?;
    for value in fields.slots.items() {
        push_value(told, value)?;
    }
    Ok(())
}

/// Puts what a line is.
fn push_read(told: &mut String, read: &LineRead) -> Result<(), AllocError> {
    match read {
        LineRead::Blank => told.push_str("blank"),
        LineRead::Event(fields) => push_event(told, fields),
        LineRead::Bad(reason) => write!(told, "{reason:?}"),
    }
}

/// Whether a line is this.
fn is_read_as(alloc: Global, read: &LineRead, expected: &str) -> bool {
    let mut told = String::new(alloc);
    push_read(&mut told, read).is_ok() && told.as_str() == expected
}

/// Whether a line is this to a reader that goes on reading.
fn is_told(alloc: Global, scan: &mut LineScan, line: &[u8], expected: &str) -> bool {
    match scan.read(alloc, line) {
        Ok(read) => is_read_as(alloc, &read, expected),
        Err(_) => false,
    }
}

/// Whether a line is this to a reader of its own.
fn is_told_alone(alloc: Global, wanted: &Wanted, line: &[u8], expected: &str) -> bool {
    match read_line(alloc, wanted, line) {
        Ok(read) => is_read_as(alloc, &read, expected),
        Err(_) => false,
    }
}

/// Whether a line is this to both.
fn is_told_to_both(
    alloc: Global,
    wanted: &Wanted,
    scan: &mut LineScan,
    line: &[u8],
    expected: &str,
) -> bool {
    is_told_alone(alloc, wanted, line, expected) && is_told(alloc, scan, line, expected)
}

/// Whether a row is as it should be.
fn is_right(alloc: Global, wanted: &Wanted, scan: &mut LineScan, row: &str) -> bool {
    if row.is_empty() || row.starts_with("// ") {
        return true;
    }
    let Ok(row) = expanded(alloc, row) else {
        return false;
    };
    match row.as_str().rsplit_once(" => ") {
        Some((line, expected)) => {
            is_told_to_both(alloc, wanted, scan, line.as_bytes(), expected)
        }
        None => false,
    }
}

/// The first row that isn't as it should be to both readers, or nothing.
fn wrong_row_of<'a>(
    alloc: Global,
    wanted: &Wanted,
    scan: &mut LineScan,
    table: &'a str,
) -> &'a str {
    for row in table.lines() {
        if !is_right(alloc, wanted, scan, row) {
            return row;
        }
    }
    ""
}

/// The first row of a table that isn't as it should be, or nothing: each is read by one reader that goes on reading, and by
/// a reader of its own.
fn wrong_row<'a>(alloc: Global, words: &str, table: &'a str) -> &'a str {
    let Ok(wanted) = wanted_of(alloc, words) else {
        return "no memory";
    };
    match LineScan::new(alloc, &wanted) {
        Ok(mut scan) => wrong_row_of(alloc, &wanted, &mut scan, table),
        Err(_) => "no memory",
    }
}

/// A keyword, a long, a boolean, an address and a tiebreaker.
static ALL_KINDS: &str = "k=keyword l=long b=boolean i=ip |t";

/// Keywords and numbers.
static NUMBERS: &str = r#"
{"@timestamp":7,"k":"a\u00e9"} => 7000000 none [] aé null null null
{"@timestamp":7,"k":-7} => 7000000 none [] -7 null null null
{"@timestamp":7,"k":18446744073709551615} => 7000000 none [] 18446744073709551615 null null null
{"@timestamp":7,"k":1.5} => Fraction
{"@timestamp":7,"k":-0} => Fraction
{"@timestamp":7,"k":true} => 7000000 none [] true null null null
{"@timestamp":7,"k":false} => 7000000 none [] false null null null
{"@timestamp":7,"l":"-12"} => 7000000 none [] null -12 null null
{"@timestamp":7,"l":"9223372036854775808"} => Range
{"@timestamp":7,"l":"+1"} => Kind
{"@timestamp":7,"l":"x"} => Kind
{"@timestamp":7,"l":5} => 7000000 none [] null 5 null null
{"@timestamp":7,"l":9223372036854775807} => 7000000 none [] null 9223372036854775807 null null
{"@timestamp":7,"l":9223372036854775808} => Range
{"@timestamp":7,"l":-9223372036854775808} => 7000000 none [] null -9223372036854775808 null null
{"@timestamp":7,"l":-9223372036854775809} => Fraction
{"@timestamp":7,"l":18446744073709551616} => Fraction
{"@timestamp":7,"l":"-9223372036854775808"} => 7000000 none [] null -9223372036854775808 null null
{"@timestamp":7,"l":"-9223372036854775809"} => Range
{"@timestamp":7,"l":"1.0"} => Kind
{"@timestamp":7,"l":-0} => Fraction
{"@timestamp":7,"l":1e2} => Fraction
{"@timestamp":7,"l":true} => Kind"#;

#[test]
fn keywords_and_numbers_are_read(rt: HostRuntime) {
    assert_eq!(rt; wrong_row(rt.alloc(), ALL_KINDS, NUMBERS), "");
}

/// Truth values and addresses.
static TRUTHS: &str = r#"
{"@timestamp":7,"b":"true"} => 7000000 none [] null null true null
{"@timestamp":7,"b":"false"} => 7000000 none [] null null false null
{"@timestamp":7,"b":"True"} => Kind
{"@timestamp":7,"b":1} => Kind
{"@timestamp":7,"b":1.5} => Kind
{"@timestamp":7,"b":true} => 7000000 none [] null null true null
{"@timestamp":7,"b":""} => Kind
{"@timestamp":7,"b":false} => 7000000 none [] null null false null
{"@timestamp":7,"i":"10.0.0.1"} => 7000000 none [] null null null 167772161
{"@timestamp":7,"i":"::1"} => 7000000 none [] null null null null
{"@timestamp":7,"i":"x"} => Kind
{"@timestamp":7,"i":"255.255.255.255"} => 7000000 none [] null null null 4294967295
{"@timestamp":7,"i":"256.0.0.1"} => Kind
{"@timestamp":7,"i":1} => Kind
{"@timestamp":7,"i":1.5} => Kind
{"@timestamp":7,"i":true} => Kind"#;

#[test]
fn truths_and_addresses_are_read(rt: HostRuntime) {
    assert_eq!(rt; wrong_row(rt.alloc(), ALL_KINDS, TRUTHS), "");
}

/// What names lead to, tiebreakers, and which reason comes first.
static REACHED: &str = r#"
{"@timestamp":7,"k":null} => 7000000 none [] null null null null
{"@timestamp":7,"k":[]} => 7000000 none [] null null null null
{"@timestamp":7,"k":["a"]} => 7000000 none [] a null null null
{"@timestamp":7,"k":["a","b"]} => 7000000 none [] null null null null
{"@timestamp":7,"k":[[],["a"],null]} => 7000000 none [] a null null null
{"@timestamp":7,"k":{"x":1}} => 7000000 none [] null null null null
{"@timestamp":7,"k":1,"k":"b"} => 7000000 none [] b null null null
{"@timestamp":7,"event.category":"p","event":{"category":["q",1,["r"]]}} => 7000000 none [q r p] null null null null
{"@timestamp":7,"event":{"category":"process"},"l":true,"k":1.5} => Fraction
{"@timestamp":7,"t":[5]} => 7000000 5 [] null null null null
{"@timestamp":7,"t":1.5,"l":true} => Fraction
{"@timestamp":7,"t":null} => 7000000 none [] null null null null
{"@timestamp":7,"t":[1,2]} => 7000000 none [] null null null null
{"@timestamp":7,"t":"-3"} => 7000000 -3 [] null null null null
{"@timestamp":7,"t":true,"k":1.5} => Kind
{"@timestamp":7,"t":"x"} => Kind
{"@timestamp":7,"t":9223372036854775808} => Range
{"t":true} => NoTime
{"@timestamp":{},"t":true} => NoTime
{"@timestamp":false,"t":1.5} => BadTime
{"@timestamp":true,"k": => NotJson
[1,1e999] => NotJson
"x" => NotObject"#;

#[test]
fn the_first_reason_is_told(rt: HostRuntime) {
    assert_eq!(rt; wrong_row(rt.alloc(), ALL_KINDS, REACHED), "");
}

/// Timestamps, and lines that are no events.
static STAMPS: &str = r#"
null => NotObject
{} {} => NotJson
{} => NoTime
// a name that is given twice: the last value stands, of the timestamp too
{"@timestamp":7,"@timestamp":true} => BadTime
{"@timestamp":true,"@timestamp":8,"l":1.5,"l":2} => 8000000 none [] null 2 null null
{"@timestamp":7,"k":["a","b"],"k":[]} => 7000000 none [] null null null null
{"k":1.5} => NoTime
{"@timestamp":null} => NoTime
{"@timestamp":[1,2]} => BadTime
{"@timestamp":1.0} => BadTime
{"@timestamp":true,"k":1.5} => BadTime
[1] => NotObject
{ => NotJson
{"@timestamp":7,"x":1e999} => NotJson
{"@timestamp":9223372036854775807} => 9223372036854775807000000 none [] null null null null
{"@timestamp":-9223372036854775808} => -9223372036854775808000000 none [] null null null null
{"@timestamp":9223372036854775808} => BadTime
{"@timestamp":-9223372036854775809} => BadTime
{"@timestamp":-0} => BadTime
{"@timestamp":[["1970-01-01"]]} => 0 none [] null null null null
{"@timestamp":["1970-01-01",0]} => BadTime"#;

/// A line of a space, a tab and a carriage return.
static BLANK: &str = " \t\r => blank";

#[test]
fn stamps_are_read(rt: HostRuntime) {
    assert_eq!(rt; wrong_row(rt.alloc(), ALL_KINDS, STAMPS), "");
    assert_eq!(rt; wrong_row(rt.alloc(), ALL_KINDS, BLANK), "");
}

/// Names of which one lies within another, or is wanted twice.
static NAMES: &str = "a.b.c=keyword a.b=keyword @timestamp=keyword a.b.c=keyword z.=keyword";

/// Lines in which one name lies within another, or is wanted twice.
static NAMED: &str = r#"
{"@timestamp":7,"a":{"b":{"c":"x"}}} => 7000000 none [] x null 7 x null
{"@timestamp":7,"a.b.c":"x"} => 7000000 none [] x null 7 x null
{"@timestamp":7,"a":{"b.c":"x"}} => 7000000 none [] x null 7 x null
{"@timestamp":7,"a.b":{"c":"x"}} => 7000000 none [] x null 7 x null
// two forms of one name are two values
{"@timestamp":7,"a.b.c":"x","a":{"b":{"c":"y"}}} => 7000000 none [] null null 7 null null
{"@timestamp":7,"a.b":"x","a":{"b":{"c":"y"}}} => 7000000 none [] y x 7 y null
{"@timestamp":7,"a.b.c":"x","a":{"b":null}} => 7000000 none [] x null 7 x null
// a name that is given twice
{"@timestamp":7,"a":{"b":{"c":1}},"a":{"b":{"c":2}}} => 7000000 none [] 2 null 7 2 null
{"@timestamp":7,"a":{"b":{"c":1}},"a":{}} => 7000000 none [] null null 7 null null
{"@timestamp":7,"a":[{"b":{"c":1,"c":2}}]} => 7000000 none [] 2 null 7 2 null
// arrays spread, arrays in arrays too
{"@timestamp":7,"a":[[],[null,{"b":[[[{"c":[true]}]]]}]]} => 7000000 none [] true null 7 true null
{"@timestamp":7,"a":[{"b":{"c":1}},{"b":{"c":2}}]} => 7000000 none [] null null 7 null null
{"@timestamp":7,"a":[{"b":"x"},{"b":{"c":"y"}}]} => 7000000 none [] y x 7 y null
// names that only begin alike
{"@timestamp":7,"a.b.cc":1,"a.bb":2,"ab":3,"a.b.c.d":4,"":5,"a.":6} => 7000000 none [] null null 7 null null
// a name that ends in a dot is reached under the name before it, and the empty name is no name of a field
{"@timestamp":7,"z":1,"t":true} => 7000000 none [] null null 7 null 1
{"@timestamp":7,"z.":1} => 7000000 none [] null null 7 null 1
{"@timestamp":7,"event":[{"category":"p"},{"category":["q",7,"q"]}]} => 7000000 none [p q q] null null 7 null null"#;

#[test]
fn names_lead(rt: HostRuntime) {
    assert_eq!(rt; wrong_row(rt.alloc(), NAMES, NAMED), "");
}

/// Timestamps in texts. By Python's `datetime`, and years outside 1 to 9999 by a count of days.
static TIMES: &str = r#"
{"@timestamp":"2024-05-01T08:00:00.123Z"} => 1714550400123000000 none []
{"@timestamp":"2024-05-01T08:00:00Z"} => 1714550400000000000 none []
{"@timestamp":"2024-05-01t08:00:00z"} => 1714550400000000000 none []
{"@timestamp":"2024-05-01 08:00:00Z"} => 1714550400000000000 none []
{"@timestamp":"1969-12-31T23:59:59.999999Z"} => -1000 none []
// offsets
{"@timestamp":"2024-05-01T08:00:00+02:00"} => 1714543200000000000 none []
{"@timestamp":"2024-05-01T08:00:00-11:30"} => 1714591800000000000 none []
{"@timestamp":"2024-05-01T08:00:00+02:00[Europe/Berlin]"} => 1714543200000000000 none []
{"@timestamp":"2024-05-01T08:00:00-08:00[Europe/Berlin]"} => 1714579200000000000 none []
// a date and a time of day, with no offset
{"@timestamp":"2024-05-01T08:00:00"} => 1714550400000000000 none []
{"@timestamp":"2024-05-01T08:00"} => 1714550400000000000 none []
{"@timestamp":"2024-05-01T08:00:00.5"} => 1714550400500000000 none []
{"@timestamp":"2024-05-01T08:00:00[Europe/Berlin]"} => 1714550400000000000 none []
// a date alone
{"@timestamp":"2024-05-01"} => 1714521600000000000 none []
{"@timestamp":"20240501"} => 1714521600000000000 none []
{"@timestamp":"2024-02-29"} => 1709164800000000000 none []
// fractions of one to nine digits
{"@timestamp":"2024-05-01T08:00:00.1Z"} => 1714550400100000000 none []
{"@timestamp":"2024-05-01T08:00:00.12Z"} => 1714550400120000000 none []
{"@timestamp":"2024-05-01T08:00:00.123Z"} => 1714550400123000000 none []
{"@timestamp":"2024-05-01T08:00:00.1234Z"} => 1714550400123400000 none []
{"@timestamp":"2024-05-01T08:00:00.12345Z"} => 1714550400123450000 none []
{"@timestamp":"2024-05-01T08:00:00.123456Z"} => 1714550400123456000 none []
{"@timestamp":"2024-05-01T08:00:00.1234567Z"} => 1714550400123456700 none []
{"@timestamp":"2024-05-01T08:00:00.12345678Z"} => 1714550400123456780 none []
{"@timestamp":"2024-05-01T08:00:00.123456789Z"} => 1714550400123456789 none []
{"@timestamp":"2024-05-01T08:00:00.000000001Z"} => 1714550400000000001 none []
{"@timestamp":"2024-05-01T08:00:00.1234567891Z"} => BadTime
{"@timestamp":"2024-05-01T08:00:00.Z"} => BadTime
// a leap second is read as the second before it
{"@timestamp":"2016-12-31T23:59:60Z"} => 1483228799000000000 none []
{"@timestamp":"2016-12-31T23:59:60.5Z"} => 1483228799500000000 none []
{"@timestamp":"2016-12-31T23:59:60"} => 1483228799000000000 none []
{"@timestamp":"2016-12-31T23:59:61Z"} => BadTime
// both ends of instants, and the nanosecond or second beyond
{"@timestamp":"-009999-01-02T01:59:59Z"} => -377705023201000000000 none []
{"@timestamp":"-009999-01-02T01:59:58.999999999Z"} => BadTime
{"@timestamp":"9999-12-30T22:00:00.999999999Z"} => 253402207200999999999 none []
{"@timestamp":"9999-12-30T22:00:01Z"} => BadTime
{"@timestamp":"9999-12-31T23:59:59Z"} => BadTime
{"@timestamp":"9999-12-30T23:30:00-12:00"} => BadTime
// both ends of civil times and dates, which go further
{"@timestamp":"-009999-01-01T00:00:00"} => -377705116800000000000 none []
{"@timestamp":"9999-12-31T23:59:59.999999999"} => 253402300799999999999 none []
{"@timestamp":"-009999-01-01"} => -377705116800000000000 none []
{"@timestamp":"9999-12-31"} => 253402214400000000000 none []
{"@timestamp":"0001-01-01"} => -62135596800000000000 none []
{"@timestamp":"0000-02-29"} => -62162121600000000000 none []
{"@timestamp":"-000001-12-31T23:59:59"} => -62167219201000000000 none []
// no timestamps
{"@timestamp":""} => BadTime
{"@timestamp":"1714550400"} => BadTime
{"@timestamp":"2024-05"} => BadTime
{"@timestamp":"2024-13-01"} => BadTime
{"@timestamp":"2023-02-29"} => BadTime
{"@timestamp":"2024-05-01Z"} => BadTime
{"@timestamp":"2024-05-01+02:00"} => BadTime
{"@timestamp":"T08:00:00Z"} => BadTime
{"@timestamp":"08:00:00"} => BadTime
{"@timestamp":"2024-05-01T"} => BadTime
{"@timestamp":"2024-05-01T24:00:00Z"} => BadTime
{"@timestamp":"2024-05-01T08:60:00Z"} => BadTime
{"@timestamp":"2024-05-01T08:00:00Zx"} => BadTime
{"@timestamp":" 2024-05-01"} => BadTime
{"@timestamp":"2024-05-01T08:00:00+26:00"} => BadTime
{"@timestamp":"-000000-01-01"} => BadTime
{"@timestamp":"10000-01-01"} => BadTime"#;

#[test]
fn times_are_read(rt: HostRuntime) {
    assert_eq!(rt; wrong_row(rt.alloc(), "", TIMES), "");
}

/// More fields than one walk goes along: it goes along 128 names, of which three are the reader's own.
static MANY_FIELDS: &[(&str, &str)] = &[
    (
        "«125 f.#=long »",
        r#"{"@timestamp":7«125 ,"f.#":[#]»} => 7000000 none []«125  #»"#,
    ),
    (
        "«126 f.#=long »",
        r#"{"@timestamp":7«126 ,"f.#":[#]»} => 7000000 none []«126  #»"#,
    ),
    (
        "«300 f.#=long »",
        r#"{"@timestamp":7«300 ,"f.#":[#]»} => 7000000 none []«300  #»"#,
    ),
];

#[test]
fn many_fields_are_read(rt: HostRuntime) {
    for (words, row) in MANY_FIELDS {
        assert_eq!(rt; wrong_row(rt.alloc(), *words, *row), "");
    }
}

/// A line with 301 texts under `event.category`, and one with a single text, twice. After a line with more texts than a reader
/// keeps memory for, others are read as ever.
static TEXTS: &str = r#"
{"@timestamp":7,"event.category":["c"«300 ,"c#"»]} => 7000000 none [c«300  c#»] null
{"@timestamp":7,"event.category":"d","k":"x"} => 7000000 none [d] x
{"@timestamp":7,"event.category":["c"«300 ,"c#"»]} => 7000000 none [c«300  c#»] null
{"@timestamp":7,"event.category":"d","k":"x"} => 7000000 none [d] x"#;

#[test]
fn many_texts_are_read(rt: HostRuntime) {
    assert_eq!(rt; wrong_row(rt.alloc(), "k=keyword", TEXTS), "");
}

/// Arrays and objects nest 127 deep at most, under a name that is wanted and under one that isn't.
static NESTED: &str = r#"
{"@timestamp":7,"k":«126 [»«126 ]»} => 7000000 none [] null
{"@timestamp":7,"x":«126 [»«126 ]»} => 7000000 none [] null
{"@timestamp":7,"k":«127 [»«127 ]»} => NotJson
{"@timestamp":7,"x":«127 [»«127 ]»} => NotJson"#;

#[test]
fn nesting_is_bounded(rt: HostRuntime) {
    assert_eq!(rt; wrong_row(rt.alloc(), "k=keyword", NESTED), "");
}

/// Lines of 1,048,576 bytes, and of one more. A line that is too long is that before all else but blank.
static LENGTHS: &str = r#"
{"@timestamp":7}«1048560  » => 7000000 none []
{"@timestamp":7}«1048561  » => Long
x«1048576  » => Long
«1048577  » => blank"#;

/// Bytes that are no UTF-8.
static NO_TEXT: &[u8] = b"{\"@timestamp\":7,\"x\":\"\xff\"}";

/// Whether bytes that are no UTF-8 are no JSON to both readers.
fn is_no_text_refused(alloc: Global) -> bool {
    let Ok(wanted) = wanted_of(alloc, "") else {
        return false;
    };
    match LineScan::new(alloc, &wanted) {
        Ok(mut scan) => is_told_to_both(alloc, &wanted, &mut scan, NO_TEXT, "NotJson"),
        Err(_) => false,
    }
}

#[test]
fn length_goes_first(rt: HostRuntime) {
    assert_eq!(rt; wrong_row(rt.alloc(), "", LENGTHS), "");
    assert!(rt; is_no_text_refused(rt.alloc()));
}
