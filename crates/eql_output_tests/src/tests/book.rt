//! The book: the lines of a listing, what the pipes keep from cut to cut, and the report.
ghost use Rattle.std.specs.Prelude.{◌≡◌, IsTrue};
ghost use Rattle.std.specs.List.{AllZip};
ghost use Rattle.eql_book.specs.Books.{FitsPipe, FitsPipes};

use eql_book::{Book, listing_line, report_line};
use eql_outside::{MemSink, OutRefused};
use eql_values::{
    BookCut, Chain, Counts, FirstBad, Key, Match, Matches, Numbereds, OrderKey, Pipe, PipeState,
    PipeStates, Pipes, Reason, Text, Value,
};
use std::alloc::Global;
use std::test::Fail;

/// Whether the state is of the pipe's kind and within its count.
fn is_of(pipe: Pipe, state: &PipeState) -> bool
    ensures { IsTrue result → FitsPipe pipe state.now }
{
    match (pipe, state) {
        (Pipe::Head(count), PipeState::Head { passed }) => *passed <= count,
        (Pipe::Tail(count), PipeState::Tail { kept }) => kept.items().len() <= count as usize,
        _ => false,
    }
}

/// Whether there is such a state for each pipe.
fn are_of(pipes: &[Pipe], states: &[PipeState]) -> bool
    ensures { IsTrue result → AllZip FitsPipe pipes.now states.now }
{
    match (pipes, states) {
        ([], []) => true,
        ([pipe, pipes @ ..], [state, states @ ..]) => is_of(*pipe, state) && are_of(pipes, states),
        _ => false,
    }
}

/// Whether the cut fits the pipes.
fn is_fit(pipes: &Pipes, cut: &BookCut) -> bool
    ensures { IsTrue result → FitsPipes pipes.now cut.now }
{
    cut.listed <= cut.found && are_of(pipes.items(), cut.pipes.items())
}

/// A book of these pipes, from this cut.
fn book_from(alloc: Global, pipes: &[Pipe], cut: BookCut, places: bool) -> Result<Book, Fail> {
    let pipes = Pipes::of(Vec::from_slice(alloc, pipes)?);
    if !is_fit(&pipes, &cut) {
        return Err(Fail::from("the cut doesn't fit"));
    }
    match Book::new(alloc, pipes, cut, places) {
        Ok(book) => Ok(book),
        Err(_) => Err(Fail::from("memory")),
    }
}

/// The cut of a run that found nothing yet.
fn fresh_cut(alloc: Global, pipes: &[Pipe]) -> Result<BookCut, Fail> {
    let mut states = Vec::new(alloc);
    for pipe in pipes {
        match pipe {
            Pipe::Head(_) => states.push(PipeState::Head { passed: 0 })?,
            Pipe::Tail(_) => {
                let kept = Numbereds::of(Vec::new(alloc));
                states.push(PipeState::Tail { kept })?;
            }
        }
    }
    Ok(BookCut {
        found: 0,
        listed: 0,
        pipes: PipeStates::of(states),
    })
}

/// An event at this line of shard 0, with its place.
fn placed(line: u32, at: u64) -> OrderKey {
    OrderKey {
        ts: line as i128,
        tie: None,
        shard: 0,
        line,
        at,
    }
}

/// An event at this line of shard 2, ten bytes a line.
fn event(line: u32) -> OrderKey {
    OrderKey {
        shard: 2,
        ..placed(line, line as u64 * 10)
    }
}

/// A match of one event, without key values.
fn found_at(alloc: Global, line: u32) -> Result<Match, Fail> {
    let chain = Chain::of(vec![in alloc; event(line)]?);
    let key = Key::of(Vec::new(alloc));
    Ok(Match { key, chain })
}

/// Adds the matches at these lines, one by one.
fn add_lines(
    alloc: Global,
    book: &mut Book,
    from: u32,
    to: u32,
    sink: &mut MemSink,
) -> Result<(), Fail> {
    for line in from..=to {
        let matches = Matches::of(vec![in alloc; found_at(alloc, line)?]?);
        if !book.is_whole() || book.add(alloc, matches, sink).is_err() {
            return Err(Fail::from("the book isn't whole"));
        }
    }
    Ok(())
}

/// What a book of these pipes writes of so many matches, where a cut is taken after `stop` of them
/// and a book made from it goes on.
fn listing_of(alloc: Global, pipes: &[Pipe], stop: u32, count: u32) -> Result<MemSink, Fail> {
    let mut sink = MemSink::new(alloc, Vec::new(alloc));
    let cut = fresh_cut(alloc, pipes)?;
    let mut book = book_from(alloc, pipes, cut, false)?;
    add_lines(alloc, &mut book, 1, stop, &mut sink)?;
    if !book.is_whole() {
        return Err(Fail::from("the book isn't whole"));
    }
    let cut = match book.cut(alloc) {
        Ok(cut) => cut,
        Err(_) => return Err(Fail::from("memory")),
    };
    let mut next = book_from(alloc, pipes, cut, false)?;
    add_lines(alloc, &mut next, stop.saturating_add(1), count, &mut sink)?;
    if !next.is_whole() || next.end(alloc, &mut sink).is_err() {
        return Err(Fail::from("the book isn't whole"));
    }
    Ok(sink)
}

/// The lines of the matches with these numbers.
fn lines_of(alloc: Global, from: u32, to: u32) -> Result<String, Fail> {
    let mut text = String::new(alloc);
    for number in from..to {
        write!(text, "{number} [] 2:{number}\n")?;
    }
    Ok(text)
}

/// Pipes, each with the numbers of the matches of fifty that they keep: the first and the one after
/// the last.
static PIPES: &[(&[Pipe], u32, u32)] = &[
    (&[], 1, 51),
    (&[Pipe::Head(3)], 1, 4),
    (&[Pipe::Head(0)], 1, 1),
    (&[Pipe::Tail(3)], 48, 51),
    (&[Pipe::Tail(0)], 1, 1),
    (&[Pipe::Tail(1000000)], 1, 51),
    (&[Pipe::Head(10), Pipe::Tail(3), Pipe::Head(2)], 8, 10),
    (&[Pipe::Tail(5), Pipe::Head(2), Pipe::Tail(1)], 47, 48),
    (&[Pipe::Tail(40), Pipe::Tail(30), Pipe::Head(40)], 21, 51),
];

#[test]
fn pipes_keep_their_matches_from_cut_to_cut(rt: HostRuntime) -> Result<(), Fail> {
    let alloc = rt.alloc();
    for &(pipes, from, to) in PIPES {
        let expected = lines_of(alloc, from, to)?;
        for stop in 0..=50 {
            let sink = listing_of(alloc, pipes, stop, 50)?;
            assert_eq!(rt; sink.bytes().as_slice(), expected.as_bytes());
        }
    }
    Ok(())
}

/// Pipes over five matches, each with the lines that come out.
static FEW: &[(&[Pipe], &str)] = &[
    (&[Pipe::Tail(2), Pipe::Head(1)], "4 [] 2:4\n"),
    (&[Pipe::Head(3), Pipe::Tail(1)], "3 [] 2:3\n"),
    (&[Pipe::Head(0)], ""),
    (&[Pipe::Tail(0)], ""),
    (
        &[Pipe::Tail(6)],
        "1 [] 2:1\n2 [] 2:2\n3 [] 2:3\n4 [] 2:4\n5 [] 2:5\n",
    ),
    (
        &[Pipe::Head(4), Pipe::Tail(3), Pipe::Head(2)],
        "2 [] 2:2\n3 [] 2:3\n",
    ),
];

#[test]
fn pipes_apply_from_left_to_right(rt: HostRuntime) -> Result<(), Fail> {
    let alloc = rt.alloc();
    for &(pipes, expected) in FEW {
        let sink = listing_of(alloc, pipes, 2, 5)?;
        assert_eq!(rt; sink.bytes().as_slice(), expected.as_bytes());
    }
    Ok(())
}

/// The line of match 12 with these events, with one text as its key.
fn keyed_line(alloc: Global, text: &str, chain: Chain, places: bool) -> Result<Text, Fail> {
    let text = Text::of(String::from_str(alloc, text)?);
    let key = Key::of(vec![in alloc; Value::Text(text)]?);
    match listing_line(alloc, 12, &Match { key, chain }, places) {
        Ok(line) => Ok(line),
        Err(_) => Err(Fail::from("memory")),
    }
}

/// Texts of a key, each with the JSON that Python's `json.dumps` prints of it with the separators
/// `,` and `:` and `ensure_ascii=False`, in which the characters that steer a terminal or turn the
/// line stand as it prints them with `ensure_ascii=True`.
static KEYS: &[(&str, &str)] = &[
    ("", "[\"\"]"),
    (
        "\u{0}\u{1}\u{2}\u{3}\u{4}\u{5}\u{6}\u{7}\u{8}\t\n\u{b}\u{c}\r\u{e}\u{f}\u{10}\u{11}\u{12}\u{13}\u{14}\u{15}\u{16}\u{17}\u{18}\u{19}\u{1a}\u{1b}\u{1c}\u{1d}\u{1e}\u{1f}",
        "[\"\\u0000\\u0001\\u0002\\u0003\\u0004\\u0005\\u0006\\u0007\\b\\t\\n\\u000b\\f\\r\\u000e\\u000f\\u0010\\u0011\\u0012\\u0013\\u0014\\u0015\\u0016\\u0017\\u0018\\u0019\\u001a\\u001b\\u001c\\u001d\\u001e\\u001f\"]",
    ),
    (
        "a\"b\\c/d\u{7f}\u{80}\u{2028}\u{e9}\u{ffff}\u{1f600}\u{10ffff}",
        "[\"a\\\"b\\\\c/d\\u007f\\u0080\\u2028\u{e9}\u{ffff}\u{1f600}\u{10ffff}\"]",
    ),
    (
        "\u{85}\u{9f}\u{200e}\u{200f}\u{2029}\u{202a}\u{202b}\u{202c}\u{202d}\u{202e}\u{2066}\u{2067}\u{2068}\u{2069}",
        "[\"\\u0085\\u009f\\u200e\\u200f\\u2029\\u202a\\u202b\\u202c\\u202d\\u202e\\u2066\\u2067\\u2068\\u2069\"]",
    ),
    (
        "~\u{a0}\u{200d}\u{2010}\u{2027}\u{202f}\u{2065}\u{206a}",
        "[\"~\u{a0}\u{200d}\u{2010}\u{2027}\u{202f}\u{2065}\u{206a}\"]",
    ),
];

#[test]
fn keys_are_printed_as_json(rt: HostRuntime) -> Result<(), Fail> {
    let alloc = rt.alloc();
    for &(text, json) in KEYS {
        for (places, event) in [(false, "0:5"), (true, "0:5@50")] {
            let expected = format!(in alloc; "12 {json} {event}")?;
            let chain = Chain::of(vec![in alloc; placed(5, 50)]?);
            let line = keyed_line(alloc, text, chain, places)?;
            assert_eq!(rt; line.text(), expected.as_str());
        }
    }
    Ok(())
}

#[test]
fn keys_of_each_kind_are_printed(rt: HostRuntime) -> Result<(), Fail> {
    let alloc = rt.alloc();
    let key = Key::of(vec![in alloc;
        Value::Null,
        Value::Bool(true),
        Value::Bool(false),
        Value::Long(-9223372036854775808),
        Value::Long(9223372036854775807),
        Value::Ip(167837441),
    ]?);
    let chain = Chain::of(vec![in alloc; event(5)]?);
    let line = match listing_line(alloc, 18446744073709551615, &Match { key, chain }, false) {
        Ok(line) => line,
        Err(_) => return Err(Fail::from("memory")),
    };
    let expected =
        "18446744073709551615 [null,true,false,-9223372036854775808,9223372036854775807,\"10.0.255.1\"] 2:5";
    assert_eq!(rt; line.text(), expected);
    Ok(())
}

/// Counts of a shard's lines, each with its line of the report.
static REPORTS: &[(u32, Counts, &str)] = &[
    (
        0,
        Counts {
            lines: 0,
            accepted: 0,
            late: 0,
            rejected: 0,
            first: None,
        },
        "shard 0: lines 0 accepted 0 late 0 rejected 0",
    ),
    (
        3,
        Counts {
            lines: 10,
            accepted: 6,
            late: 1,
            rejected: 2,
            first: Some(FirstBad {
                line: 4,
                reason: Reason::NoTime,
            }),
        },
        "shard 3: lines 10 accepted 6 late 1 rejected 2 first 4 NoTime",
    ),
    (
        4294967295,
        Counts {
            lines: 4294967294,
            accepted: 0,
            late: 0,
            rejected: 4294967294,
            first: Some(FirstBad {
                line: 1,
                reason: Reason::NotJson,
            }),
        },
        "shard 4294967295: lines 4294967294 accepted 0 late 0 rejected 4294967294 first 1 NotJson",
    ),
];

#[test]
fn reports_tell_the_counts(rt: HostRuntime) -> Result<(), Fail> {
    let alloc = rt.alloc();
    for &(shard, counts, expected) in REPORTS {
        let line = match report_line(alloc, shard, &counts) {
            Ok(line) => line,
            Err(_) => return Err(Fail::from("memory")),
        };
        assert_eq!(rt; line.text(), expected);
    }
    Ok(())
}

#[test]
fn a_refused_book_is_not_whole(rt: HostRuntime) -> Result<(), Fail> {
    let alloc = rt.alloc();
    let mut sink = MemSink::new(alloc, Vec::from_slice(alloc, &[2])?);
    let cut = fresh_cut(alloc, &[])?;
    let mut book = book_from(alloc, &[], cut, true)?;
    add_lines(alloc, &mut book, 1, 1, &mut sink)?;
    if !book.is_whole() {
        return Err(Fail::from("the book isn't whole"));
    }
    let matches = Matches::of(vec![in alloc; found_at(alloc, 2)?]?);
    let refused = book.add(alloc, matches, &mut sink);
    assert_eq!(rt; refused, Err(OutRefused::Failed));
    assert_eq!(rt; book.is_whole(), false);
    assert_eq!(rt; sink.bytes().as_slice(), b"1 [] 2:1@10\n".as_slice());
    Ok(())
}
