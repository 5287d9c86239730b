//! A part on events that are delivered in several batches, against the look-back over all of them. Each event is a line of
//! one shard.
ghost use Rattle.std.specs.Prelude.{◌≡◌, ◌<◌, ◌≤◌, IsTrue};
ghost use Rattle.eql_values.specs.Marks.{is_below};
ghost use Rattle.eql_laws.specs.Together.{AllAreBelow, NoneIsBelow};
ghost use Rattle.eql_parts.specs.PartSteps.{CanDeliver};

use crate::tests::lookback::{
    BEYOND_SPAN, ELKBEE, EMPTY, Event, Example, Found, NULL, Name, REFERENCE, ROOT, SECOND, SEVEN,
    TWO_STAGES, UNTIL_BETWEEN, WITHIN_SPAN, are_matches, are_pending, example, finds, fits, found,
    items_of, key_of,
};
use eql_auto::Steps;
use eql_lookback::ascend;
use eql_parts::{Part, PartOp, PartReply, part_of};
use eql_values::{Holders, Item, Items, Mark, Match};
use std::alloc::Global;
use std::marker::Brand;
use std::sync::ledger::{Blank, Ledger};

/// Whether the event lies below the mark.
fn lies_below(mark: Mark, item: &Item) -> bool
    ensures { result ≡ is_below mark item.now }
{
    match mark {
        Mark::Start => false,
        Mark::At(time) => item.order.ts < time,
        Mark::End => true,
    }
}

/// Whether all of the events lie below the mark, and none lies below the mark `from`.
fn lie_between(from: Mark, items: &Vec<Item>, mark: Mark) -> bool
    ensures not_below { IsTrue result → NoneIsBelow from items.now.items }
    ensures below { IsTrue result → AllAreBelow mark items.now.items }
{
    for item in items {
        if lies_below(from, item) || !lies_below(mark, item) {
            return false;
        }
    }
    true
}

/// Whether the events may be delivered between these marks.
fn may_deliver(from: Mark, items: &Vec<Item>, mark: Mark) -> bool
    ensures { IsTrue result → CanDeliver from items.now.items mark }
{
    from.cmp(&mark).is_le() && ascend(items.as_slice()) && lie_between(from, items, mark)
}

/// Delivers events up to a mark. Returns whether they may be delivered then, and are.
fn delivers<L: Ledger>(
    part: &mut Part<L>,
    last: &mut Mark,
    items: Items,
    mark: Mark,
    steps: &mut Steps<L>,
) -> bool
    requires last { last.old ≡ part.old.state.last }
    ensures last { IsTrue result → last.new ≡ part.new.state.last }
{
    if !may_deliver(*last, items.items(), mark) {
        return false;
    }
    match part.play(PartOp::Deliver { items, mark }, steps) {
        PartReply::Done => {
            *last = mark;
            true
        }
        _ => false,
    }
}

/// Plays the events that wait, so many at most in a turn. Returns whether they are as many as they should be.
fn plays<L: Ledger>(part: &mut Part<L>, max: u32, count: u32, steps: &mut Steps<L>) -> bool
    ensures last { IsTrue result → part.new.state.last ≡ part.old.state.last }
{
    if max < 1 || 4096 < max {
        return false;
    }
    let mut played = 0u32;
    for _ in 0..100 {
        match part.play(PartOp::Turn { max }, steps) {
            PartReply::Turned { items } => played = played.saturating_add(items),
            PartReply::Idle => return played == count,
            _ => return false,
        }
    }
    false
}

/// Adds the matches that were found since they were last collected. Returns whether that is done, and so is this mark.
fn collects<L: Ledger>(
    part: &mut Part<L>,
    found: &mut Vec<Match>,
    mark: Mark,
    steps: &mut Steps<L>,
) -> bool
    ensures last { IsTrue result → part.new.state.last ≡ part.old.state.last }
{
    match part.play(PartOp::Collect, steps) {
        PartReply::Found { matches, done } => {
            let mut more = matches.into_items();
            done == mark && found.append(&mut more).is_ok()
        }
        _ => false,
    }
}

/// Whether these sequences are pending.
fn holds<L: Ledger>(
    alloc: Global,
    part: &mut Part<L>,
    expected: &[Found],
    steps: &mut Steps<L>,
) -> bool
    ensures last { IsTrue result → part.new.state.last ≡ part.old.state.last }
{
    match part.play(PartOp::Snap, steps) {
        PartReply::Cut(held) => are_pending(alloc, held.items(), expected),
        _ => false,
    }
}

/// A call of a part, and what should come of it.
#[derive(Clone, Copy)]
enum Call {
    /// So many more of the events are delivered, up to a mark.
    Deliver(u32, Mark),
    /// All that wait are played, so many at most in a turn, and they are so many.
    Play(u32, u32),
    /// The matches are collected, and this mark is done.
    Collect(Mark),
    /// These sequences are pending.
    Pending(&'static [Found]),
}

/// An example, and calls of a part that plays its events.
struct Row {
    example: Example,
    calls: &'static [Call],
}

/// What calls of a part came to.
#[derive(Drop)]
struct Seen {
    /// The last mark up to which events were delivered.
    last: Mark,
    /// The line of the last event that was delivered.
    line: u32,
    /// The matches that were collected.
    found: Vec<Match>,
}

/// So many of the events behind a line, or `None` where there are fewer or memory is short. The line is the last one of
/// them then.
fn next_items(alloc: Global, events: &[Event], line: &mut u32, count: u32) -> Option<Items> {
    let (batch, _) = events
        .get(*line as usize..)?
        .split_at_checked(count as usize)?;
    *line = line.saturating_add(count);
    items_of(alloc, batch)
}

/// Makes a call. Returns whether it comes to what it should.
fn is_answered<L: Ledger>(
    alloc: Global,
    events: &[Event],
    part: &mut Part<L>,
    seen: &mut Seen,
    call: Call,
    steps: &mut Steps<L>,
) -> bool
    requires last { seen.old.last ≡ part.old.state.last }
    ensures last { IsTrue result → seen.new.last ≡ part.new.state.last }
{
    match call {
        Call::Deliver(count, mark) => match next_items(alloc, events, &mut seen.line, count) {
            Some(items) => delivers(part, &mut seen.last, items, mark, steps),
            None => false,
        },
        Call::Play(max, count) => plays(part, max, count, steps),
        Call::Collect(mark) => collects(part, &mut seen.found, mark, steps),
        Call::Pending(expected) => holds(alloc, part, expected, steps),
    }
}

/// The first call of a row that doesn't come to what it should, from 0.
fn wrong_call<L: Ledger>(
    alloc: Global,
    row: &Row,
    part: &mut Part<L>,
    seen: &mut Seen,
    steps: &mut Steps<L>,
) -> Option<usize>
    requires last { seen.old.last ≡ part.old.state.last }
{
    for (number, call) in row.calls.iter().enumerate() {
        if !is_answered(alloc, row.example.events, part, seen, *call, steps) {
            return Some(number);
        }
    }
    None
}

/// The first call of a row that doesn't come to what it should, made of a new part.
fn wrong_of_new<L: Ledger>(
    alloc: Global,
    row: &Row,
    seen: &mut Seen,
    steps: &mut Steps<L>,
) -> Option<usize>
    requires from { 1 ≤ row.now.example.stages }
    requires to { row.now.example.stages ≤ 256 }
{
    let none = Holders::of(Vec::new(alloc));
    match Part::new(
        alloc,
        row.example.stages,
        row.example.span,
        none,
        seen.last,
        steps,
    ) {
        Ok(mut part) => {
            let wrong = wrong_call(alloc, row, &mut part, seen, steps);
            drop(part);
            wrong
        }
        Err(_) => Some(row.calls.len()),
    }
}

/// The first call of a row that doesn't come to what it should, made of a new part over a new ledger.
fn wrong_over<L: Ledger>(alloc: Global, row: &Row, seen: &mut Seen, blank: Blank) -> Option<usize>
    requires blank { (blank.name ≡ L.name) × (blank.parts ≡ L.parts) × (0 < L.parts) }
    requires from { 1 ≤ row.now.example.stages }
    requires to { row.now.example.stages ≤ 256 }
{
    let (_book, share) = blank.open::<L>();
    wrong_of_new(alloc, row, seen, &mut Steps::of(share))
}

/// Whether all events of a row's example were delivered, and the part found its matches, as the look-back does.
fn is_seen(alloc: Global, row: &Row, seen: &Seen) -> bool {
    seen.line as usize == row.example.events.len()
        && are_matches(alloc, &seen.found, row.example.matches)
        && finds(alloc, &row.example)
}

/// The first call of a row that doesn't come to what it should, from 0, or their number where the matches aren't as they
/// should be.
fn wrong_in(alloc: Global, row: &Row) -> Option<usize> {
    let mut seen = Seen {
        last: Mark::Start,
        line: 0,
        found: Vec::new(alloc),
    };
    if row.example.stages < 1 || 256 < row.example.stages {
        return Some(row.calls.len());
    }
    let wrong = wrong_over::<Brand>(alloc, row, &mut seen, Blank::new(1));
    if wrong.is_none() && !is_seen(alloc, row, &seen) {
        return Some(row.calls.len());
    }
    wrong
}

/// An example whose events are delivered in batches, so many up to each mark. After each all that wait are played, so many
/// at most in a turn, and the matches are collected.
macro_rules! batches {
    ($example:expr, $max:expr; $($count:expr => $mark:expr),+) => {
        Row {
            example: $example,
            calls: &[$(
                Call::Deliver($count, $mark), Call::Play($max, $count), Call::Collect($mark)
            ),+],
        }
    };
}

static ROWS: &[Row] = &[
    batches!(REFERENCE, 2;
        2 => Mark::At(3), 3 => Mark::At(6), 0 => Mark::At(6), 4 => Mark::At(10), 2 => Mark::End),
    batches!(REFERENCE, 1; 11 => Mark::At(100), 0 => Mark::End),
    batches!(UNTIL_BETWEEN, 4096; 1 => Mark::At(2), 1 => Mark::At(3), 1 => Mark::End),
    batches!(WITHIN_SPAN, 7; 1 => Mark::At(10 * SECOND), 1 => Mark::End),
    batches!(BEYOND_SPAN, 7; 1 => Mark::At(10 * SECOND), 1 => Mark::End),
    batches!(TWO_STAGES, 1; 2 => Mark::At(3), 1 => Mark::At(4)),
];

/// The first row that isn't as it should be, from 0.
fn wrong_row(alloc: Global) -> Option<usize> {
    for (number, row) in ROWS.iter().enumerate() {
        if wrong_in(alloc, row).is_some() {
            return Some(number);
        }
    }
    None
}

#[test]
fn batches_find_what_the_whole_finds(rt: HostRuntime) {
    assert_eq!(rt; wrong_row(rt.alloc()), None);
}

/// A turn of an empty inbox is idle. A mark is done once its events were played. With a span of 10 nanoseconds a sequence
/// that began at 0 is alive at the mark of 10, and dropped at that of 11.
static MARKS: &Row = &Row {
    example: example!("marks", 2, Some(10); &[fits!(1, 0, ROOT, 1)] => &[]),
    calls: &[
        Call::Play(1, 0),
        Call::Deliver(1, Mark::At(5)),
        Call::Collect(Mark::Start),
        Call::Pending(&[]),
        Call::Play(1, 1),
        Call::Collect(Mark::At(5)),
        Call::Pending(&[found!(ROOT, &[1])]),
        Call::Deliver(0, Mark::At(10)),
        Call::Pending(&[found!(ROOT, &[1])]),
        Call::Deliver(0, Mark::At(11)),
        Call::Pending(&[]),
    ],
};

#[test]
fn marks_are_done_and_drop_the_dead(rt: HostRuntime) {
    assert_eq!(rt; wrong_in(rt.alloc(), MARKS), None);
}

/// The parts of some keys, by the same hash in Python.
static KEY_PARTS: &[(Name, u32)] = &[(ROOT, 8), (ELKBEE, 11), (NULL, 0), (SEVEN, 1), (EMPTY, 0)];

/// Whether a key has this part.
fn has_part(alloc: Global, name: Name, part: u32) -> bool {
    match key_of(alloc, name) {
        Some(key) => part_of(&key) == part,
        None => false,
    }
}

/// The first key that doesn't have its part, from 0.
fn wrong_part(alloc: Global) -> Option<usize> {
    for (number, (name, part)) in KEY_PARTS.iter().enumerate() {
        if !has_part(alloc, *name, *part) {
            return Some(number);
        }
    }
    None
}

#[test]
fn keys_have_their_parts(rt: HostRuntime) {
    assert_eq!(rt; wrong_part(rt.alloc()), None);
}

/// How many keys of 16,000 numbers have this part.
fn count_of(alloc: Global, part: u32) -> u32 {
    let mut count = 0u32;
    for number in 0..16_000 {
        if has_part(alloc, Name::Number(number), part) {
            count = count.saturating_add(1);
        }
    }
    count
}

/// The first count of the keys of a part that isn't about 1,000.
fn uneven_count(alloc: Global) -> Option<u32> {
    for part in 0..16 {
        let count = count_of(alloc, part);
        if count < 998 || 1_002 < count {
            return Some(count);
        }
    }
    None
}

/// The keys of numbers fall on the parts evenly.
#[test]
fn parts_have_as_many_keys(rt: HostRuntime) {
    assert_eq!(rt; uneven_count(rt.alloc()), None);
}
