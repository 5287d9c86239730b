//! The text of a cut, by bytes that were written by hand.
use crate::tests::bytes::{PARTS, Spread, closed, push_hex, spread_of, text_in};
use eql_cut::{Cut, CutRefused, decode, encode};
use eql_digest::Digest;
use eql_values::{
    FirstBad, Holder, Kind, LaneCut, OrderKey, PipeState, Reason, Route, Text, Value,
};
use std::alloc::{AllocError, Global};

/// A place in the order, which is 0 in the first format.
fn place(format: u8, ts: i128, tie: Option<i64>, shard: u32, line: u32, at: u64) -> OrderKey {
    OrderKey {
        ts,
        tie,
        shard,
        line,
        at: if format == 1 { 0 } else { at },
    }
}

/// Whether the names of the mapping and their kinds are those of the text.
fn is_mapping(cut: &Cut) -> bool {
    match cut.head.mapping.items().as_slice() {
        [
            (a, Kind::Text),
            (b, Kind::Bool),
            (ip, Kind::Ip),
            (n, Kind::Long),
        ] => { a.text() == "a" && b.text() == "b" && ip.text() == "ip" && n.text() == "n" }
        _ => false,
    }
}

/// Whether what the cut says of its run is that of the text.
fn is_head(cut: &Cut) -> bool {
    let head = &cut.head;
    let is_tie = match &head.tie {
        Some(tie) => tie.text() == "t",
        None => false,
    };
    head.query.text() == "q"
        && is_mapping(cut)
        && is_tie
        && head.slack == 5
        && head.shards == 2
        && cut.mark == 1000
}

/// Whether the key has this one value.
fn is_key(values: &[Value], expected: &Value) -> bool {
    match values {
        [value] => value == expected,
        _ => false,
    }
}

/// Whether the route is of this key, with these stages and this end.
fn is_route(route: &Route, key: &Value, low: u128, high: u128, until: bool) -> bool {
    is_key(route.key.items(), key)
        && route.mask.low == low
        && route.mask.high == high
        && route.until == until
}

/// Whether the events of the first lane are those of the text.
fn are_events(lane: &LaneCut, format: u8, text: &Value) -> bool {
    let top = if format >= 3 { 1 << 127 } else { 0 };
    match lane.items.items().as_slice() {
        [first, second] => {
            let by_first = match first.routes.items().as_slice() {
                [route] => is_route(route, &Value::Null, 1, top, false),
                _ => false,
            };
            let by_second = match second.routes.items().as_slice() {
                [ends, fits] => {
                    is_route(ends, &Value::Bool(true), 0, 0, true)
                        && is_route(fits, text, 3, 0, false)
                }
                _ => false,
            };
            first.order == place(format, 1000, Some(-2), 0, 4, 100)
                && second.order == place(format, 1000, None, 0, 5, 150)
                && by_first
                && by_second
        }
        _ => false,
    }
}

/// The digest of the lane with this first number of its own, which is that of no bytes before format 4.
fn digest(format: u8, first: u64, word: u64, length: u64) -> Digest {
    if format < 4 {
        return Digest::new();
    }
    let mut lanes = [first; 8];
    for i in 0..8 {
        lanes[i] = first.wrapping_add(i as u64);
    }
    Digest {
        lanes,
        word,
        length,
    }
}

/// Whether the digests of the lanes are those of the text.
fn are_digests(open: &LaneCut, closed: &LaneCut, format: u8) -> bool {
    open.digest == digest(format, 0x0102_0304_0506_0701, 0x9988_7766, 300)
        && closed.digest == digest(format, 0xffff_ffff_ffff_fff0, 0, 77)
}

/// Whether the lanes are those of the text.
fn are_lanes(cut: &Cut, format: u8, text: &Value) -> bool {
    let bad = FirstBad {
        line: 3,
        reason: Reason::BadTime,
    };
    match cut.lanes.items().as_slice() {
        [open, closed] => {
            let counts = open.counts;
            open.offset == 300
                && !open.closed
                && open.best == Some(1200)
                && (counts.lines, counts.accepted, counts.late, counts.rejected) == (9, 4, 1, 2)
                && counts.first == Some(bad)
                && are_digests(open, closed, format)
                && are_events(open, format, text)
                && closed.offset == 77
                && closed.closed
                && closed.best == None
                && closed.counts.lines == 0
                && closed.counts.first == None
                && closed.items.items().is_empty()
        }
        _ => false,
    }
}

/// Whether the pending sequence is of the address at this stage, with these events.
fn is_holder(holder: &Holder, stage: u32, events: &[OrderKey]) -> bool {
    is_key(holder.key.items(), &Value::Ip(0x0a00_0001))
        && holder.stage == stage
        && holder.chain.items() == events
}

/// Whether the pending sequences are those of the text.
fn are_holders(cut: &Cut, f: u8) -> bool {
    match cut.holders.items().as_slice() {
        [one, two] => {
            is_holder(one, 1, &[place(f, 900, None, 1, 2, 40)])
                && is_holder(
                    two,
                    2,
                    &[
                        place(f, 800, Some(7), 0, 1, 0),
                        place(f, 900, None, 0, 2, 50),
                    ],
                )
        }
        _ => false,
    }
}

/// Whether what is kept of the output is that of the text.
fn is_book(cut: &Cut, format: u8) -> bool {
    let book = &cut.book;
    let are_states = match book.pipes.items().as_slice() {
        [PipeState::Head { passed: 6 }, PipeState::Tail { kept }] => match kept.items().as_slice() {
            [five, six] => {
                five.number == 5
                    && is_key(five.found.key.items(), &Value::Long(-1))
                    && five.found.chain.items() == [place(format, 700, None, 1, 1, 0)].as_slice()
                    && six.number == 6
                    && six.found.key.items().is_empty()
                    && six.found.chain.items().is_empty()
            }
            _ => false,
        },
        _ => false,
    };
    book.found == 6 && book.listed == 0 && are_states
}

/// Whether the cut is that of the text.
fn is_cut(cut: &Cut, format: u8, text: &Value) -> bool {
    is_head(cut) && are_lanes(cut, format, text) && are_holders(cut, format) && is_book(cut, format)
}

/// Whether bytes are read as the cut in a format.
fn is_cut_in(alloc: Global, bytes: &[u8], format: u8, text: &Value) -> bool {
    match decode(alloc, bytes) {
        Ok(read) => read.format == format && is_cut(&read.cut, format, text),
        Err(_) => false,
    }
}

/// Whether the text of a format is read as its cut.
fn is_read(alloc: Global, format: u8) -> Result<bool, AllocError> {
    let bytes = text_in(alloc, PARTS, format)?;
    let text = Value::Text(Text::of(String::from_str(alloc, "\u{e9}")?));
    Ok(is_cut_in(alloc, &bytes, format, &text))
}

/// Whether the texts of all formats are read.
fn are_read(alloc: Global) -> Result<bool, AllocError> {
    Ok(is_read(alloc, 1)? && is_read(alloc, 2)? && is_read(alloc, 3)? && is_read(alloc, 4)?)
}

#[test]
fn texts_of_each_format_are_read(rt: HostRuntime) {
    assert!(rt; are_read(rt.alloc()) == Ok(true));
}

/// Whether a text is read in its format, and written in format 4 with these bytes before its checksum. None where it's refused
/// at one of its bytes.
fn is_written_as(alloc: Global, text: &[u8], format: u8, fourth: &[u8]) -> Option<bool> {
    match decode(alloc, text) {
        Ok(read) => match encode(alloc, &read.cut) {
            Ok(written) => {
                let is_closed = written.len().saturating_sub(8) == fourth.len();
                Some(read.format == format && is_closed && written.starts_with(fourth))
            }
            Err(_) => Some(false),
        },
        Err(CutRefused::Damaged { at }) if at <= text.len() as u64 => None,
        Err(_) => Some(false),
    }
}

/// Whether the text of these bytes is written in format 4 with just those. None where it's refused.
fn is_written(alloc: Global, spread: &Spread, format: u8) -> Result<Option<bool>, AllocError> {
    let text = closed(alloc, &spread.own, format)?;
    Ok(is_written_as(alloc, &text, format, &spread.fourth))
}

/// Whether the text of a format is written so.
fn is_whole_written(alloc: Global, format: u8) -> Result<bool, AllocError> {
    let spread = spread_of(alloc, PARTS, format)?;
    Ok(is_written(alloc, &spread, format)? == Some(true))
}

/// Whether the texts of all formats are written so.
fn are_written(alloc: Global) -> Result<bool, AllocError> {
    Ok(
        is_whole_written(alloc, 1)?
            && is_whole_written(alloc, 2)?
            && is_whole_written(alloc, 3)?
            && is_whole_written(alloc, 4)?,
    )
}

#[test]
fn texts_are_written_in_format_4(rt: HostRuntime) {
    assert!(rt; are_written(rt.alloc()) == Ok(true));
}

/// What stands in place of a byte, one after the other: each of its bits is turned round, and then 0, 1, 2 and 255.
fn other_than(whole: u8, way: u8) -> u8 {
    match way {
        0..=7 => whole ^ 1 << way,
        8..=10 => way - 8,
        _ => 255,
    }
}

/// Whether each such byte at a place is refused, or written in format 4 at just that place.
fn byte_counts(
    alloc: Global,
    spread: &mut Spread,
    at: usize,
    whole: u8,
    format: u8,
) -> Result<bool, AllocError> {
    let mut counts = true;
    for way in 0..12u8 {
        spread.set(at, other_than(whole, way));
        counts = counts && is_written(alloc, spread, format)? != Some(false);
    }
    spread.set(at, whole);
    Ok(counts)
}

/// Whether each text that differs in one byte from that of the format, and in its checksum, is refused, or is written in
/// format 4 with just that byte.
fn every_byte_counts(alloc: Global, format: u8) -> Result<bool, AllocError> {
    let mut spread = spread_of(alloc, PARTS, format)?;
    let mut count = true;
    for at in 0..spread.own.len() {
        if let Some(whole) = spread.own.get(at).copied() {
            count = count && byte_counts(alloc, &mut spread, at, whole, format)?;
        }
    }
    Ok(count)
}

#[test]
fn every_byte_of_format_1_counts(rt: HostRuntime) {
    assert!(rt; every_byte_counts(rt.alloc(), 1) == Ok(true));
}

#[test]
fn every_byte_of_format_2_counts(rt: HostRuntime) {
    assert!(rt; every_byte_counts(rt.alloc(), 2) == Ok(true));
}

#[test]
fn every_byte_of_format_3_counts(rt: HostRuntime) {
    assert!(rt; every_byte_counts(rt.alloc(), 3) == Ok(true));
}

#[test]
fn every_byte_of_format_4_counts(rt: HostRuntime) {
    assert!(rt; every_byte_counts(rt.alloc(), 4) == Ok(true));
}

/// Whether a text is damaged with each bit of one byte turned round.
fn are_bits_damage(alloc: Global, text: &mut [u8], at: usize) -> bool {
    let mut damaged = true;
    for bit in 0..8u32 {
        if let Some(byte) = text.get_mut(at) {
            *byte ^= 1 << bit;
        }
        damaged = damaged && damage(alloc, text).is_some();
        if let Some(byte) = text.get_mut(at) {
            *byte ^= 1 << bit;
        }
    }
    damaged
}

/// Whether the text of format 4 is damaged with any bit turned round.
fn is_each_bit_damage(alloc: Global) -> Result<bool, AllocError> {
    let mut text = text_in(alloc, PARTS, 4)?;
    let mut damaged = true;
    for at in 0..text.len() {
        damaged = damaged && are_bits_damage(alloc, &mut text, at);
    }
    Ok(damaged)
}

#[test]
fn each_bit_of_format_4_is_told(rt: HostRuntime) {
    assert!(rt; is_each_bit_damage(rt.alloc()) == Ok(true));
}

/// The last eight bytes of the text in format 4: the rest of one long division that was worked out apart from the program.
const CLOSING: &str = "b8ad07031f1dff70";

/// Whether the text of format 4 has these bytes at its end.
fn is_closed(alloc: Global) -> Result<bool, AllocError> {
    let text = text_in(alloc, PARTS, 4)?;
    let mut closing = Vec::new(alloc);
    push_hex(&mut closing, CLOSING.as_bytes())?;
    Ok(text.ends_with(&closing))
}

#[test]
fn a_text_is_closed_by_its_checksum(rt: HostRuntime) {
    assert!(rt; is_closed(rt.alloc()) == Ok(true));
}

/// The place at which bytes are damaged; none where they aren't.
fn damage(alloc: Global, bytes: &[u8]) -> Option<u64> {
    match decode(alloc, bytes) {
        Err(CutRefused::Damaged { at }) => Some(at),
        _ => None,
    }
}

/// Whether bytes are damaged where any of them are cut off at their end.
fn are_fronts_damaged(alloc: Global, bytes: &[u8]) -> bool {
    for end in 0..bytes.len() {
        if damage(alloc, &bytes[..end]).is_none() {
            return false;
        }
    }
    true
}

/// Whether the text of a format is damaged with its end cut off, and with a byte behind it.
fn is_whole(alloc: Global, format: u8) -> Result<bool, AllocError> {
    let mut bytes = text_in(alloc, PARTS, format)?;
    let is_front_damaged = are_fronts_damaged(alloc, &bytes);
    bytes.push(0)?;
    Ok(is_front_damaged && damage(alloc, &bytes).is_some())
}

/// Whether the texts of all formats are whole.
fn are_whole(alloc: Global) -> Result<bool, AllocError> {
    Ok(is_whole(alloc, 1)? && is_whole(alloc, 2)? && is_whole(alloc, 3)? && is_whole(alloc, 4)?)
}

#[test]
fn nothing_may_be_cut_off_or_follow(rt: HostRuntime) {
    assert!(rt; are_whole(rt.alloc()) == Ok(true));
}

/// Bytes that are refused, each with the number of bytes before what can't be read.
static REFUSED: &[(&str, u64)] = &[
    ("", 0),
    ("00", 0),
    ("45514c43", 4),
    ("45514c43 05", 4),
    ("45514c43 00", 4),
    // A text, and then a list, with a length above the number of bytes that are there.
    ("45514c43 03 ffffffffffffffff 71", 5),
    ("45514c43 03 0100000000000000 71 ffffffffffffffff", 22),
    ("45514c43 04 0100000000000000 71 ffffffffffffffff", 22),
];

/// The place at which bytes in hexadecimal are damaged.
fn damage_of(alloc: Global, hex: &str) -> Result<Option<u64>, AllocError> {
    let mut bytes = Vec::new(alloc);
    push_hex(&mut bytes, hex.as_bytes())?;
    Ok(damage(alloc, &bytes))
}

#[test]
fn refusals_tell_their_places(rt: HostRuntime) {
    for &(hex, expected) in REFUSED {
        assert!(rt; damage_of(rt.alloc(), hex) == Ok(Some(expected)), "{hex}");
    }
}
