//! Shared values: how texts are shown, the test of a span, copies, and equality of mappings.
use crate::tests::table::{Asked, field, is_bool, see, see_true};
use eql_digest::Digest;
use eql_values::{
    BookCut, Chain, Counts, Holder, Holders, Item, ItemLists, Items, Key, Kind, LaneCut, LaneCuts,
    Mask, Match, Memory, NameKinds, Numbered, Numbereds, OrderKey, PipeState, PipeStates, Route,
    Routes, Text, Value, is_in_time, push_shown,
};
use std::alloc::Global;

/// Texts, each with how it is shown, behind a word that a line holds already. `␊` stands for a line feed in a text.
static SHOWN: &str = "
 => name=
process.name => name=process.name
a \"b\" \\ `c` => name=a \"b\" \\ `c`
gr\u{fc}n \u{20ac} \u{1f600} => name=gr\u{fc}n \u{20ac} \u{1f600}
a␊b\rc\td => name=a\\nb\\rc\\td
\u{0}\u{1b}\u{7f}\u{80}\u{9f}\u{a0} => name=\\u{00}\\u{1b}\\u{7f}\\u{80}\\u{9f}\u{a0}
\u{2028}\u{2029}\u{202f} => name=\\u{2028}\\u{2029}\u{202f}
\u{200d}\u{200e}\u{200f}\u{202a}\u{202e}\u{2066}\u{2069}\u{206a} => name=\u{200d}\\u{200e}\\u{200f}\\u{202a}\\u{202e}\\u{2066}\\u{2069}\u{206a}
";

/// Adds how a text is shown to a line.
fn show(alloc: Global, line: &mut String, row: &str) -> Result<(), Memory> {
    let text = row.replace(alloc, '␊', "\n")?;
    let is_done = push_shown(line, text.as_str());
    drop(text);
    is_done
}

/// Whether a text is shown as it should be, behind a word.
pub fn is_shown(alloc: Global, row: &str, wanted: &str) -> Result<bool, Memory> {
    let mut line = String::from_str(alloc, "name=")?;
    let is_done = show(alloc, &mut line, row);
    let is_right = line.as_str() == wanted;
    drop(line);
    is_done?;
    Ok(is_right)
}

#[test]
fn texts_are_shown(rt: HostRuntime) {
    see(&rt, rt.alloc(), &Asked::Shown, SHOWN);
}

/// The event at this line and time, in nanoseconds since the epoch.
fn event(line: u32, ts: i128) -> OrderKey {
    OrderKey {
        ts,
        tie: Some(-1),
        shard: 3,
        line,
        at: 77,
    }
}

/// A span, the time of the first event, if there is one, and of the last one, and whether the span holds both.
static SPANS: &str = "
10|100|110 => true
10|100|111 => false
0|100|100 => true
0|100|99 => true
none|0|170141183460469231731687303715884105727 => true
170141183460469231731687303715884105727|-170141183460469231731687303715884105728|170141183460469231731687303715884105727 => false
-170141183460469231731687303715884105728|170141183460469231731687303715884105727|-170141183460469231731687303715884105728 => true
0|none|1 => true
";

/// The time or span that a field writes.
fn time_at(row: &str, at: usize) -> Option<i128> {
    field(row, at).parse::<i128>().ok()
}

/// Whether a time is within a span from two events on, the first one at a time.
fn is_in_span(span: Option<i128>, first: i128, now: i128) -> bool {
    is_in_time(span, &[event(1, first), event(2, i128::MAX)], now)
}

/// Whether the span of a row holds both events as it should.
pub fn is_span(row: &str, wanted: &str) -> bool {
    let (span, now) = (time_at(row, 0), time_at(row, 2).unwrap_or(0));
    match time_at(row, 1) {
        Some(first) => is_bool(is_in_span(span, first, now), wanted),
        None => is_bool(is_in_time(span, &[], now), wanted),
    }
}

#[test]
fn spans_are_inclusive(rt: HostRuntime) {
    see(&rt, rt.alloc(), &Asked::Span, SPANS);
}

/// A key of a text and a number.
fn key(alloc: Global, text: &str) -> Result<Key, Memory> {
    let text = Value::Text(Text::copy_of(alloc, text)?);
    Ok(Key::of(vec![in alloc; text, Value::Long(-7)]?))
}

/// Whether a key is that of a text and a number.
fn is_key(alloc: Global, got: &Key, text: &str) -> Result<bool, Memory> {
    let key = key(alloc, text)?;
    let is_same = *got == key;
    drop(key);
    Ok(is_same)
}

/// An event of a pending sequence or a match.
fn chain(alloc: Global, line: u32, ts: i128) -> Result<Chain, Memory> {
    Ok(Chain::of(vec![in alloc; event(line, ts)]?))
}

/// Whether a chain has one event, this one.
fn is_chain(chain: &Chain, line: u32, ts: i128) -> bool {
    match chain.items() {
        [one] => *one == event(line, ts),
        _ => false,
    }
}

/// A pending sequence at a stage, under a name.
fn holder(alloc: Global, name: &str) -> Result<Holder, Memory> {
    let key = key(alloc, name)?;
    Ok(Holder {
        chain: chain(alloc, 1, 5)?,
        key,
        stage: 1,
    })
}

/// Pending sequences at a stage, one for each key.
fn holders(alloc: Global) -> Result<Holders, Memory> {
    let mut holders = Vec::new(alloc);
    for name in NAMES {
        holders.push(holder(alloc, *name)?)?;
    }
    Ok(Holders::of(holders))
}

/// The names in the keys of pending sequences.
static NAMES: &[&str] = &["elkbee", "root"];

/// Whether a pending sequence is one of those at stage 1, under this name.
fn is_holder(alloc: Global, holder: &Holder, name: &str) -> Result<bool, Memory> {
    Ok(holder.stage == 1 && is_chain(&holder.chain, 1, 5) && is_key(alloc, &holder.key, name)?)
}

/// Whether there are as many pending sequences as there should be, under their names.
fn are_holders(alloc: Global, holders: &Holders) -> Result<bool, Memory> {
    match holders.items().as_slice() {
        [first, second] => {
            Ok(is_holder(alloc, first, "elkbee")? && is_holder(alloc, second, "root")?)
        }
        _ => Ok(false),
    }
}

/// Whether a copy of what is made is as it should be. What was made is dropped before.
macro_rules! is_copied {
    ($made:expr, $copy:ident => $is:expr) => {{
        let made = $made;
        let cloned: Result<_, _> = made.clone();
        drop(made);
        let $copy = cloned?;
        let is_right = $is;
        drop($copy);
        is_right
    }};
}

/// Whether a copy of pending sequences is as it was made.
fn are_holders_copied(alloc: Global) -> Result<bool, Memory> {
    is_copied!(holders(alloc)?, copy => are_holders(alloc, &copy))
}

#[test]
fn pending_sequences_are_copied(rt: HostRuntime) {
    see_true(&rt, are_holders_copied(rt.alloc()));
}

/// An event with one route.
fn item(alloc: Global) -> Result<Item, Memory> {
    let route = Route {
        key: key(alloc, "root")?,
        mask: Mask { low: 1, high: 2 },
        until: true,
    };
    Ok(Item {
        order: event(9, -4),
        routes: Routes::of(vec![in alloc; route]?),
    })
}

/// Whether a route is as it was made.
fn is_route(alloc: Global, route: &Route) -> Result<bool, Memory> {
    let is_masked = route.mask == Mask { low: 1, high: 2 } && route.until;
    Ok(is_masked && is_key(alloc, &route.key, "root")?)
}

/// Whether an event is that with one route.
fn is_item(alloc: Global, item: &Item) -> Result<bool, Memory> {
    match item.routes.items().as_slice() {
        [route] => Ok(item.order == event(9, -4) && is_route(alloc, route)?),
        _ => Ok(false),
    }
}

/// One event.
fn items(alloc: Global) -> Result<Items, Memory> {
    Ok(Items::of(vec![in alloc; item(alloc)?]?))
}

/// The counts of a shard.
const COUNTS: Counts = Counts {
    lines: 5,
    accepted: 1,
    late: 2,
    rejected: 1,
    first: None,
};

/// A digest of some bytes.
const DIGEST: Digest = Digest {
    lanes: [1, 2, 3, 4, 5, 6, 7, 8],
    word: 9,
    length: 120,
};

/// What a cut keeps of one shard with one event.
fn lanes(alloc: Global) -> Result<LaneCuts, Memory> {
    let lane = LaneCut {
        items: items(alloc)?,
        offset: 120,
        digest: DIGEST,
        closed: true,
        best: Some(-4),
        counts: COUNTS,
    };
    Ok(LaneCuts::of(vec![in alloc; lane]?))
}

/// Whether what is kept of a shard is as it was made, but for its events.
fn is_read(lane: &LaneCut) -> bool {
    lane.offset == 120
        && lane.digest == DIGEST
        && lane.closed
        && lane.best == Some(-4)
        && lane.counts == COUNTS
}

/// Whether what is kept of a shard is as it was made.
fn is_lane(alloc: Global, lane: &LaneCut) -> Result<bool, Memory> {
    match lane.items.items().as_slice() {
        [item] => Ok(is_read(lane) && is_item(alloc, item)?),
        _ => Ok(false),
    }
}

/// Whether what is kept is that of one shard, as it was made.
fn is_one_lane(alloc: Global, lanes: &LaneCuts) -> Result<bool, Memory> {
    match lanes.items().as_slice() {
        [lane] => is_lane(alloc, lane),
        _ => Ok(false),
    }
}

/// Whether a copy of what is kept of one shard is as it was made.
fn is_lane_copied(alloc: Global) -> Result<bool, Memory> {
    is_copied!(lanes(alloc)?, copy => is_one_lane(alloc, &copy))
}

#[test]
fn shards_are_copied(rt: HostRuntime) {
    see_true(&rt, is_lane_copied(rt.alloc()));
}

/// A list of events.
fn lists(alloc: Global) -> Result<ItemLists, Memory> {
    Ok(ItemLists::of(vec![in alloc; items(alloc)?]?))
}

/// Whether a copy has as many lists as it should.
fn is_list_copied(alloc: Global) -> Result<bool, Memory> {
    Ok(is_copied!(lists(alloc)?, copy => copy.items().len() == 1))
}

#[test]
fn lists_are_copied(rt: HostRuntime) {
    see_true(&rt, is_list_copied(rt.alloc()));
}

/// A match of one event, that is kept under a number.
fn numbered(alloc: Global) -> Result<Numbered, Memory> {
    let key = key(alloc, "root")?;
    let chain = chain(alloc, 2, 6)?;
    let found = Match { key, chain };
    Ok(Numbered { number: 8, found })
}

/// Two pipes, of which one holds back a match.
fn pipes(alloc: Global) -> Result<PipeStates, Memory> {
    let kept = Numbereds::of(vec![in alloc; numbered(alloc)?]?);
    let states = vec![in alloc; PipeState::Head { passed: 3 }, PipeState::Tail { kept }]?;
    Ok(PipeStates::of(states))
}

/// What a cut keeps of the output.
fn book(alloc: Global) -> Result<BookCut, Memory> {
    Ok(BookCut {
        pipes: pipes(alloc)?,
        found: 9,
        listed: 2,
    })
}

/// Whether one match of one event is kept, under its number.
fn is_kept(kept: &Numbereds) -> bool {
    match kept.items().as_slice() {
        [one] => one.number == 8 && one.found.chain.items().len() == 1,
        _ => false,
    }
}

/// Whether pipes are as they were made.
fn are_pipes(pipes: &PipeStates) -> bool {
    match pipes.items().as_slice() {
        [PipeState::Head { passed }, PipeState::Tail { kept }] => *passed == 3 && is_kept(kept),
        _ => false,
    }
}

/// Whether a copy of what a cut keeps of the output is as it was made.
fn is_book_copied(alloc: Global) -> Result<bool, Memory> {
    Ok(
        is_copied!(book(alloc)?, copy => copy.found == 9 && copy.listed == 2 && are_pipes(&copy.pipes)),
    )
}

#[test]
fn books_are_copied(rt: HostRuntime) {
    see_true(&rt, is_book_copied(rt.alloc()));
}

/// The kind that a word names.
fn kind(word: &str) -> Kind {
    match word {
        "Long" => Kind::Long,
        "Ip" => Kind::Ip,
        _ => Kind::Text,
    }
}

/// The name with a kind that a field writes.
fn named_kind(alloc: Global, field: &str) -> Result<(Text, Kind), Memory> {
    let (name, word) = field.split_once(' ').unwrap_or((field, ""));
    Ok((Text::copy_of(alloc, name)?, kind(word)))
}

/// The mapping that a row writes.
fn mapping(alloc: Global, row: &str) -> Result<NameKinds, Memory> {
    let mut pairs = Vec::new(alloc);
    for field in row.split('|') {
        pairs.push(named_kind(alloc, field)?)?;
    }
    Ok(NameKinds::of(pairs))
}

/// Mappings, and whether each is that of `a` to `long` and of `b` to `ip`.
static MAPPINGS: &str = "
a Long|b Ip => true
a Long|b Text => false
a Long|c Ip => false
a Long => false
";

/// Whether a mapping equals its own copy.
fn is_own_copy(one: &NameKinds) -> Result<bool, Memory> {
    let copy = one.clone()?;
    let is_same = *one == copy;
    drop(copy);
    Ok(is_same)
}

/// Whether a mapping equals that of the first row, or doesn't, as it should, and equals its own copy.
pub fn is_compared(alloc: Global, row: &str, wanted: &str) -> Result<bool, Memory> {
    let first = mapping(alloc, "a Long|b Ip")?;
    let one = mapping(alloc, row)?;
    let is_same = one == first;
    drop(first);
    let is_own_copy = is_own_copy(&one);
    drop(one);
    Ok(is_bool(is_same, wanted) && is_own_copy?)
}

#[test]
fn mappings_are_compared(rt: HostRuntime) {
    see(&rt, rt.alloc(), &Asked::Mapping, MAPPINGS);
}
