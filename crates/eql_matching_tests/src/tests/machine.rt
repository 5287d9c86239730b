//! The machine of one key against the look-back: made-up lists of events go through both, and all that they find is
//! compared. The look-back finds matches by the definition, and the machine by its slots.
use crate::tests::auto::{Run, Told, pending_of};
use crate::tests::lookback::{EMPTY, Event, adds_event, look_back};
use eql_values::{Chain, Items, KeyEvent, Match, StageChains};
use std::alloc::Global;

/// Sequences of so many stages, of which there are so many sets, with this span in nanoseconds, and whether an event ends
/// the key.
struct Sequences {
    stages: u32,
    sets: u128,
    span: Option<i128>,
    until: bool,
}

/// Sequences of so many stages, of which there are so many sets, with and without an event that ends the key, and with and
/// without a span of as many nanoseconds.
macro_rules! sequences {
    ($($stages:expr => $sets:expr),+) => {
        &[$(
            Sequences { stages: $stages, sets: $sets, span: None, until: false },
            Sequences { stages: $stages, sets: $sets, span: Some($stages), until: false },
            Sequences { stages: $stages, sets: $sets, span: None, until: true },
            Sequences { stages: $stages, sets: $sets, span: Some($stages), until: true },
        )+]
    };
}

/// Sequences of one to four stages. Some chains exceed the span.
static SEQUENCES: &[Sequences] = sequences!(1 => 2, 2 => 4, 3 => 8, 4 => 16);

/// The event of a line: those of all stages begin and carry on what those of the sets `a` and `b` move and end.
fn event_of(sequences: &Sequences, a: u128, b: u128, line: u32) -> Event {
    Event {
        line,
        ts: i128::from(line),
        key: EMPTY,
        stages: match line {
            2 | 5 => a,
            3 => b,
            _ => sequences.sets.saturating_sub(1),
        },
        until: sequences.until && line == 3,
    }
}

/// Six events, or `None` where memory is short.
fn events_of(alloc: Global, sequences: &Sequences, a: u128, b: u128) -> Option<Items> {
    let mut items = Vec::new(alloc);
    for line in 1..7 {
        if !adds_event(alloc, &mut items, &event_of(sequences, a, b, line)) {
            return None;
        }
    }
    Some(Items::of(items))
}

/// What the events say to the machine of the one key, or `None` where memory is short.
fn key_events_of(alloc: Global, items: &Items) -> Option<Vec<KeyEvent>> {
    let mut key_events = Vec::new(alloc);
    for item in items.items() {
        if let Some(route) = item.routes.items().first()
            && key_events
                .push(KeyEvent {
                    order: item.order,
                    mask: route.mask,
                    until: route.until,
                })
                .is_err()
        {
            return None;
        }
    }
    Some(key_events)
}

/// Whether there is a match, and it has this chain and no value in its key.
fn is_match(chain: &Chain, found: Option<&Match>) -> bool {
    match found {
        Some(found) => found.key.items().is_empty() && found.chain.items() == chain.items(),
        None => false,
    }
}

/// Whether the chains that the machine returned are the matches.
fn are_chains(chains: &[Chain], matches: &[Match]) -> bool {
    for (at, chain) in chains.iter().enumerate() {
        if !is_match(chain, matches.get(at)) {
            return false;
        }
    }
    chains.len() == matches.len()
}

/// Adds the tags of the sequences that are pending. Returns whether there is memory for that.
fn adds_pending(tags: &mut Vec<u32>, pending: &StageChains) -> bool {
    for (_, chain) in pending.items() {
        if let Some(first) = chain.items().first()
            && tags.push(first.line).is_err()
        {
            return false;
        }
    }
    true
}

/// Whether each tag that was given is that of a sequence that ceased or is pending, and no other one is.
fn are_tags_found(told: &mut Told, pending: &StageChains) -> bool {
    if !adds_pending(&mut told.ceased, pending) {
        return false;
    }
    told.ceased.sort_unstable();
    told.ceased.as_slice() == told.given.as_slice()
}

/// Whether the machine finds these matches by a run, and each tag that it was given ceased or is pending.
fn is_found(alloc: Global, run: &Run, matches: &[Match]) -> bool {
    let mut told = Told::nothing(alloc);
    match pending_of(alloc, run, &mut told) {
        Some(pending) => {
            are_chains(&told.matches, matches) && are_tags_found(&mut told, &pending)
        }
        None => false,
    }
}

/// What the machine plays where these are the events, or `None` where memory is short.
fn run_of(alloc: Global, sequences: &Sequences, items: &Items) -> Option<Run> {
    match key_events_of(alloc, items) {
        Some(key_events) => Some(Run {
            stages: sequences.stages,
            span: sequences.span,
            key_events,
            reaches: &[],
        }),
        None => None,
    }
}

/// Whether the machine finds what the look-back finds by the events.
fn finds_alike(alloc: Global, sequences: &Sequences, items: &Items) -> bool {
    match (
        look_back(alloc, sequences.stages, sequences.span, items),
        run_of(alloc, sequences, items),
    ) {
        (Some(matches), Some(run)) => is_found(alloc, &run, matches.items()),
        _ => false,
    }
}

/// Whether both find the same by the events of two sets of stages.
fn is_alike(alloc: Global, sequences: &Sequences, a: u128, b: u128) -> bool {
    match events_of(alloc, sequences, a, b) {
        Some(items) => finds_alike(alloc, sequences, &items),
        None => false,
    }
}

/// The first set `b` with which they don't find the same.
fn unlike_with(alloc: Global, sequences: &Sequences, a: u128) -> Option<u128> {
    for b in 0..sequences.sets {
        if !is_alike(alloc, sequences, a, b) {
            return Some(b);
        }
    }
    None
}

/// The first two sets with which they don't find the same.
fn unlike_sets(alloc: Global, sequences: &Sequences) -> Option<(u128, u128)> {
    for a in 0..sequences.sets {
        if let Some(b) = unlike_with(alloc, sequences, a) {
            return Some((a, b));
        }
    }
    None
}

/// The number of stages, and the first two sets of them, where they don't find the same.
fn unlike(alloc: Global) -> Option<(u32, u128, u128)> {
    for sequences in SEQUENCES {
        if let Some((a, b)) = unlike_sets(alloc, sequences) {
            return Some((sequences.stages, a, b));
        }
    }
    None
}

#[test]
fn the_machine_finds_what_the_look_back_finds(rt: HostRuntime) {
    assert_eq!(rt; unlike(rt.alloc()), None);
}
