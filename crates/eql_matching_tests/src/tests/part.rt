//! The pending sequences of all keys on worked examples. Each event is a line of one shard.
ghost use Rattle.std.specs.Prelude.{◌≡◌, ◌<◌, ◌≤◌, [], All, IfOk, IsTrue};
ghost use Rattle.std.specs.declared.cmp.Ordering.TheVariants.{Less};
ghost use Rattle.eql_values.specs.OrderKeys.{order_cmp};
ghost use Rattle.eql_auto.specs.Machine.{AllAreBefore};
ghost use Rattle.eql_laws.specs.Shapes.{HasStageBefore, IsFull};
ghost use Rattle.eql_part.specs.KeyTables.{ComesAfterAll};

use crate::tests::lookback::{Event, Found, are_matches, are_pending, ends, fits, found, item_of};
use eql_auto::Steps;
use eql_part::Keys;
use eql_values::{Holder, Holders, Item, OrderKey};
use std::alloc::Global;
use std::marker::Brand;
use std::sync::ledger::{Blank, Ledger};

/// Whether one event comes before another one.
fn is_before(event: &OrderKey, order: &OrderKey) -> bool
    ensures { IsTrue result → order_cmp event.now order.now ≡ Less }
{
    event < order
}

/// Whether the event comes after all of these.
fn is_after(order: &OrderKey, events: &[OrderKey]) -> bool
    ensures { IsTrue result → AllAreBefore order.now events.now }
{
    events.iter().all(|event| is_before(event, order))
}

/// Whether the event comes after all events of these sequences.
fn is_after_all(order: &OrderKey, holders: &Vec<Holder>) -> bool
    ensures { IsTrue result → ComesAfterAll order.now holders.now.items }
{
    for holder in holders {
        if !is_after(order, holder.chain.items()) {
            return false;
        }
    }
    true
}

/// Whether there is one sequence alone, with a stage before the last and an event for each stage up to its own.
fn is_lone(holders: &Holders, stages: u32) -> bool
    ensures stage { IsTrue result → All (HasStageBefore stages) holders.now }
    ensures full { IsTrue result → All IsFull holders.now }
{
    match holders.items().as_slice() {
        [holder] => {
            1 <= holder.stage
                && holder.stage < stages
                && holder.chain.items().len() == holder.stage as usize
        }
        _ => false,
    }
}

/// Whether the event comes after all that is pending.
fn is_later<L: Ledger>(keys: &Keys<L>, item: &Item) -> bool
    ensures { IsTrue result → ComesAfterAll item.now.order keys.now.holders }
{
    match keys.holders() {
        Ok(held) => is_after_all(&item.order, held.items()),
        Err(_) => false,
    }
}

/// Whether these sequences are pending, where any are given.
fn holds<L: Ledger>(alloc: Global, keys: &Keys<L>, expected: Option<&[Found]>) -> bool {
    match expected {
        Some(expected) => match keys.holders() {
            Ok(held) => are_pending(alloc, held.items(), expected),
            Err(_) => false,
        },
        None => true,
    }
}

/// What is done to the pending sequences.
#[derive(Clone, Copy)]
enum Act {
    /// They are only looked at.
    Look,
    /// There are so many machines.
    Machines(usize),
    /// An event is played.
    Play(Event),
    /// What is too old at this time, in nanoseconds, is dropped.
    Sweep(i128),
    /// The one that is left of three stages is given to another part.
    Move,
}

/// What is done, the matches that it completes, and what is pending behind it, where that is looked at.
struct Played {
    act: Act,
    matched: &'static [Found],
    pending: Option<&'static [Found]>,
}

/// Something is done that completes no match, where nothing else is said.
macro_rules! acted {
    ($act:expr $(, $field:ident: $value:expr)* $(,)?) => {
        Played {
            act: $act,
            $($field: $value,)*
            ..NOTHING
        }
    };
}

/// An event that completes no match where nothing else is said.
macro_rules! played {
    ($event:expr $(, $field:ident: $value:expr)* $(,)?) => {
        acted!(Act::Play($event) $(, $field: $value)*)
    };
}

/// A sweep at a time, and what is pending behind it.
macro_rules! swept {
    ($time:expr, $pending:expr) => {
        acted!(Act::Sweep($time), pending: Some($pending))
    };
}

/// What is pending as it is.
macro_rules! seen {
    ($pending:expr) => {
        acted!(Act::Look, pending: Some($pending))
    };
}

/// Nothing of note.
const NOTHING: Played = Played {
    act: Act::Look,
    matched: &[],
    pending: None,
};

/// Plays an event. Returns whether it comes after all that is pending, and completes these matches.
fn completes<L: Ledger>(
    alloc: Global,
    keys: &mut Keys<L>,
    item: &Item,
    matched: &[Found],
    steps: &mut Steps<L>,
) -> bool {
    if !is_later(keys, item) {
        return false;
    }
    match keys.take(item, steps) {
        Ok(found) => are_matches(alloc, found.items(), matched),
        Err(_) => false,
    }
}

/// Gives the one pending sequence of three stages to another part, in the place of this one. Returns whether there is one.
fn moves<L: Ledger>(alloc: Global, keys: &mut Keys<L>) -> bool {
    let Ok(held) = keys.holders() else {
        return false;
    };
    if !is_lone(&held, 3) {
        return false;
    }
    match Keys::new(alloc, 3, None, held) {
        Ok(other) => {
            *keys = other;
            true
        }
        Err(_) => false,
    }
}

/// Does what a row says. Returns whether it can be done, and its matches are as they should be.
fn is_done<L: Ledger>(
    alloc: Global,
    keys: &mut Keys<L>,
    row: &Played,
    steps: &mut Steps<L>,
) -> bool {
    match &row.act {
        Act::Look => true,
        Act::Machines(count) => keys.machines() == *count,
        Act::Play(event) => match item_of(alloc, event) {
            Some(item) => completes(alloc, keys, &item, row.matched, steps),
            None => false,
        },
        Act::Sweep(time) => {
            keys.sweep(*time, steps);
            true
        }
        Act::Move => moves(alloc, keys),
    }
}

/// The first of some rows in turn whose matches, or what is pending behind it, aren't as they should be, from 0.
fn wrong_row<L: Ledger>(
    alloc: Global,
    keys: &mut Keys<L>,
    rows: &[Played],
    steps: &mut Steps<L>,
) -> Option<usize> {
    for (number, row) in rows.iter().enumerate() {
        if !is_done(alloc, keys, row, steps) || !holds(alloc, keys, row.pending) {
            return Some(number);
        }
    }
    None
}

/// The first of some rows, for sequences of so many stages with this span, that isn't as it should be, or their number where
/// memory is short.
fn wrong_over<L: Ledger>(
    alloc: Global,
    stages: u32,
    span: Option<i128>,
    rows: &[Played],
    blank: Blank,
) -> Option<usize>
    requires blank { (blank.name ≡ L.name) × (blank.parts ≡ L.parts) × (0 < L.parts) }
    requires from { 1 ≤ stages }
    requires to { stages ≤ 256 }
{
    let (_book, share) = blank.open::<L>();
    let mut steps = Steps::of(share);
    match Keys::new(alloc, stages, span, Holders::of(Vec::new(alloc))) {
        Ok(mut keys) => {
            let wrong = wrong_row(alloc, &mut keys, rows, &mut steps);
            drop(keys);
            wrong
        }
        Err(_) => Some(rows.len()),
    }
}

/// The first eight lines of the syntax reference's example "How sequence queries handle matches" leave three sequences
/// pending, and the ninth completes one of them. An until item then ends the other of its key. One machine is left. What is pending
/// goes on in another part: it is as it was, and an event completes it.
static EXAMPLE: &[Played] = &[
    played!(fits!(1, 1, ROOT, 1)),
    played!(fits!(2, 2, ROOT, 1)),
    played!(fits!(3, 3, ELKBEE, 2)),
    played!(fits!(4, 4, ROOT, 2)),
    played!(fits!(5, 5, ROOT, 2)),
    played!(fits!(6, 6, ELKBEE, 1)),
    played!(fits!(7, 7, ROOT, 1)),
    played!(fits!(8, 8, ELKBEE, 2),
        pending: Some(&[found!(ELKBEE, &[6, 8]), found!(ROOT, &[7]), found!(ROOT, &[2, 4])]),
    ),
    played!(fits!(9, 9, ROOT, 4),
        matched: &[found!(ROOT, &[2, 4, 9])],
        pending: Some(&[found!(ELKBEE, &[6, 8]), found!(ROOT, &[7])]),
    ),
    played!(ends!(10, 10, ROOT, 0), pending: Some(&[found!(ELKBEE, &[6, 8])])),
    acted!(Act::Machines(1)),
    acted!(Act::Move),
    seen!(&[found!(ELKBEE, &[6, 8])]),
    played!(fits!(10, 10, ELKBEE, 4),
        matched: &[found!(ELKBEE, &[6, 8, 10])],
        pending: Some(&[]),
    ),
];

/// Events begin sequences of three keys. With a span of 10 nanoseconds those that began at 0 and 5 are alive at 10 and 15,
/// and not a nanosecond later.
static SWEPT: &[Played] = &[
    played!(fits!(1, 0, ROOT, 1)),
    played!(fits!(5, 5, ELKBEE, 1)),
    played!(fits!(20, 20, NOBODY, 1)),
    swept!(
        10,
        &[
            found!(ELKBEE, &[5]),
            found!(NOBODY, &[20]),
            found!(ROOT, &[1])
        ]
    ),
    swept!(11, &[found!(ELKBEE, &[5]), found!(NOBODY, &[20])]),
    swept!(15, &[found!(ELKBEE, &[5]), found!(NOBODY, &[20])]),
    swept!(16, &[found!(NOBODY, &[20])]),
];

/// Keys that are alike in their first sixteen bytes are told in order, whichever came first.
static ALIKE: &[Played] = &[
    played!(fits!(1, 1, SHOP, 1)),
    played!(fits!(2, 2, GATE, 1)),
    played!(fits!(3, 3, ROOT, 1),
        pending: Some(&[found!(ROOT, &[3]), found!(GATE, &[2]), found!(SHOP, &[1])]),
    ),
];

#[test]
fn the_references_example(rt: HostRuntime) {
    let wrong = wrong_over::<Brand>(rt.alloc(), 3, None, EXAMPLE, Blank::new(1));
    assert_eq!(rt; wrong, None);
}

#[test]
fn a_sweep_drops_what_is_too_old(rt: HostRuntime) {
    let wrong = wrong_over::<Brand>(rt.alloc(), 2, Some(10), SWEPT, Blank::new(1));
    assert_eq!(rt; wrong, None);
}

#[test]
fn keys_that_begin_alike(rt: HostRuntime) {
    let wrong = wrong_over::<Brand>(rt.alloc(), 2, None, ALIKE, Blank::new(1));
    assert_eq!(rt; wrong, None);
}
