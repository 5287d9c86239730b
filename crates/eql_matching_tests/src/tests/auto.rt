//! The machine of one key: what plays key_events on it, a worked example, and its greatest number of stages.
ghost use Rattle.std.specs.Prelude.{◌≡◌, ◌<◌, ◌≤◌, [], is_some, IsTrue, length};
ghost use Rattle.std.specs.List.{All};
ghost use Rattle.std.specs.declared.cmp.Ordering.TheVariants.{Less};
ghost use Rattle.eql_values.specs.declared.order.OrderKey.{OrderKey};
ghost use Rattle.eql_values.specs.Masks.{has_after};
ghost use Rattle.eql_values.specs.OrderKeys.{order_cmp};
ghost use Rattle.eql_auto.specs.Machine.{ComesAfter};
ghost use Rattle.eql_matching_tests.specs.Played.{IsAfterLast};

use crate::tests::lookback::{chain_of, has_lines, order_at};
use eql_auto::{Auto, Steps};
use eql_values::{Chain, KeyEvent, Mask, Memory, OrderKey, StageChains};
use std::alloc::Global;
use std::marker::Brand;
use std::sync::ledger::{Blank, Ledger};

/// What is played on a machine of so many stages with this span in nanoseconds: key_events, and behind them the times, in
/// nanoseconds, at which what is too old is dropped.
#[derive(Drop)]
pub(crate) struct Run {
    pub(crate) stages: u32,
    pub(crate) span: Option<i128>,
    pub(crate) key_events: Vec<KeyEvent>,
    pub(crate) reaches: &'static [i128],
}

/// What a machine told so far. A tag is the line of the event that begins its sequence.
#[derive(Drop)]
pub(crate) struct Told {
    /// The chains of its matches.
    pub(crate) matches: Vec<Chain>,
    /// The tags that it was given.
    pub(crate) given: Vec<u32>,
    /// The tags of the sequences that ceased.
    pub(crate) ceased: Vec<u32>,
}

impl Told {
    /// Nothing yet.
    pub(crate) fn nothing(alloc: Global) -> Told {
        Told {
            matches: Vec::new(alloc),
            given: Vec::new(alloc),
            ceased: Vec::new(alloc),
        }
    }
}

/// Whether an event comes after the last one, where there was one.
fn is_after(last: Option<OrderKey>, event: OrderKey) -> bool
    ensures { IsTrue result → IsAfterLast last event }
{
    match last {
        None => true,
        Some(last) => last < event,
    }
}

/// The tag of the sequence that an key_event begins, where it fits stage 1.
fn tag_of(key_event: &KeyEvent) -> Option<u32>
    ensures { is_some result ≡ has_after 0 key_event.now.mask }
{
    if key_event.mask.has(1) {
        Some(key_event.order.line)
    } else {
        None
    }
}

/// Adds a tag, where there is one. Returns whether there is memory for that.
fn adds_tag(tags: &mut Vec<u32>, tag: Option<u32>) -> bool {
    match tag {
        Some(tag) => tags.push(tag).is_ok(),
        None => true,
    }
}

/// Adds the chain of a match, where there is one. Returns whether there is memory for that.
fn adds_match(matches: &mut Vec<Chain>, found: Option<Chain>) -> bool {
    match found {
        Some(chain) => matches.push(chain).is_ok(),
        None => true,
    }
}

/// Reads all tags of sequences that ceased, and adds them to these. Returns whether there is memory for that.
fn reads_ceased<L: Ledger>(machine: &mut Auto<u32, L>, ceased: &mut Vec<u32>) -> bool
    ensures read { IsTrue result → machine.new.gone ≡ [] }
    ensures slots { machine.new.slots ≡ machine.old.slots }
{
    while let Some(tag) = machine.next_gone() {
        if ceased.push(tag).is_err() {
            return false;
        }
    }
    true
}

/// Plays one key_event, and reads the tags of the sequences that ceased. Returns whether there is memory for that.
fn plays_event<L: Ledger>(
    alloc: Global,
    machine: &mut Auto<u32, L>,
    key_event: &KeyEvent,
    told: &mut Told,
    steps: &mut Steps<L>,
) -> bool
    requires read { machine.old.gone ≡ [] }
    requires later { All (ComesAfter key_event.now.order) machine.old.slots }
    ensures read { IsTrue result → machine.new.gone ≡ [] }
    ensures later { (next : OrderKey) → order_cmp key_event.now.order next ≡ Less
        → IsTrue result → All (ComesAfter next) machine.new.slots }
{
    let Ok(()) = machine.ready(alloc) else {
        return false;
    };
    let tag = tag_of(key_event);
    let found = machine.turn(key_event.order, key_event.mask, key_event.until, tag, steps);
    adds_match(&mut told.matches, found)
        && adds_tag(&mut told.given, tag)
        && reads_ceased(machine, &mut told.ceased)
}

/// Plays key_events. Returns whether each came after the one before it, and was played.
fn plays_events<L: Ledger>(
    alloc: Global,
    machine: &mut Auto<u32, L>,
    key_events: &[KeyEvent],
    told: &mut Told,
    steps: &mut Steps<L>,
) -> bool
    requires read { machine.old.gone ≡ [] }
    requires empty { (next : OrderKey) → All (ComesAfter next) machine.old.slots }
    ensures { IsTrue result → machine.new.gone ≡ [] }
{
    let mut last = None;
    for key_event in key_events {
        if !is_after(last, key_event.order)
            || !plays_event(alloc, machine, key_event, told, steps)
        {
            return false;
        }
        last = Some(key_event.order);
    }
    true
}

/// Drops what is too old at each of these times, in nanoseconds, and reads the tags of what ceased. Returns whether there is
/// memory for that.
fn drops_old<L: Ledger>(
    machine: &mut Auto<u32, L>,
    reaches: &[i128],
    ceased: &mut Vec<u32>,
    steps: &mut Steps<L>,
) -> bool
    requires { machine.old.gone ≡ [] }
{
    for reach in reaches {
        machine.expire(*reach, steps);
        if !reads_ceased(machine, ceased) {
            return false;
        }
    }
    true
}

/// What is pending behind a run, or `None` where it can't be played.
fn pending_behind<L: Ledger>(
    alloc: Global,
    machine: &mut Auto<u32, L>,
    run: &Run,
    told: &mut Told,
    steps: &mut Steps<L>,
) -> Option<StageChains>
    requires read { machine.old.gone ≡ [] }
    requires empty { (next : OrderKey) → All (ComesAfter next) machine.old.slots }
{
    if plays_events(alloc, machine, &run.key_events, told, steps)
        && drops_old(machine, run.reaches, &mut told.ceased, steps)
    {
        machine.holders(alloc).ok()
    } else {
        None
    }
}

/// What is pending behind a run on a new machine, or `None` where it can't be played.
fn run_new<L: Ledger>(
    alloc: Global,
    run: &Run,
    told: &mut Told,
    steps: &mut Steps<L>,
) -> Result<Option<StageChains>, Memory>
    requires from { 1 ≤ run.now.stages }
    requires to { run.now.stages ≤ 256 }
{
    let mut machine = Auto::new(alloc, run.stages, run.span)?;
    let pending = pending_behind(alloc, &mut machine, run, told, steps);
    drop(machine);
    Ok(pending)
}

/// What is pending behind a run, on a new machine over a new ledger.
fn run_over<L: Ledger>(
    alloc: Global,
    run: &Run,
    told: &mut Told,
    blank: Blank,
) -> Result<Option<StageChains>, Memory>
    requires blank { (blank.name ≡ L.name) × (blank.parts ≡ L.parts) × (0 < L.parts) }
    requires from { 1 ≤ run.now.stages }
    requires to { run.now.stages ≤ 256 }
{
    let (_book, share) = blank.open::<L>();
    run_new(alloc, run, told, &mut Steps::of(share))
}

/// What is pending behind a run on a new machine, or `None` where it can't be played.
pub(crate) fn pending_of(alloc: Global, run: &Run, told: &mut Told) -> Option<StageChains> {
    if run.stages < 1 || 256 < run.stages {
        return None;
    }
    match run_over::<Brand>(alloc, run, told, Blank::new(1)) {
        Ok(pending) => pending,
        Err(_) => None,
    }
}

/// The number with this bit alone, counted from 0, or 0 where it has no such bit.
fn bit(place: u32) -> u128 {
    1u128.checked_shl(place).unwrap_or(0)
}

/// An key_event of this line, at as many nanoseconds, which fits one stage, or none for 0.
fn key_event_at(line: u32, stage: u32) -> KeyEvent {
    KeyEvent {
        order: order_at(i128::from(line), 0, line),
        mask: Mask {
            low: bit(stage.wrapping_sub(1)),
            high: bit(stage.wrapping_sub(129)),
        },
        until: false,
    }
}

/// An key_event for each of these stages, from line 1 on, or `None` where memory is short.
fn key_events_on(alloc: Global, stages: &[u32]) -> Option<Vec<KeyEvent>> {
    let mut key_events = Vec::new(alloc);
    let mut line = 0u32;
    for stage in stages {
        line = line.saturating_add(1);
        if key_events.push(key_event_at(line, *stage)).is_err() {
            return None;
        }
    }
    Some(key_events)
}

/// A machine, and what comes of playing on it: what ceased, and the lines of the one pending sequence, of stage 1, or none.
struct Row {
    stages: u32,
    span: Option<i128>,
    reaches: &'static [i128],
    ceased: &'static [u32],
    pending: &'static [u32],
}

/// Whether one sequence alone is pending, of stage 1 and with the events of these lines, or nothing where there are none.
fn is_pending(pending: &StageChains, lines: &[u32]) -> bool {
    match pending.items().as_slice() {
        [] => lines.is_empty(),
        [(stage, chain)] => *stage == 1 && has_lines(chain.items(), lines),
        _ => false,
    }
}

/// Whether a machine told of one match, by the events of these lines, and that sequences with these tags ceased.
fn has_told(told: &Told, matched: &[u32], ceased: &[u32]) -> bool {
    match told.matches.as_slice() {
        [chain] => has_lines(chain.items(), matched) && told.ceased.as_slice() == ceased,
        _ => false,
    }
}

/// Whether a run has one match, by the events of these lines, and what comes of it is as a row says.
fn is_run(alloc: Global, run: &Run, row: &Row, matched: &[u32]) -> bool {
    let mut told = Told::nothing(alloc);
    match pending_of(alloc, run, &mut told) {
        Some(pending) => {
            has_told(&told, matched, row.ceased) && is_pending(&pending, row.pending)
        }
        None => false,
    }
}

/// Whether events that fit these stages in turn have one match, by those of these lines, and what comes of it is as a row
/// says.
fn is_row(alloc: Global, row: &Row, fits: &[u32], matched: &[u32]) -> bool {
    match key_events_on(alloc, fits) {
        Some(key_events) => {
            let run = Run {
                stages: row.stages,
                span: row.span,
                key_events,
                reaches: row.reaches,
            };
            is_run(alloc, &run, row, matched)
        }
        None => false,
    }
}

/// The stages that the lines of the reference's example fit for one user, or 0 for none.
static EXAMPLE: &[u32] = &[1, 1, 0, 2, 2, 0, 1, 0, 3, 0, 3];

/// The lines of the user's one match in it.
static MATCHED: &[u32] = &[2, 4, 9];

/// With a span of 20 nanoseconds the sequence of line 7 is pending at 27.
static ALIVE: &Row = &Row {
    stages: 3,
    span: Some(20),
    reaches: &[27],
    ceased: &[1, 2],
    pending: &[7],
};

/// At 28 it is too old.
static EXPIRED: &Row = &Row {
    stages: 3,
    span: Some(20),
    reaches: &[27, 28],
    ceased: &[1, 2, 7],
    pending: &[],
};

/// Whether in the reference's example the events of lines 2, 4 and 9 are the user's one match, and that of line 7 stays
/// pending until it is too old.
fn is_example(alloc: Global) -> bool {
    is_row(alloc, ALIVE, EXAMPLE, MATCHED) && is_row(alloc, EXPIRED, EXAMPLE, MATCHED)
}

#[test]
fn the_reference_user_has_one_match(rt: HostRuntime) {
    assert!(rt; is_example(rt.alloc()));
}

/// The sequence of 256 stages that begins on line 1 makes a match.
static EACH_STAGE: &Row = &Row {
    stages: 256,
    span: None,
    reaches: &[],
    ceased: &[1],
    pending: &[],
};

/// Adds the numbers from 1 to 256. Returns whether there is memory for that.
fn adds_256(numbers: &mut Vec<u32>) -> bool {
    for number in 1..257u32 {
        if numbers.push(number).is_err() {
            return false;
        }
    }
    true
}

/// Whether at 256 stages an event of each stage in turn makes a match of as many events.
fn is_each_stage(alloc: Global) -> bool {
    let mut numbers = Vec::new(alloc);
    adds_256(&mut numbers) && is_row(alloc, EACH_STAGE, &numbers, &numbers)
}

#[test]
fn a_match_may_have_256_events(rt: HostRuntime) {
    assert!(rt; is_each_stage(rt.alloc()));
}

/// The line of the sequence that is put.
static PUT: &[u32] = &[5];

/// What is pending where a sequence was put into a machine.
fn pending_where_put(alloc: Global, chain: Chain) -> Result<StageChains, Memory>
    requires { length chain ≡ 1 }
{
    let mut machine: Auto<u32, Brand> = Auto::new(alloc, 3, None)?;
    machine.ready(alloc)?;
    machine.put_holder(1, chain, 50);
    let pending = machine.holders(alloc);
    drop(machine);
    pending
}

/// Whether a sequence that was put into a machine is pending.
fn holds_what_was_put(alloc: Global) -> bool {
    match chain_of(alloc, 5, 5) {
        Some(chain) => match pending_where_put(alloc, chain) {
            Ok(pending) => is_pending(&pending, PUT),
            Err(_) => false,
        },
        None => false,
    }
}

#[test]
fn a_sequence_that_was_put_is_pending(rt: HostRuntime) {
    assert!(rt; holds_what_was_put(rt.alloc()));
}
