//! A hundred and ninety-two small runs over made-up logs. Each lists what the look-back finds by the accepted events.
use crate::dice::Dice;
use crate::expected::listing_of;
use crate::listed::{Listed, list};
use crate::logs::{Event, Line, accepted, texts_of};
use crate::parts::PARTS;
use crate::plans::plan_of;
use crate::queries::{QUERIES, Query, SPAN};
use eql_replay::{Foreign, Foreigns};
use std::alloc::Global;
use std::process::Abort;
use std::test::Fail;

/// How many rows there are for each number of lines that are read at once.
const ROWS: u32 = 48;

/// Over how many shards a log is split.
const SHARDS: [u32; 4] = [1, 2, 3, 5];

/// Before one call of how many others play.
const OF_CALLS: [u32; 3] = [1, 9, 60];

/// The slack of rows that have one, in milliseconds.
const SLACK: u64 = 3;

/// Before how many calls others may play.
const CALLS: u32 = 1_200;

/// How a log is split over shards.
#[derive(Clone, Copy)]
pub(crate) enum Split {
    /// Line by line, in turn.
    InTurn,
    /// In blocks.
    InBlocks,
    /// As the dice fall.
    AtRandom,
}

/// A row: a log, how it is searched, and how it is split.
#[derive(Clone, Copy)]
struct Row {
    /// The number of the log.
    log: u32,
    /// The number of the query.
    query: u32,
    spanned: bool,
    slack: Option<u64>,
    /// How many lines are read at once.
    batch: u32,
    shards: u32,
    split: Split,
    of_calls: u32,
}

/// An element of three or four, by a number.
fn pick(items: &[u32], number: u32) -> u32 {
    let at = (number as usize).checked_rem(items.len()).unwrap_or(0);
    match items.get(at) {
        Some(item) => *item,
        None => 1,
    }
}

/// The row of a number. Each query, span and slack meet in a log, which is split over each number of shards, in ways that
/// take turns.
fn row_of(batch: u32, number: u32) -> Row {
    let kind = number / 4;
    Row {
        log: batch.saturating_mul(100).saturating_add(kind),
        query: kind / 4,
        spanned: kind / 2 % 2 == 1,
        slack: if kind % 2 == 1 { Some(SLACK) } else { None },
        batch,
        shards: pick(&SHARDS, number),
        split: match kind.saturating_add(number) % 3 {
            0 => Split::InTurn,
            1 => Split::InBlocks,
            _ => Split::AtRandom,
        },
        of_calls: pick(&OF_CALLS, number),
    }
}

/// The number of a process's name: each of the first four comes twice as often as each of the others.
fn name_of(roll: u32) -> u32 {
    if roll < 8 { roll / 2 } else { roll - 4 }
}

/// The next line of a log, at about this time.
fn next_line(dice: &mut Dice, ms: u32) -> Line {
    match dice.roll(20) {
        0 => Line::Blank,
        1 => Line::Bad,
        _ => Line::Event(Event {
            ms: ms.saturating_sub(dice.roll(6)),
            user: match dice.roll(7) {
                0 => None,
                roll => Some(roll % 2),
            },
            name: name_of(dice.roll(10)),
        }),
    }
}

/// A log of so many lines.
pub(crate) fn log_of(alloc: Global, dice: &mut Dice, count: u32) -> Result<Vec<Line>, Fail> {
    let mut lines = Vec::new(alloc);
    let mut ms = 10u32;
    for _ in 0..count {
        ms = ms.saturating_add(dice.roll(3));
        lines.push(next_line(dice, ms))?;
    }
    Ok(lines)
}

/// The shard of a line of a log of so many lines.
fn shard_of(dice: &mut Dice, split: Split, shards: u32, line: u32, count: u32) -> u32 {
    match split {
        Split::InTurn => line.checked_rem(shards).unwrap_or(0),
        Split::InBlocks => line.saturating_mul(shards).checked_div(count).unwrap_or(0),
        Split::AtRandom => dice.roll(shards),
    }
}

/// So many shards with no lines.
fn empty_shards(alloc: Global, count: u32) -> Result<Vec<Vec<Line>>, Fail> {
    let mut shards = Vec::new(alloc);
    for _ in 0..count {
        shards.push(Vec::new(alloc))?;
    }
    Ok(shards)
}

/// Adds a line to a shard.
fn add_line(shards: &mut Vec<Vec<Line>>, shard: u32, line: Line) -> Result<(), Fail> {
    match shards.get_mut(shard as usize) {
        Some(lines) => Ok(lines.push(line)?),
        None => Err(Fail::new("no such shard")),
    }
}

/// The lines of each shard.
pub(crate) fn split_by(
    alloc: Global,
    dice: &mut Dice,
    split: Split,
    count: u32,
    log: &Vec<Line>,
) -> Result<Vec<Vec<Line>>, Fail> {
    let mut shards = empty_shards(alloc, count)?;
    let lines = u32::try_from(log.len())?;
    let mut number = 0u32;
    for line in log {
        let shard = shard_of(dice, split, count, number, lines);
        add_line(&mut shards, shard, *line)?;
        number = number.saturating_add(1);
    }
    Ok(shards)
}

/// What others play.
fn foreign(dice: &mut Dice, shards: u32) -> Foreign {
    let max = dice.roll(4).saturating_add(1);
    if dice.roll(2) == 0 {
        Foreign::Feed {
            lane: dice.roll(shards),
            max,
        }
    } else {
        Foreign::Turn {
            part: dice.roll(PARTS),
            max,
        }
    }
}

/// What others play before each call: one to three operations before one call of so many.
pub(crate) fn plays_of(
    alloc: Global,
    dice: &mut Dice,
    shards: u32,
    of_calls: u32,
) -> Result<Vec<Foreigns>, Fail> {
    let mut plays = Vec::new(alloc);
    for _ in 0..CALLS {
        let mut foreigns = Vec::new(alloc);
        if dice.roll(of_calls) == 0 {
            for _ in 0..dice.roll(3).saturating_add(1) {
                foreigns.push(foreign(dice, shards))?;
            }
        }
        plays.push(Foreigns::of(foreigns))?;
    }
    Ok(plays)
}

/// The query of a number.
fn query_of(number: u32) -> &'static Query {
    match number {
        0 => &QUERIES[0],
        1 => &QUERIES[1],
        _ => &QUERIES[2],
    }
}

/// The lines of each shard of a row. Rows of the same log differ in nothing but how it is split.
fn shards_of(alloc: Global, row: Row) -> Result<Vec<Vec<Line>>, Fail> {
    let mut dice = Dice::seeded(u64::from(row.log));
    let count = dice.roll(10).saturating_add(6);
    let log = log_of(alloc, &mut dice, count)?;
    split_by(alloc, &mut dice, row.split, row.shards, &log)
}

/// What the run of a row lists.
fn listed_by(alloc: Global, row: Row, shards: &Vec<Vec<Line>>) -> Result<Listed, Fail> {
    let mut dice = Dice::seeded(u64::from(row.log.saturating_mul(10).saturating_add(row.shards)));
    let plays = plays_of(alloc, &mut dice, row.shards, row.of_calls)?;
    let query = query_of(row.query);
    let text = if row.spanned {
        query.spanned
    } else {
        query.plain
    };
    let plan = plan_of(alloc, text)?;
    let texts = texts_of(alloc, shards)?;
    list(alloc, &plan, &texts, row.slack, row.batch, plays)
}

/// What the look-back finds by the accepted events of a row.
fn expected_of(alloc: Global, row: Row, shards: &Vec<Vec<Line>>) -> Result<String, Fail> {
    let query = query_of(row.query);
    let items = accepted(alloc, query, shards, row.slack)?;
    let span = if row.spanned { Some(SPAN) } else { None };
    listing_of(alloc, items, query.stages, span)
}

/// All rows with so many lines read at once list what is expected, and at least so many of them list something.
fn check_rows<R: Abort>(rt: &R, alloc: Global, batch: u32, least: u32) -> Result<(), Fail> {
    let mut some = 0u32;
    for number in 0..ROWS {
        let row = row_of(batch, number);
        let shards = shards_of(alloc, row)?;
        let Listed { listing, is_done } = listed_by(alloc, row, &shards)?;
        let expected = expected_of(alloc, row, &shards)?;
        assert!(rt; is_done, "row {number}, by {batch}, isn't done");
        assert!(rt;
            listing.as_str() == expected.as_str(),
            "row {number}, by {batch}, lists\n{listing}and not\n{expected}"
        );
        if !expected.is_empty() {
            some = some.saturating_add(1);
        }
    }
    assert!(rt; least <= some, "{some} rows list something");
    Ok(())
}

/// A row for each query, span, slack, number of shards and number of lines that are read at once.
#[test]
fn made_up_logs_list_what_the_look_back_finds(rt: HostRuntime) -> Result<(), Fail> {
    for batch in [1, 2, 7, 256] {
        check_rows(&rt, rt.alloc(), batch, 12)?;
    }
    Ok(())
}
