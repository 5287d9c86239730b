//! Runs with a checkpoint: how later runs go on from what is kept, which cuts are refused, disks that are held, and faults of
//! the disk and of the output.
use crate::tests::kept::{AFTER_FIVE, AFTER_TEN, NOTHING};
use crate::tests::row::{Held, Object, Row, Share, Told, Words, ended, found, row_like};
use crate::tests::run::check;
use crate::tests::sequences::{ELEVEN, REFERENCE, REFERENCE_LISTS};
use crate::tests::text::Piece::{Bytes, Spaced, Starts};
use crate::tests::text::Pieces;
use eql_outside::{Area, DiskHeld};

/// The options of the first of two runs.
const FIRST: &str = "--slack 0ms --batch 1 --hands 0 --checkpoint c --every 5";

/// The options of the second run.
const SECOND: &str = "--slack 0ms --batch 7 --hands 3 --checkpoint c --every 5";

/// The same without hands, and with one.
pub(crate) const ALONE: &str = "--slack 0ms --batch 7 --hands 0 --checkpoint c --every 5";

pub(crate) const BESIDE: &str = "--slack 0ms --batch 7 --hands 1 --checkpoint c --every 5";

/// The first of two runs. Each line of the reference's example is a round, and a cut is kept after the rounds 5 and 10.
pub(crate) const FIRST_RUN: Row = found!(
    "a first run",
    REFERENCE,
    ELEVEN,
    REFERENCE_LISTS,
    words: Words::Find(FIRST),
    kept: Some(AFTER_TEN),
);

/// A run that goes on from the second cut.
const SECOND_RUN: Row = found!(
    "the lines behind those that were listed",
    REFERENCE,
    ELEVEN,
    &[r#"2 ["elkbee"] 0:6 0:8 0:10"#],
    words: Words::Find(SECOND),
    held: Held::FirstRun,
);

/// A run that goes on from the second cut, with other fields.
macro_rules! second_run {
    ($shows:expr $(, $field:ident: $value:expr)* $(,)?) => {
        row_like!(SECOND_RUN, shows: $shows $(, $field: $value)*)
    };
}

/// A second run that is refused with this line.
macro_rules! not_resumed {
    ($shows:expr, $line:expr $(, $field:ident: $value:expr)* $(,)?) => {
        second_run!(
            $shows,
            listed: &[],
            status: 7,
            told: Told::Lines(&[$line])
            $(, $field: $value)*
        )
    };
}

/// The query of the example with a pipe.
const PIPED: &str =
    r#"sequence by user.name [process where process.name == "attrib"] [process where process.name == "bash"] [process where process.name == "cat"] | head 1"#;

/// The first five lines of the example.
const FIVE: Pieces = &[Starts(
    "1000 root attrib, 2000 root attrib, 3000 elkbee bash, 4000 root bash, 5000 root bash",
)];

/// The example with another user in its first line.
const OTHER_BEFORE: Pieces = &[Starts(
    "1000 rood attrib, 2000 root attrib, 3000 elkbee bash, 4000 root bash, 5000 root bash, 6000 elkbee attrib, 7000 root attrib, 8000 elkbee bash, 9000 root cat, 10000 elkbee cat, 11000 root cat",
)];

/// The example with another process in its last line, which the first run's second cut doesn't count.
const OTHER_BEHIND: Pieces = &[Starts(
    "1000 root attrib, 2000 root attrib, 3000 elkbee bash, 4000 root bash, 5000 root bash, 6000 elkbee attrib, 7000 root attrib, 8000 elkbee bash, 9000 root cat, 10000 elkbee cat, 11000 root vi",
)];

/// Another log, as the one that was begun when the example was rotated.
const ANOTHER_LOG: Pieces = &[Starts(
    "12000 root attrib, 13000 root bash, 14000 root cat, 15000 root attrib, 16000 root bash, 17000 root cat, 18000 root attrib, 19000 root bash, 20000 root cat, 21000 root attrib, 22000 root bash, 23000 root cat",
)];

/// The example with a space in place of each line feed.
const SPACED: Pieces = &[Spaced(
    "1000 root attrib, 2000 root attrib, 3000 elkbee bash, 4000 root bash, 5000 root bash, 6000 elkbee attrib, 7000 root attrib, 8000 elkbee bash, 9000 root cat, 10000 elkbee cat, 11000 root cat",
)];

/// A mapping of the fields alone that the query names.
const TWO_FIELDS: Pieces = &[Bytes(br#"{"process.name":"keyword","user.name":"keyword"}"#)];

/// What is done with the disk that the first run left.
static RESUMED: &[Row] = &[
    SECOND_RUN,
    second_run!(
        "another batch, other hands, another name and other rounds",
        words: Words::Find("--slack 0ms --batch 4096 --hands 5 --checkpoint other --every 1000000"),
    ),
    second_run!(
        "places of events from before the cut",
        listed: &[r#"2 ["elkbee"] 0:6@506 0:8@712 0:10@913"#],
        words: Words::Find("--slack 0ms --places --checkpoint c --every 5"),
    ),
    second_run!(
        "the whole listing without a checkpoint",
        listed: REFERENCE_LISTS,
        words: Words::Find("--slack 0ms"),
    ),
    second_run!(
        "faults of the disk that a run doesn't come to",
        fails: &[(Object::Disk, 40), (Object::Shelf, 5)],
    ),
    second_run!("other bytes behind those that were read", shard: OTHER_BEHIND),
];

/// Runs that the disk of the first run refuses.
static REFUSED: &[Row] = &[
    not_resumed!("another query", "checkpoint: Differs query", query: PIPED),
    not_resumed!("another mapping", "checkpoint: Differs mapping", fields: TWO_FIELDS),
    not_resumed!(
        "a tiebreaker",
        "checkpoint: Differs tiebreaker",
        words: Words::Find("--tiebreaker event.sequence --slack 0ms --checkpoint c --every 5"),
    ),
    not_resumed!(
        "another slack",
        "checkpoint: Differs slack",
        words: Words::Find("--slack 1ms --batch 1 --hands 0 --checkpoint c --every 5"),
    ),
    not_resumed!("a further shard", "checkpoint: Differs shards", more: &[&[]]),
    not_resumed!(
        "a shard that is cut short",
        "checkpoint: Short shard 0 offset 1015 had 506",
        shard: FIVE,
    ),
    not_resumed!("another log", "checkpoint: Differs shard 0", shard: ANOTHER_LOG),
    not_resumed!("a byte that was read", "checkpoint: Differs shard 0", shard: OTHER_BEFORE),
    not_resumed!("spaces that were line feeds", "checkpoint: Differs shard 0", shard: SPACED),
    not_resumed!(
        "a query that differs before other bytes",
        "checkpoint: Differs query",
        query: PIPED,
        shard: OTHER_BEFORE,
    ),
    not_resumed!(
        "a query that differs before a short shard",
        "checkpoint: Differs query",
        query: PIPED,
        shard: FIVE,
    ),
    ended!(
        "a missing shard before the disk",
        1,
        "no file t",
        query: PIPED,
        words: Words::Line("find --query q --fields f --slack 0ms --checkpoint c --every 5 t"),
        held: Held::FirstRun,
    ),
];

#[test]
fn later_runs_go_on(rt: HostRuntime) {
    check(&rt, rt.alloc(), &[RESUMED, REFUSED]);
}

/// A first run with hands.
const FIRST_WITH_HANDS: Row = Row {
    words: Words::Find("--slack 0ms --batch 1 --hands 2 --checkpoint c --every 1"),
    kept: None,
    ..FIRST_RUN
};

/// A run with hands that goes on from it, and lists the last lines.
static LATER: &[Row] = &[second_run!(
    "hands again",
    listed: REFERENCE_LISTS,
    share: Share::End,
    words: Words::Find("--slack 0ms --batch 2 --hands 3 --checkpoint c --every 1"),
    held: Held::FirstWithHands,
)];

/// Which rounds end with a cut depends on what hands read meanwhile. Whatever cut is the last one, a later run lists the lines
/// behind those that it counts.
#[test]
fn later_runs_go_on_from_runs_with_hands(rt: HostRuntime) {
    check(&rt, rt.alloc(), &[LATER, LATER, LATER]);
}

/// The example behind a shard of one line.
const TWO_SHARDS: Row = found!(
    "two shards",
    REFERENCE,
    &[Starts("1000 root vi")],
    &[r#"1 ["root"] 1:2 1:4 1:9"#, r#"2 ["elkbee"] 1:6 1:8 1:10"#],
    more: &[ELEVEN],
    words: Words::Find(FIRST),
);

/// A further run over two shards that is refused with this line.
macro_rules! two_not_resumed {
    ($shows:expr, $line:expr $(, $field:ident: $value:expr)* $(,)?) => {
        row_like!(
            TWO_SHARDS, shows: $shows,
            listed: &[],
            status: 7,
            told: Told::Lines(&[$line]),
            held: Held::TwoShards
            $(, $field: $value)*
        )
    };
}

/// The shard of one line, and the same once it grew by a byte.
const ONE_LINE: Pieces = &[Starts("1000 root vi")];

const ONE_LINE_GROWN: Pieces = &[Starts("1000 root vi"), Bytes(b" ")];

/// Runs over two shards that the first run's disk refuses. The first one was read to its end then. Of several shards the first that
/// is refused is told.
static TWO_REFUSED: &[Row] = &[
    two_not_resumed!(
        "a shard that grew since it was read to its end",
        "checkpoint: Grown shard 0",
        shard: ONE_LINE_GROWN,
    ),
    two_not_resumed!(
        "two shards exchanged",
        "checkpoint: Differs shard 0",
        shard: ELEVEN,
        more: &[ONE_LINE],
    ),
    two_not_resumed!(
        "other bytes in the second shard",
        "checkpoint: Differs shard 1",
        more: &[OTHER_BEFORE],
    ),
    two_not_resumed!(
        "other bytes in both shards",
        "checkpoint: Differs shard 0",
        shard: &[Starts("1000 root vj")],
        more: &[OTHER_BEFORE],
    ),
    two_not_resumed!(
        "other bytes of a shard before a further one",
        "checkpoint: Differs shard 0",
        shard: &[Starts("1000 root vj"), Bytes(b" ")],
    ),
    two_not_resumed!(
        "a short shard before other bytes in the second",
        "checkpoint: Short shard 0 offset 98 had 0",
        shard: &[],
        more: &[OTHER_BEFORE],
    ),
    two_not_resumed!(
        "a shard that grew before other bytes in the second",
        "checkpoint: Grown shard 0",
        shard: ONE_LINE_GROWN,
        more: &[OTHER_BEFORE],
    ),
];

#[test]
fn shards_that_were_read_must_stay(rt: HostRuntime) {
    check(&rt, rt.alloc(), &[TWO_REFUSED]);
}

/// The first runs that leave what a disk holds.
static EXAMPLE: Row = FIRST_RUN;

static WITH_HANDS: Row = FIRST_WITH_HANDS;

static OF_TWO_SHARDS: Row = TWO_SHARDS;

/// The first run that leaves what a disk holds, where one does.
pub(crate) fn first_run(held: Held) -> Option<&'static Row> {
    match held {
        Held::FirstRun | Held::DamagedBefore | Held::ForeignBefore | Held::ForeignBehind => {
            Some(&EXAMPLE)
        }
        Held::FirstWithHands => Some(&WITH_HANDS),
        Held::TwoShards => Some(&OF_TWO_SHARDS),
        _ => None,
    }
}

/// A first run that ends with a fault of the disk.
const DISK_FAULT: Row = Row {
    listed: &[],
    status: 6,
    told: Told::Lines(&["checkpoint disk fault"]),
    kept: None,
    ..FIRST_RUN
};

/// A first run with this fault of the disk.
macro_rules! disk_fails {
    ($shows:expr $(, $field:ident: $value:expr)* $(,)?) => {
        row_like!(DISK_FAULT, shows: $shows $(, $field: $value)*)
    };
}

/// Faults of the disk and of the shelf that hands it out.
static FAULTS: &[Row] = &[
    disk_fails!("the first call of the disk", fails: &[(Object::Disk, 1)]),
    disk_fails!("the shelf's call for it", fails: &[(Object::Shelf, 4)]),
    // What was listed before stands: the first match is written in round 10, before the second cut is put.
    disk_fails!(
        "the last call of the disk",
        listed: &[r#"1 ["root"] 0:2 0:4 0:9"#],
        fails: &[(Object::Disk, 16)],
    ),
    disk_fails!("what can't be told", fails: &[(Object::Disk, 1), (Object::Err, 1)]),
    Row {
        fails: &[(Object::Disk, 17)],
        ..FIRST_RUN
    },
];

/// Runs on disks that are damaged or hold a cut that can't be gone on from.
static DAMAGED: &[Row] = &[
    not_resumed!("a damaged area", "checkpoint: Damaged area 0 at 0", held: Held::Damaged),
    Row {
        shows: "a damaged area, by a first run",
        listed: &[],
        status: 7,
        told: Told::Lines(&["checkpoint: Damaged area 0 at 0"]),
        held: Held::Damaged,
        kept: None,
        ..FIRST_RUN
    },
];

/// A run on a disk whose older area is damaged.
static DAMAGED_BEFORE: &[Row] = &[
    second_run!("a damaged area that is older", held: Held::DamagedBefore),
];

/// A run on a disk whose cut can't be gone on from.
static UNFIT: &[Row] = &[
    not_resumed!("a cut that fits no run", "checkpoint: Unfit", held: Held::Unfit),
];

/// Runs on disks of which another program wrote an area.
static FOREIGN: &[Row] = &[
    not_resumed!(
        "a line as the first area",
        "checkpoint: Foreign area 0",
        held: Held::ForeignFirst,
    ),
    not_resumed!(
        "a line as the second area",
        "checkpoint: Foreign area 1",
        held: Held::ForeignSecond,
    ),
    not_resumed!("a line as each area", "checkpoint: Foreign area 0", held: Held::ForeignBoth),
    not_resumed!(
        "a line before the cut that counts",
        "checkpoint: Foreign area 0",
        held: Held::ForeignBefore,
    ),
    not_resumed!(
        "a line behind an older cut",
        "checkpoint: Foreign area 1",
        held: Held::ForeignBehind,
    ),
    not_resumed!(
        "a line before a cut of another query",
        "checkpoint: Foreign area 0",
        query: PIPED,
        held: Held::ForeignBefore,
    ),
    Row {
        shows: "a line as the second area, by a first run",
        listed: &[],
        status: 7,
        told: Told::Lines(&["checkpoint: Foreign area 1"]),
        held: Held::ForeignSecond,
        kept: None,
        ..FIRST_RUN
    },
];

/// Runs on disks whose first byte is one that a run leaves.
static OWN_BYTES: &[Row] = &[
    not_resumed!("the byte 1 alone", "checkpoint: Damaged area 0 at 0", held: Held::OpenByte),
    Row {
        shows: "the byte 0 before a line",
        held: Held::ClosedLine,
        ..FIRST_RUN
    },
];

/// Runs whose disk is held. Both areas stay as they are.
static HELD: &[Row] = &[
    not_resumed!(
        "a disk that another run has",
        "checkpoint: Busy",
        in_use: Some(DiskHeld::Busy),
    ),
    not_resumed!(
        "a first area that serves for something else",
        "checkpoint: Foreign area 0",
        in_use: Some(DiskHeld::Shared(Area::A)),
    ),
    not_resumed!(
        "a second area that serves for something else",
        "checkpoint: Foreign area 1",
        in_use: Some(DiskHeld::Shared(Area::B)),
    ),
    not_resumed!(
        "a disk that another run has, and what can't be told",
        "checkpoint: Busy",
        in_use: Some(DiskHeld::Busy),
        fails: &[(Object::Err, 1)],
    ),
    not_resumed!(
        "a disk that another run has before what it holds",
        "checkpoint: Busy",
        held: Held::Damaged,
        in_use: Some(DiskHeld::Busy),
    ),
    not_resumed!(
        "an area that serves for something else before a cut of another query",
        "checkpoint: Foreign area 1",
        query: PIPED,
        in_use: Some(DiskHeld::Shared(Area::B)),
    ),
    not_resumed!(
        "a disk that another run has before a shard that is cut short",
        "checkpoint: Busy",
        shard: FIVE,
        in_use: Some(DiskHeld::Busy),
    ),
    Row {
        shows: "a disk that another run has, by a first run",
        listed: &[],
        status: 7,
        told: Told::Lines(&["checkpoint: Busy"]),
        in_use: Some(DiskHeld::Busy),
        kept: Some(NOTHING),
        ..FIRST_RUN
    },
];

/// Runs that don't come to the disk that is held, or don't ask for it.
static HELD_FOR_OTHERS: &[Row] = &[
    second_run!(
        "the whole listing beside a disk that another run has",
        listed: REFERENCE_LISTS,
        words: Words::Find("--slack 0ms"),
        in_use: Some(DiskHeld::Busy),
    ),
    second_run!(
        "the whole listing beside an area that serves for something else",
        listed: REFERENCE_LISTS,
        words: Words::Find("--slack 0ms"),
        in_use: Some(DiskHeld::Shared(Area::A)),
    ),
    ended!(
        "a missing shard before a disk that is held",
        1,
        "no file t",
        words: Words::Line("find --query q --fields f --slack 0ms --checkpoint c --every 5 s0 t"),
        held: Held::FirstRun,
        in_use: Some(DiskHeld::Busy),
    ),
    ended!(
        "a refused query before a disk that is held",
        3,
        "parse: Syntax at 1",
        query: "x",
        words: Words::Find(SECOND),
        held: Held::FirstRun,
        in_use: Some(DiskHeld::Shared(Area::A)),
    ),
    disk_fails!(
        "a call for the disk that fails, though it is held",
        fails: &[(Object::Shelf, 4)],
        in_use: Some(DiskHeld::Busy),
    ),
];

#[test]
fn held_disks_are_refused(rt: HostRuntime) {
    check(&rt, rt.alloc(), &[HELD, HELD_FOR_OTHERS]);
}

/// First runs in which a call of the output fails. The lines that a cut counts are kept before it is put: by the first call
/// those of the first cut, which are none. The second writes the first match, the third has it kept, and the fourth writes the
/// second match.
static UNKEPT: &[Row] = &[
    Row {
        shows: "the call that has the lines of the first cut kept",
        listed: &[],
        status: 5,
        told: Told::Lines(&["write fault"]),
        fails: &[(Object::Out, 1)],
        kept: Some(NOTHING),
        ..FIRST_RUN
    },
    Row {
        shows: "the write between both cuts",
        listed: &[],
        status: 5,
        told: Told::Lines(&["write fault"]),
        fails: &[(Object::Out, 2)],
        kept: Some(AFTER_FIVE),
        ..FIRST_RUN
    },
    Row {
        shows: "the call that has the lines of the second cut kept",
        listed: &[r#"1 ["root"] 0:2 0:4 0:9"#],
        status: 5,
        told: Told::Lines(&["write fault"]),
        fails: &[(Object::Out, 3)],
        share: Share::Whole,
        kept: Some(AFTER_FIVE),
        ..FIRST_RUN
    },
    Row {
        shows: "the write behind both cuts",
        listed: &[r#"1 ["root"] 0:2 0:4 0:9"#],
        status: 5,
        told: Told::Lines(&["write fault"]),
        fails: &[(Object::Out, 4)],
        share: Share::Whole,
        ..FIRST_RUN
    },
    Row {
        shows: "a call of the output that isn't made",
        fails: &[(Object::Out, 5)],
        ..FIRST_RUN
    },
];

#[test]
fn lines_of_a_cut_are_kept_before_it_is_put(rt: HostRuntime) {
    check(&rt, rt.alloc(), &[UNKEPT]);
}

#[test]
fn disks_fail_and_are_refused(rt: HostRuntime) {
    check(
        &rt,
        rt.alloc(),
        &[FAULTS, DAMAGED, DAMAGED_BEFORE, UNFIT, FOREIGN, OWN_BYTES],
    );
}

/// A run that puts a cut on a disk that has the last generation.
static LAST_GENERATION: &[Row] = &[second_run!(
    "the last generation",
    words: Words::Find("--slack 0ms --batch 1 --hands 0 --checkpoint c --every 1"),
    status: 9,
    told: Told::Lines(&["limit: generation"]),
    held: Held::LastGeneration,
)];

/// Runs on the disk that the first run left in format 1, of which no cut has places.
static OF_FIRST_FORMAT: &[Row] = &[
    second_run!("a cut without places", held: Held::FirstFormat),
    second_run!(
        "a cut without places, and the places",
        listed: &[r#"2 ["elkbee"] 0:6@506 0:8@712 0:10@913"#],
        held: Held::FirstFormat,
        words: Words::Find("--slack 0ms --batch 7 --hands 3 --places --checkpoint c --every 5"),
    ),
    not_resumed!(
        "a cut whose lines aren't there",
        "checkpoint: NoLine shard 0 line 6",
        shard: SPACED,
        held: Held::FirstFormat,
    ),
];

/// Runs on the disks that the first run left in the formats 2 and 3, of which no cut has digests: other bytes aren't noticed.
static WITHOUT_DIGESTS: &[Row] = &[
    second_run!("a cut with masks of 128 stages", held: Held::SecondFormat),
    second_run!("a cut with masks of 256 stages", held: Held::ThirdFormat),
    second_run!(
        "other bytes under a cut without digests",
        shard: OTHER_BEFORE,
        held: Held::ThirdFormat,
    ),
];

#[test]
fn cuts_of_older_formats_are_read(rt: HostRuntime) {
    check(
        &rt,
        rt.alloc(),
        &[OF_FIRST_FORMAT, WITHOUT_DIGESTS, LAST_GENERATION],
    );
}
