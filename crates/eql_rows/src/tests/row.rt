//! The rows of the tables of runs.
//!
//! A row is made by a macro that says only what differs from a search for any event in an empty shard. Behind what all
//! rows of its sort say, it takes further fields, as `found!(shows, query, shard, listed, piece: 1000)`. So a table can be
//! a `static`, which a check reads as one value. An array of rows that functions make costs half a second for each call.
use crate::tests::kept::Kept;
use crate::tests::text::{Piece, Pieces};
use eql_outside::DiskHeld;

/// What a run calls, where a call may fail.
#[derive(Clone, Copy, PartialEq, Eq)]
pub(crate) enum Object {
    /// The query file, by its takes.
    Query,
    /// The fields file, by its takes.
    Fields,
    /// The shard of this number, from 0, by its takes.
    Shard(usize),
    /// The output, by its writes and the calls that have them kept.
    Out,
    /// The error output, by its writes.
    Err,
    /// The shelf, each time that it is asked for a file or its disk.
    Shelf,
    /// The disk, by all its calls.
    Disk,
}

/// A call that fails: its object, and its number among the calls of that object, from 1.
pub(crate) type Failing = (Object, u64);

/// The words behind the program's name.
#[derive(Clone, Copy)]
pub(crate) enum Words {
    /// Those of a search in the shards of the row, with these options, which have a space between each two.
    Find(&'static str),
    /// These, which have a space between each two.
    Line(&'static str),
}

/// What the error output gets.
#[derive(Clone, Copy)]
pub(crate) enum Told {
    /// The report of a search in which each line was accepted.
    Accepted,
    /// The three lines of words that make no command.
    Usage,
    /// These lines.
    Lines(&'static [&'static str]),
}

/// What the disk of a checkpoint holds where a run begins.
#[derive(Clone, Copy)]
pub(crate) enum Held {
    /// Nothing.
    Nothing,
    /// What the first run of the example left.
    FirstRun,
    /// The same, but for its first area, which is damaged.
    DamagedBefore,
    /// What a first run with hands left.
    FirstWithHands,
    /// What the first run over two shards left.
    TwoShards,
    /// The cuts of the first run in format 1.
    FirstFormat,
    /// The cuts of the first run in format 2.
    SecondFormat,
    /// The cuts of the first run in format 3.
    ThirdFormat,
    /// A cut of the last generation that there is.
    LastGeneration,
    /// A cut that fits no run.
    Unfit,
    /// A damaged area.
    Damaged,
    /// A first area whose only byte is 1.
    OpenByte,
    /// A first area whose first byte is 0, and then a line.
    ClosedLine,
    /// A line as its first area.
    ForeignFirst,
    /// A line as its second area.
    ForeignSecond,
    /// A line as each area.
    ForeignBoth,
    /// What the first run of the example left, but for the first area, which is a line.
    ForeignBefore,
    /// What the first run of the example left, but for the second area, which is a line.
    ForeignBehind,
}

/// How much of what a row lists its output gets.
#[derive(Clone, Copy)]
pub(crate) enum Share {
    /// All on status 0, and where the error output failed. Else a front.
    Front,
    /// All.
    Whole,
    /// The last lines, none or all among them.
    End,
}

/// A worked run. The query file is named `q`, the fields file `f`, and the shards `s0`, `s1` and so on.
#[derive(Clone, Copy)]
pub(crate) struct Row {
    /// What it shows.
    pub(crate) shows: &'static str,
    pub(crate) words: Words,
    pub(crate) query: &'static str,
    /// What stands in the query file behind the query.
    pub(crate) behind: Pieces,
    pub(crate) fields: Pieces,
    pub(crate) shard: Pieces,
    /// The shards behind the first.
    pub(crate) more: &'static [Pieces],
    /// How many further shards stand behind these, each as the first.
    pub(crate) copies: usize,
    /// How many bytes a take gives at most.
    pub(crate) piece: usize,
    /// What the disk holds before.
    pub(crate) held: Held,
    /// Why the disk isn't handed out, where it is in use.
    pub(crate) in_use: Option<DiskHeld>,
    pub(crate) fails: &'static [Failing],
    pub(crate) status: u8,
    /// The lines of which the output gets a share.
    pub(crate) listed: &'static [&'static str],
    /// What stands behind these lines.
    pub(crate) rest: Pieces,
    pub(crate) share: Share,
    /// The cut that its disk holds then, where the row says it.
    pub(crate) kept: Option<Kept>,
    pub(crate) told: Told,
}

/// A search for any event in an empty shard.
pub(crate) const PLAIN: Row = Row {
    shows: "any event of an empty shard",
    words: Words::Find(""),
    query: "any where true",
    behind: &[],
    fields: &[Piece::AllFields],
    shard: &[],
    more: &[],
    copies: 0,
    piece: 7,
    held: Held::Nothing,
    in_use: None,
    fails: &[],
    status: 0,
    listed: &[],
    rest: &[],
    share: Share::Front,
    kept: None,
    told: Told::Accepted,
};

/// A check of a query.
pub(crate) const CHECK: Row = Row {
    words: Words::Line("check --query q --fields f"),
    told: Told::Lines(&[]),
    ..PLAIN
};

/// A run whose words make no command.
pub(crate) const NO_COMMAND: Row = Row {
    status: 2,
    told: Told::Usage,
    ..PLAIN
};

/// A row that differs from another one in these fields.
macro_rules! row_like {
    ($like:expr $(, $field:ident: $value:expr)* $(,)?) => {
        $crate::tests::row::Row {
            $($field: $value,)*
            ..$like
        }
    };
}

pub(crate) use row_like;

/// A search that is done, with these lines.
macro_rules! found {
    ($shows:expr, $query:expr, $shard:expr, $listed:expr $(, $field:ident: $value:expr)* $(,)?) => {
        $crate::tests::row::row_like!(
            $crate::tests::row::PLAIN, shows: $shows, query: $query, shard: $shard, listed: $listed
            $(, $field: $value)*
        )
    };
}

pub(crate) use found;

/// A search that ends with this status, tells this line and lists nothing.
macro_rules! ended {
    ($shows:expr, $status:expr, $line:expr $(, $field:ident: $value:expr)* $(,)?) => {
        $crate::tests::row::row_like!(
            $crate::tests::row::PLAIN, shows: $shows, status: $status,
            told: $crate::tests::row::Told::Lines(&[$line])
            $(, $field: $value)*
        )
    };
}

pub(crate) use ended;

/// A search whose query is refused with this line.
macro_rules! refused {
    ($shows:expr, $query:expr, $line:expr $(, $field:ident: $value:expr)* $(,)?) => {
        $crate::tests::row::ended!($shows, 3, $line, query: $query $(, $field: $value)*)
    };
}

pub(crate) use refused;

/// A check of a query, which prints it so.
macro_rules! printed {
    ($shows:expr, $query:expr, $listed:expr $(, $field:ident: $value:expr)* $(,)?) => {
        $crate::tests::row::row_like!(
            $crate::tests::row::CHECK, shows: $shows, query: $query, listed: $listed $(, $field: $value)*
        )
    };
}

pub(crate) use printed;

/// A search in one line, which is rejected for this reason.
macro_rules! rejected {
    ($shows:expr, $shard:expr, $reason:expr $(, $field:ident: $value:expr)* $(,)?) => {
        $crate::tests::row::found!(
            $shows,
            "any where process.pid == null",
            $shard,
            &[],
            told: $crate::tests::row::Told::Lines(&[concat!(
                "shard 0: lines 1 accepted 0 late 0 rejected 1 first 1 ",
                $reason
            )])
            $(, $field: $value)*
        )
    };
}

pub(crate) use rejected;

/// Words that make no command.
macro_rules! usage {
    ($shows:expr, $line:expr $(, $field:ident: $value:expr)* $(,)?) => {
        $crate::tests::row::row_like!(
            $crate::tests::row::NO_COMMAND, shows: $shows,
            words: $crate::tests::row::Words::Line($line)
            $(, $field: $value)*
        )
    };
}

pub(crate) use usage;
