//! Two cuts of one run in the formats 1 to 3, written by hand, disks that hold them, and disks that hold no cut.
//!
//! The run is the first one of `checkpoints`: the reference's example of sequences, a line each round. It keeps a cut after five
//! lines and after ten. Numbers have their lowest byte first.
use crate::tests::row::Held;
use crate::tests::run::Areas;
use Part::{Bytes, Place, Upper};
use std::alloc::AllocError;

/// A part of the text of a cut.
#[derive(Clone, Copy)]
enum Part {
    /// Bytes that all of these formats have.
    Bytes(&'static [u8]),
    /// The place of an event. Format 1 has none.
    Place(&'static [u8]),
    /// The stages above 128, of which there are none. Only format 3 has them.
    Upper,
}

/// What the cuts say of their run.
const HEAD: &[Part] = &[
    // The query, of 159 bytes.
    Bytes(b"\x9f\0\0\0\0\0\0\0sequence by `user.name` "),
    Bytes(b"[\"process\" where (`process.name` == \"attrib\")] "),
    Bytes(b"[\"process\" where (`process.name` == \"bash\")] "),
    Bytes(b"[\"process\" where (`process.name` == \"cat\")]"),
    // The mapping: 1 long, 2 keyword, 3 ip.
    Bytes(b"\x0a\0\0\0\0\0\0\0\x0e\0\0\0\0\0\0\0destination.ip\x03"),
    Bytes(b"\x10\0\0\0\0\0\0\0destination.port\x01\x0a\0\0\0\0\0\0\0event.type\x02"),
    Bytes(b"\x08\0\0\0\0\0\0\0file.pid\x01\x07\0\0\0\0\0\0\0host.id\x02"),
    Bytes(b"\x12\0\0\0\0\0\0\0process.args_count\x01"),
    Bytes(b"\x0c\0\0\0\0\0\0\0process.name\x02\x0b\0\0\0\0\0\0\0process.pid\x01"),
    Bytes(b"\x07\0\0\0\0\0\0\0user.id\x02\x09\0\0\0\0\0\0\0user.name\x02"),
    // No tiebreaker, a slack of 0, a shard.
    Bytes(b"\0\0\0\0\0\0\0\0\0\x01\0\0\0"),
];

/// The cut after five lines, but for its book.
const AFTER_FIVE: &[Part] = &[
    // The mark, 5 s. The lane: 506 bytes, open, best 5 s; 5 lines, all accepted.
    Bytes(b"\0\xf2\x05\x2a\x01\0\0\0\0\0\0\0\0\0\0\0"),
    Bytes(b"\x01\0\0\0\0\0\0\0\xfa\x01\0\0\0\0\0\0\0\x01\0\xf2\x05\x2a\x01\0\0\0\0\0\0\0\0\0\0\0"),
    Bytes(b"\x05\0\0\0\x05\0\0\0\0\0\0\0\0\0\0\0\0"),
    // Its event at 5 s, of line 5 at 406: of root, stage 2.
    Bytes(b"\x01\0\0\0\0\0\0\0"),
    Bytes(b"\0\xf2\x05\x2a\x01\0\0\0\0\0\0\0\0\0\0\0\0\0\0\0\0\x05\0\0\0"),
    Place(b"\x96\x01\0\0\0\0\0\0"),
    Bytes(b"\x01\0\0\0\0\0\0\0\x01\0\0\0\0\0\0\0\x03\x04\0\0\0\0\0\0\0root"),
    Bytes(b"\x02\0\0\0\0\0\0\0\0\0\0\0\0\0\0\0"),
    Upper,
    Bytes(b"\0"),
    // Pending, of root: the lines 2 at 102 and 4 at 306.
    Bytes(b"\x01\0\0\0\0\0\0\0"),
    Bytes(b"\x01\0\0\0\0\0\0\0\x03\x04\0\0\0\0\0\0\0root\x02\0\0\0\x02\0\0\0\0\0\0\0"),
    Bytes(b"\0\x94\x35\x77\0\0\0\0\0\0\0\0\0\0\0\0\0\0\0\0\0\x02\0\0\0"),
    Place(b"\x66\0\0\0\0\0\0\0"),
    Bytes(b"\0\x28\x6b\xee\0\0\0\0\0\0\0\0\0\0\0\0\0\0\0\0\0\x04\0\0\0"),
    Place(b"\x32\x01\0\0\0\0\0\0"),
];

/// The cut after ten lines, but for its book.
const AFTER_TEN: &[Part] = &[
    // The mark, 10 s. The lane: 1015 bytes, open, best 10 s; 10 lines, all accepted.
    Bytes(b"\0\xe4\x0b\x54\x02\0\0\0\0\0\0\0\0\0\0\0"),
    Bytes(b"\x01\0\0\0\0\0\0\0\xf7\x03\0\0\0\0\0\0\0\x01\0\xe4\x0b\x54\x02\0\0\0\0\0\0\0\0\0\0\0"),
    Bytes(b"\x0a\0\0\0\x0a\0\0\0\0\0\0\0\0\0\0\0\0"),
    // Its event at 10 s, of line 10 at 913: of elkbee, stage 3.
    Bytes(b"\x01\0\0\0\0\0\0\0"),
    Bytes(b"\0\xe4\x0b\x54\x02\0\0\0\0\0\0\0\0\0\0\0\0\0\0\0\0\x0a\0\0\0"),
    Place(b"\x91\x03\0\0\0\0\0\0"),
    Bytes(b"\x01\0\0\0\0\0\0\0\x01\0\0\0\0\0\0\0\x03\x06\0\0\0\0\0\0\0elkbee"),
    Bytes(b"\x04\0\0\0\0\0\0\0\0\0\0\0\0\0\0\0"),
    Upper,
    Bytes(b"\0"),
    // Pending, of elkbee: the lines 6 at 506 and 8 at 712.
    Bytes(b"\x02\0\0\0\0\0\0\0"),
    Bytes(b"\x01\0\0\0\0\0\0\0\x03\x06\0\0\0\0\0\0\0elkbee\x02\0\0\0\x02\0\0\0\0\0\0\0"),
    Bytes(b"\0\xbc\xa0\x65\x01\0\0\0\0\0\0\0\0\0\0\0\0\0\0\0\0\x06\0\0\0"),
    Place(b"\xfa\x01\0\0\0\0\0\0"),
    Bytes(b"\0\x50\xd6\xdc\x01\0\0\0\0\0\0\0\0\0\0\0\0\0\0\0\0\x08\0\0\0"),
    Place(b"\xc8\x02\0\0\0\0\0\0"),
    // Pending, of root: the line 7 at 610.
    Bytes(b"\x01\0\0\0\0\0\0\0\x03\x04\0\0\0\0\0\0\0root\x01\0\0\0\x01\0\0\0\0\0\0\0"),
    Bytes(b"\0\x86\x3b\xa1\x01\0\0\0\0\0\0\0\0\0\0\0\0\0\0\0\0\x07\0\0\0"),
    Place(b"\x62\x02\0\0\0\0\0\0"),
];

/// The book of the cut after five lines: none found, none listed, no pipes.
const NONE_FOUND: &[Part] = &[Bytes(b"\0\0\0\0\0\0\0\0\0\0\0\0\0\0\0\0\0\0\0\0\0\0\0\0")];

/// The book of the cut after ten lines: one found, one listed, no pipes.
const ONE_FOUND: &[Part] = &[Bytes(b"\x01\0\0\0\0\0\0\0\x01\0\0\0\0\0\0\0\0\0\0\0\0\0\0\0")];

/// A book that no run has: one found, and two listed.
const TWO_LISTED: &[Part] = &[Bytes(b"\x01\0\0\0\0\0\0\0\x02\0\0\0\0\0\0\0\0\0\0\0\0\0\0\0")];

/// The bytes of both areas of a disk, part by part, and the format of the cuts among them. Where an area has none it stays as it is.
struct Disk {
    format: u8,
    first: &'static [&'static [Part]],
    second: &'static [&'static [Part]],
}

/// An open area: the bytes before its head, what stands of a cut behind that, and its book.
macro_rules! area {
    ($before:expr, $cut:expr, $book:expr) => {
        &[&[Bytes($before)], HEAD, $cut, $book]
    };
}

/// The disk that the run left in format 1: the cut after five lines in the first area with generation 1, and the cut after ten
/// lines in the second with generation 2. An open area begins with its generation and the length of its text.
static FIRST_FORMAT: Disk = Disk {
    format: 1,
    first: area!(
        b"\x01\x01\0\0\0\0\0\0\0\x90\x02\0\0\0\0\0\0EQLC\x01",
        AFTER_FIVE,
        NONE_FOUND
    ),
    second: area!(
        b"\x01\x02\0\0\0\0\0\0\0\xce\x02\0\0\0\0\0\0EQLC\x01",
        AFTER_TEN,
        ONE_FOUND
    ),
};

/// The same in format 2.
static SECOND_FORMAT: Disk = Disk {
    format: 2,
    first: area!(
        b"\x01\x01\0\0\0\0\0\0\0\xa8\x02\0\0\0\0\0\0EQLC\x02",
        AFTER_FIVE,
        NONE_FOUND
    ),
    second: area!(
        b"\x01\x02\0\0\0\0\0\0\0\xee\x02\0\0\0\0\0\0EQLC\x02",
        AFTER_TEN,
        ONE_FOUND
    ),
};

/// The same in format 3.
static THIRD_FORMAT: Disk = Disk {
    format: 3,
    first: area!(
        b"\x01\x01\0\0\0\0\0\0\0\xb8\x02\0\0\0\0\0\0EQLC\x03",
        AFTER_FIVE,
        NONE_FOUND
    ),
    second: area!(
        b"\x01\x02\0\0\0\0\0\0\0\xfe\x02\0\0\0\0\0\0EQLC\x03",
        AFTER_TEN,
        ONE_FOUND
    ),
};

/// A disk with the cut after ten lines, of the last generation that there is.
static LAST_GENERATION: Disk = Disk {
    format: 2,
    first: &[],
    second: area!(
        b"\x01\0\0\0\0\0\0\0\x80\xee\x02\0\0\0\0\0\0EQLC\x02",
        AFTER_TEN,
        ONE_FOUND
    ),
};

/// A disk with a cut that fits no run.
static UNFIT: Disk = Disk {
    format: 2,
    first: area!(
        b"\x01\x01\0\0\0\0\0\0\0\xee\x02\0\0\0\0\0\0EQLC\x02",
        AFTER_TEN,
        TWO_LISTED
    ),
    second: &[],
};

/// A disk whose first area holds a text of one byte.
static DAMAGED: Disk = Disk {
    format: 2,
    first: &[&[Bytes(b"\x01\x01\0\0\0\0\0\0\0\x01\0\0\0\0\0\0\0\0")]],
    second: &[],
};

/// A line of a log.
const LINE: &[&[Part]] = &[&[Bytes(b"{\"@timestamp\":1000}\n")]];

/// A disk with a line as its first area.
static FOREIGN_FIRST: Disk = Disk {
    format: 2,
    first: LINE,
    second: &[],
};

/// A disk with a line as its second area.
static FOREIGN_SECOND: Disk = Disk {
    format: 2,
    first: &[],
    second: LINE,
};

/// A disk with a line as each area.
static FOREIGN_BOTH: Disk = Disk {
    format: 2,
    first: LINE,
    second: LINE,
};

/// A disk whose first area has the byte 1 alone.
static OPEN_BYTE: Disk = Disk {
    format: 2,
    first: &[&[Bytes(b"\x01")]],
    second: &[],
};

/// A disk whose first area has the byte 0 before a line.
static CLOSED_LINE: Disk = Disk {
    format: 2,
    first: &[&[Bytes(b"\0{\"@timestamp\":1000}\n")]],
    second: &[],
};

/// The disk of which a part is written by hand, where one is.
fn written_on(held: Held) -> Option<&'static Disk> {
    match held {
        Held::FirstFormat => Some(&FIRST_FORMAT),
        Held::SecondFormat => Some(&SECOND_FORMAT),
        Held::ThirdFormat => Some(&THIRD_FORMAT),
        Held::LastGeneration => Some(&LAST_GENERATION),
        Held::Unfit => Some(&UNFIT),
        Held::Damaged | Held::DamagedBefore => Some(&DAMAGED),
        Held::OpenByte => Some(&OPEN_BYTE),
        Held::ClosedLine => Some(&CLOSED_LINE),
        Held::ForeignFirst | Held::ForeignBefore => Some(&FOREIGN_FIRST),
        Held::ForeignSecond | Held::ForeignBehind => Some(&FOREIGN_SECOND),
        Held::ForeignBoth => Some(&FOREIGN_BOTH),
        Held::Nothing | Held::FirstRun | Held::FirstWithHands | Held::TwoShards => None,
    }
}

/// Writes the bytes of an area, where there are some.
fn write_area(area: &mut Vec<u8>, written: &[&[Part]], format: u8) -> Result<(), AllocError> {
    if !written.is_empty() {
        area.clear();
    }
    for parts in written {
        for part in *parts {
            match *part {
                Bytes(bytes) => area.extend_from_slice(bytes)?,
                Place(place) if format > 1 => area.extend_from_slice(place)?,
                Upper if format > 2 => area.extend_from_slice(&[0; 16])?,
                Place(_) | Upper => {}
            }
        }
    }
    Ok(())
}

/// Writes what is written by hand of what a disk holds.
pub(crate) fn write_areas(held: Held, areas: &mut Areas) -> Result<(), AllocError> {
    if let Some(disk) = written_on(held) {
        write_area(&mut areas.first, disk.first, disk.format)?;
        write_area(&mut areas.second, disk.second, disk.format)?;
    }
    Ok(())
}
