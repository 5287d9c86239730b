//! What a recovery finds in areas that were written by hand, and what a put writes.
use crate::tests::bytes::{bytes_of, cut_of, disk_of};
use eql_ckdisk::{CkRefused, Recovered, put, recover};
use eql_outside::{Area, Disk, MemDisk};
use std::alloc::Global;
use std::test::Fail;

/// What a recovery finds.
#[derive(Clone, Copy)]
enum Finds {
    /// No cut.
    Nothing,
    /// The cut of this mark, in this area with this generation, in format 4.
    Cut(i128, Area, u64),
    /// An area that is damaged, and where.
    Damaged(u32, u64),
    /// An area that another program wrote.
    Foreign(u32),
    /// A fault of the disk.
    Fault,
}

/// The bytes of both areas, in hexadecimal, and what is found.
#[derive(Clone, Copy)]
struct Row {
    name: &'static str,
    a: &'static str,
    b: &'static str,
    finds: Finds,
}

/// The areas of this name, and what is found in them.
macro_rules! area_row {
    ($name:expr => $finds:expr; $a:expr, $b:expr) => {
        Row {
            name: $name,
            a: $a,
            b: $b,
            finds: $finds,
        }
    };
}

/// Areas of every kind. A text has 99 bytes, 63.
static ROWS: &[Row] = &[
    area_row!("two empty areas" => Finds::Nothing; "", ""),
    area_row!("closed" => Finds::Nothing; "00 0100000000000000 6300000000000000 T", "00"),
    area_row!("a closed gate beside a cut" => Finds::Cut(2, Area::B, 2);
        "00", "01 0200000000000000 6300000000000000 U"),
    area_row!("both areas another program's" => Finds::Foreign(0); "7b", "7b"),
    area_row!("another program's beside a damaged area" => Finds::Foreign(1); "01", "7b"),
    area_row!("one in area 0" => Finds::Cut(1, Area::A, 1);
        "01 0100000000000000 6300000000000000 T", ""),
    area_row!("one in area 1" => Finds::Cut(2, Area::B, 2);
        "", "01 0200000000000000 6300000000000000 U"),
    area_row!("the greater generation in area 0" => Finds::Cut(3, Area::A, 259);
        "01 0301000000000000 6300000000000000 V", "01 0400000000000000 6300000000000000 U"),
    area_row!("the greater generation in area 1" => Finds::Cut(2, Area::B, 10);
        "01 0900000000000000 6300000000000000 V", "01 0a00000000000000 6300000000000000 U"),
    area_row!("equal generations" => Finds::Cut(3, Area::A, 9);
        "01 0900000000000000 6300000000000000 V", "01 0900000000000000 6300000000000000 U"),
    area_row!("bytes behind the text" => Finds::Cut(1, Area::A, 1);
        "01 0100000000000000 6300000000000000 T ffff", ""),
    area_row!("the greatest generation" => Finds::Cut(1, Area::A, 9223372036854775808);
        "01 0000000000000080 6300000000000000 T", ""),
    area_row!("a greater one" => Finds::Damaged(0, 0);
        "01 0100000000000080 6300000000000000 T", "01 0100000000000000 6300000000000000 U"),
    area_row!("generation 0" => Finds::Damaged(0, 0); "01 0000000000000000 6300000000000000 T", ""),
    area_row!("a gate alone" => Finds::Damaged(1, 0); "", "01"),
    area_row!("16 bytes" => Finds::Damaged(0, 0); "01 0100000000000000 00000000000000", ""),
    area_row!("a gate alone, which is older" => Finds::Cut(2, Area::B, 1);
        "01 ff", "01 0100000000000000 6300000000000000 U"),
    area_row!("the text 00" => Finds::Damaged(0, 0); "01 0100000000000000 0100000000000000 00", ""),
    area_row!("a damaged area that is older" => Finds::Cut(1, Area::B, 2);
        "01 0100000000000000 0100000000000000 00", "01 0200000000000000 6300000000000000 T"),
    area_row!("no text" => Finds::Damaged(0, 0); "01 0100000000000000 0000000000000000", ""),
    area_row!("a format 5" => Finds::Damaged(1, 4);
        "", "01 0100000000000000 0500000000000000 45514c4305"),
    area_row!("a text cut short" => Finds::Damaged(0, 91);
        "01 0100000000000000 6200000000000000 T", ""),
    area_row!("a text without its checksum" => Finds::Damaged(0, 91);
        "01 0100000000000000 5b00000000000000 T", ""),
    area_row!("a text too long" => Finds::Damaged(0, 99);
        "01 0100000000000000 6400000000000000 T 00", ""),
    area_row!("a text that isn't there" => Finds::Damaged(0, 0);
        "01 0100000000000000 6400000000000000 T", ""),
    area_row!("a length of all bits" => Finds::Damaged(0, 0);
        "01 0100000000000000 ffffffffffffffff T", ""),
];

/// Whether this was found.
fn is_as(found: &Recovered, expected: Finds) -> bool {
    match (&found.cut, expected) {
        (None, Finds::Nothing) => found.format == 0 && found.state.generation() == 0,
        (Some(cut), Finds::Cut(mark, area, generation)) => {
            cut.mark == mark
                && found.format == 4
                && found.state.area() == area
                && found.state.generation() == generation
        }
        _ => false,
    }
}

/// Whether a recovery of the disk finds this.
fn is_found<D: Disk>(alloc: Global, disk: &mut D, expected: Finds) -> bool {
    match recover(alloc, disk) {
        Ok(found) => {
            let is_as = is_as(&found, expected);
            drop(found);
            is_as
        }
        Err(refused) => match expected {
            Finds::Damaged(area, at) => refused == CkRefused::Damaged { area, at },
            Finds::Foreign(area) => refused == CkRefused::Foreign { area },
            Finds::Fault => refused == CkRefused::DiskFault,
            _ => false,
        },
    }
}

/// Whether a recovery of a row's disk finds what it names, and how many faults the disk counts.
fn recovery_of(alloc: Global, row: &Row) -> Result<(bool, u64), Fail> {
    let mut disk = disk_of(alloc, row.a, row.b, None)?;
    let is_found = is_found(alloc, &mut disk, row.finds);
    let faults = disk.faults();
    drop(disk);
    Ok((is_found, faults))
}

#[test]
fn areas_are_read(rt: HostRuntime) -> Result<(), Fail> {
    for row in ROWS {
        assert_eq!(rt; recovery_of(rt.alloc(), row)?, (true, 0), "{}", row.name);
    }
    Ok(())
}

/// First bytes of areas that other programs wrote, as of logs and of texts.
static FOREIGN: &[&str] = &["02", "0a 01", "23 21", "5b", "7b 22 0100000000000000", "ff"];

/// An area that holds the cut with the mark 1.
const CUT: &str = "01 0100000000000000 6300000000000000 T";

/// Whether a recovery refuses these areas as another program's, of which this is the first, and leaves both as they are.
fn is_left(alloc: Global, a: &str, b: &str, area: u32) -> Result<bool, Fail> {
    let mut disk = disk_of(alloc, a, b, None)?;
    let is_refused = is_found(alloc, &mut disk, Finds::Foreign(area));
    let left = disk.crashed(alloc, 0);
    drop(disk);
    let (left_a, left_b) = left?;
    let (bytes_a, bytes_b) = (bytes_of(alloc, a)?, bytes_of(alloc, b)?);
    Ok(
        is_refused
            && left_a.as_slice() == bytes_a.as_slice()
            && left_b.as_slice() == bytes_b.as_slice(),
    )
}

/// The first of the areas which is not left as it is, in either place beside a cut, or nothing where there is none.
fn touched_area(alloc: Global) -> Result<&'static str, Fail> {
    for &area in FOREIGN {
        if !is_left(alloc, area, CUT, 0)? || !is_left(alloc, CUT, area, 1)? {
            return Ok(area);
        }
    }
    Ok("")
}

#[test]
fn foreign_areas_are_left(rt: HostRuntime) -> Result<(), Fail> {
    assert_eq!(rt; touched_area(rt.alloc())?, "");
    Ok(())
}

/// The areas before a put, the mark of the cut that is put, and the areas after it, if it isn't refused for its
/// generation.
struct Put {
    a: &'static str,
    b: &'static str,
    mark: u8,
    then: Option<(&'static str, &'static str)>,
}

static PUTS: &[Put] = &[
    Put {
        a: "",
        b: "00 ff",
        mark: 1,
        then: Some(("01 0100000000000000 6300000000000000 T", "00 ff")),
    },
    // What stood behind the new text stays.
    Put {
        a: "00 0900000000000000 6400000000000000 V eeff",
        b: "",
        mark: 1,
        then: Some(("01 0100000000000000 6300000000000000 T eeff", "")),
    },
    Put {
        a: "01 ff00000000000000 6300000000000000 T",
        b: "",
        mark: 2,
        then: Some((
            "01 ff00000000000000 6300000000000000 T",
            "01 0001000000000000 6300000000000000 U",
        )),
    },
    Put {
        a: "01 0100000000000000 6300000000000000 T",
        b: "01 0200000000000000 6300000000000000 U",
        mark: 3,
        then: Some((
            "01 0300000000000000 6300000000000000 V",
            "01 0200000000000000 6300000000000000 U",
        )),
    },
    // The greatest generation is still given, and none after it.
    Put {
        a: "",
        b: "01 ffffffffffffff7f 6300000000000000 U",
        mark: 3,
        then: Some((
            "01 0000000000000080 6300000000000000 V",
            "01 ffffffffffffff7f 6300000000000000 U",
        )),
    },
    Put {
        a: "01 0000000000000080 6300000000000000 T",
        b: "",
        mark: 2,
        then: None,
    },
];

/// What a put of the cut with this mark returns, behind a recovery.
fn put_marked(alloc: Global, disk: &mut MemDisk, mark: u8) -> Result<Result<(), CkRefused>, Fail> {
    let Ok(found) = recover(alloc, disk) else {
        return Err(Fail::from("refused"));
    };
    let mut state = found.state;
    drop(found);
    let cut = cut_of(alloc, mark)?;
    let answer = put(alloc, disk, &mut state, &cut);
    drop(cut);
    Ok(answer)
}

/// The bytes of both areas.
type Areas = (Vec<u8>, Vec<u8>);

/// What a row's put returns, and the bytes of both areas then.
fn put_row(alloc: Global, row: &Put) -> Result<(Result<(), CkRefused>, Areas), Fail> {
    let mut disk = disk_of(alloc, row.a, row.b, None)?;
    let answer = put_marked(alloc, &mut disk, row.mark);
    let areas = disk.crashed(alloc, 0);
    drop(disk);
    Ok((answer?, areas?))
}

#[test]
fn puts_write_areas(rt: HostRuntime) -> Result<(), Fail> {
    let alloc = rt.alloc();
    for row in PUTS {
        let (answer, (a, b)) = put_row(alloc, row)?;
        let (then, expected) = match row.then {
            Some(then) => (then, Ok(())),
            None => ((row.a, row.b), Err(CkRefused::Generation)),
        };
        assert_eq!(rt; answer, expected);
        assert_eq!(rt; a.as_slice(), bytes_of(alloc, then.0)?.as_slice());
        assert_eq!(rt; b.as_slice(), bytes_of(alloc, then.1)?.as_slice());
    }
    Ok(())
}

// A recovery of two areas, of which one is open, makes five calls on the disk: two syncs and three reads.
#[test]
fn recovery_tells_faults(rt: HostRuntime) -> Result<(), Fail> {
    let alloc = rt.alloc();
    for stop in 1..=6 {
        let area = "01 0100000000000000 6300000000000000 T";
        let mut disk = disk_of(alloc, area, "", Some(stop))?;
        let is_fault = is_found(alloc, &mut disk, Finds::Fault);
        let faults = disk.faults();
        drop(disk);
        assert_eq!(rt; is_fault, stop < 6);
        assert_eq!(rt; faults, if stop < 6 { 1 } else { 0 });
    }
    Ok(())
}
