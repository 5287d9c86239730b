//! Sources, sinks, shelves and disks: that their calls succeed, which bytes come and go, that failures come where planned,
//! and what real files do.
ghost use Rattle.std.specs.Prelude.{◌≡◌, ◌≤◌, IfOk, false, refl};

use crate::tests::table::see_true;
use eql_outside::{
    Area, Disk, DiskHeld, DiskRefused, Failed, FileShelf, FileSource, KeptStdout, MemDisk, MemFile,
    MemShelf, MemSink, MemSource, OutRefused, ReadsAlike, Shelf, Sink, Source, StdSink, Supply,
    WritesAlike,
};
use eql_values::Memory;
use std::alloc::Global;
use std::io::{Error, ErrorKind, Read, Write};
use std::os::unix::fs::symlink;
use std::{fs, io, process};

/// One call that is made of a source.
struct Take {
    /// The room that it is given, at most four bytes.
    room: usize,
    /// What it gives, or `None` where it fails.
    gives: Option<&'static [u8]>,
}

/// A take with this room that gives these bytes.
macro_rules! gives {
    ($room:expr, $bytes:expr) => {
        Take {
            room: $room,
            gives: Some($bytes),
        }
    };
}

/// A take with this room that fails.
macro_rules! fails {
    ($room:expr) => {
        Take {
            room: $room,
            gives: None,
        }
    };
}

/// Whether a take of a source gives what it should, or fails where it should.
fn is_taken<S: Source>(source: &mut S, take: &Take) -> bool {
    let mut into = [0u8; 4];
    let room = take.room.min(4);
    match (source.take(&mut into[..room]), take.gives) {
        (Ok(n), Some(bytes)) => into[..n.min(4)] == bytes[..],
        (Err(Failed), None) => true,
        _ => false,
    }
}

/// Whether takes of a source in turn are as they should be.
fn are_taken<S: Source>(source: &mut S, takes: &[Take]) -> bool {
    for take in takes {
        if !is_taken(source, take) {
            return false;
        }
    }
    true
}

/// The number of a call that fails, alone in a list.
fn one_call(alloc: Global, call: u64) -> Result<Vec<u64>, Memory> {
    Ok(vec![in alloc; call]?)
}

/// A file of these bytes, of whose takes the one with this number fails.
fn file(alloc: Global, bytes: &str, piece: usize, fails: u64) -> Result<MemFile, Memory>
    requires { 1 ≤ piece }
{
    let fails = one_call(alloc, fails)?;
    let bytes = Vec::from_slice(alloc, bytes.as_bytes())?;
    Ok(MemFile {
        name: String::from_str(alloc, "log")?,
        bytes,
        piece,
        fails,
    })
}

/// Takes of the bytes `abcde` in pieces of two, of which the second fails.
static PIECES: &[Take] = &[
    gives!(4, b"ab"),
    fails!(4),
    gives!(1, b"c"),
    gives!(4, b"de"),
    gives!(4, b""),
];

/// Whether these takes are as they should be, and one was a fault.
fn are_taken_in_pieces(alloc: Global) -> Result<bool, Memory> {
    let mut source = MemSource::new(file(alloc, "abcde", 2, 2)?);
    let is_right = are_taken(&mut source, PIECES) && source.faults() == 1;
    drop(source);
    Ok(is_right)
}

#[test]
fn memory_source_gives_pieces(rt: HostRuntime) {
    see_true(&rt, are_taken_in_pieces(rt.alloc()));
}

/// A reader whose second read fails, and whose third is cut short by a signal.
#[derive(Drop)]
struct Faulty {
    reads: u8,
}

impl Read for Faulty {
    fn read(&mut self, into: &mut [u8]) -> io::Result<usize> {
        self.reads = self.reads.saturating_add(1);
        match self.reads {
            2 => Err(Error::from(ErrorKind::ConnectionReset)),
            3 => Err(Error::from(ErrorKind::Interrupted)),
            1 | 4 => if into.is_empty() {
                Ok(0)
            } else {
                into[0] = b'x';
                Ok(1)
            },
            _ => Ok(0),
        }
    }
}

impl ReadsAlike for Faulty {
    ghost alike = { λ reader other silent. refl };
}

/// Takes of such a reader.
static AROUND_A_FAULT: &[Take] = &[gives!(4, b"x"), fails!(4), gives!(4, b"x"), gives!(4, b"")];

/// Whether these takes are as they should be, and one was a fault.
fn are_taken_around_a_fault() -> bool {
    let mut source = FileSource::new(Faulty { reads: 0 });
    let is_right = are_taken(&mut source, AROUND_A_FAULT) && source.faults() == 1;
    drop(source);
    is_right
}

#[test]
fn reader_that_fails_is_not_at_its_end(rt: HostRuntime) {
    assert!(rt; are_taken_around_a_fault());
}

/// Bytes that are written, what the sink returns, and the faults that it counts then.
type Written = (&'static [u8], Result<(), OutRefused>, u64);

/// Whether writes to a sink in turn are as they should be.
fn are_written<K: Sink>(alloc: Global, sink: &mut K, writes: &[Written]) -> bool {
    for (bytes, answer, faults) in writes {
        if sink.write(alloc, *bytes) != *answer || sink.faults() != *faults {
            return false;
        }
    }
    true
}

/// Writes of which the second one fails.
static WRITES: &[Written] = &[
    (b"one ", Ok(()), 0),
    (b"lost", Err(OutRefused::Failed), 1),
    (b"two", Ok(()), 1),
];

/// Whether these writes are as they should be, and the sink keeps the others.
fn are_kept(alloc: Global) -> Result<bool, Memory> {
    let mut sink = MemSink::new(alloc, one_call(alloc, 2)?);
    let is_right = are_written(alloc, &mut sink, WRITES);
    let is_kept = sink.bytes().as_slice() == "one two".as_bytes();
    drop(sink);
    Ok(is_right && is_kept)
}

#[test]
fn memory_sink_keeps_bytes(rt: HostRuntime) {
    see_true(&rt, are_kept(rt.alloc()));
}

/// Bytes that are written, what is kept then, what the sink returns where it is asked to keep them, and what is kept
/// after that.
type Asked = (
    &'static [u8],
    &'static [u8],
    Result<(), OutRefused>,
    &'static [u8],
);

/// Writes of which each is to be kept. The fourth call fails.
static ASKED: &[Asked] = &[
    (b"one", b"", Ok(()), b"one"),
    (b" two", b"one", Err(OutRefused::Failed), b"one"),
    (b"", b"one", Ok(()), b"one two"),
];

/// Whether a sink in memory has kept this.
fn has_kept(sink: &MemSink, bytes: &[u8]) -> bool {
    sink.kept()[..] == bytes[..]
}

/// Whether what a sink in memory keeps is as it should be.
fn are_asked(alloc: Global, sink: &mut MemSink) -> bool {
    for (bytes, before, answer, after) in ASKED {
        let is_written = sink.write(alloc, *bytes).is_ok() && has_kept(sink, *before);
        if !is_written || sink.keep(alloc) != *answer || !has_kept(sink, *after) {
            return false;
        }
    }
    true
}

/// Whether that is so, and one call was a fault.
fn are_asked_of_one(alloc: Global) -> Result<bool, Memory> {
    let mut sink = MemSink::new(alloc, one_call(alloc, 4)?);
    let is_right = are_asked(alloc, &mut sink) && sink.faults() == 1;
    drop(sink);
    Ok(is_right)
}

#[test]
fn memory_sink_keeps_what_was_written(rt: HostRuntime) {
    see_true(&rt, are_asked_of_one(rt.alloc()));
}

/// Whether standard output can be kept: it is a file, or something else of which nothing is to be kept.
fn is_output_kept(rt: &HostRuntime) -> Result<bool, Memory> {
    let mut sink = StdSink::new(KeptStdout::new(rt.stdout(), rt.clone()?));
    let answer = sink.keep(rt.alloc());
    drop(sink);
    Ok(answer == Ok(()))
}

#[test]
fn standard_output_is_kept(rt: HostRuntime) {
    see_true(&rt, is_output_kept(&rt));
}

/// A writer that takes two bytes at a time, and none of a piece that begins with a full stop.
#[derive(Drop)]
struct Slow {
    taken: Vec<u8>,
}

impl Write for Slow {
    fn write(&mut self, bytes: &[u8]) -> io::Result<usize> {
        if bytes.first() == Some(&b'.') {
            return Ok(0);
        }
        let n = bytes.len().min(2);
        self.taken.extend_from_slice(&bytes[..n])?;
        Ok(n)
    }

    fn flush(&mut self) -> io::Result<()> {
        Ok(())
    }
}

impl WritesAlike for Slow {
    ghost alike = { λ writer other silent. refl };
}

/// Writes of which the second one is cut short.
static SLOW_WRITES: &[Written] = &[(b"abcde", Ok(()), 0), (b"fg.h", Err(OutRefused::Failed), 1)];

/// Whether these writes are as they should be, and the others were taken.
fn are_written_slowly(alloc: Global) -> bool {
    let mut sink = StdSink::new(Slow {
        taken: Vec::new(alloc),
    });
    let is_right = are_written(alloc, &mut sink, SLOW_WRITES);
    let slow = sink.into_inner();
    let is_kept = slow.taken.as_slice() == "abcdefg".as_bytes();
    drop(slow);
    is_right && is_kept
}

#[test]
fn stream_sink_writes_on(rt: HostRuntime) {
    assert!(rt; are_written_slowly(rt.alloc()));
}

/// What a shelf says of a file or a disk that it lent, by whether the calls of it are as they should be.
fn lent(is_right: bool) -> &'static str {
    if is_right { "lent" } else { "otherwise" }
}

/// Asks a shelf for a file, makes takes of it, and gives it back.
fn said_of_file<H: Shelf>(
    alloc: Global,
    shelf: &mut H,
    name: &String,
    takes: &[Take],
) -> &'static str {
    match shelf.source(alloc, name) {
        Ok(Some(mut source)) => {
            let is_right = are_taken(&mut source, takes);
            shelf.give_source(source);
            lent(is_right)
        }
        Ok(None) => "absent",
        Err(_) => "failed",
    }
}

/// A name, takes of its file, what a shelf says of it, and the faults that the shelf counts then.
struct Named {
    name: &'static str,
    takes: &'static [Take],
    says: &'static str,
    faults: u64,
}

/// Whether a shelf says of a name what it should.
fn is_said<H: Shelf>(alloc: Global, shelf: &mut H, named: &Named) -> Result<bool, Memory> {
    let name = String::from_str(alloc, named.name)?;
    let says = said_of_file(alloc, shelf, &name, named.takes);
    drop(name);
    Ok(says == named.says && shelf.faults() == named.faults)
}

/// The names that are asked of a shelf in turn. It has a file of one byte, whose first take fails, and its third
/// call fails.
static LENT: &[Named] = &[
    Named {
        name: "none",
        takes: &[],
        says: "absent",
        faults: 0,
    },
    Named {
        name: "log",
        takes: &[fails!(2), gives!(2, b"x"), gives!(2, b"")],
        says: "lent",
        faults: 1,
    },
    Named {
        name: "log",
        takes: &[],
        says: "failed",
        faults: 2,
    },
];

/// A shelf of such a file.
fn shelf_of_one(alloc: Global) -> Result<MemShelf, Memory> {
    let fails = one_call(alloc, 3)?;
    let files = vec![in alloc; file(alloc, "x", 1, 1)?]?;
    MemShelf::new(
        alloc,
        files,
        empty_disk(alloc, Vec::new(alloc), None)?,
        fails,
    )
}

/// Whether a shelf, asked in turn, says of each name what it should.
fn are_said<H: Shelf>(alloc: Global, shelf: &mut H, names: &[Named]) -> Result<bool, Memory> {
    for named in names {
        if !is_said(alloc, shelf, named)? {
            return Ok(false);
        }
    }
    Ok(true)
}

/// Whether such a shelf does.
fn are_said_of_one(alloc: Global) -> Result<bool, Memory> {
    let mut shelf = shelf_of_one(alloc)?;
    let is_right = are_said(alloc, &mut shelf, LENT);
    drop(shelf);
    is_right
}

#[test]
fn memory_shelf_lends_files(rt: HostRuntime) {
    see_true(&rt, are_said_of_one(rt.alloc()));
}

/// Takes of a file of three bytes.
static WHOLE: &[Take] = &[gives!(2, b"ab"), gives!(2, b"c"), gives!(2, b"")];

/// The path of a file of this process alone.
fn own_path(rt: &HostRuntime, name: &str) -> Result<String, Memory> {
    Ok(format!(in rt.alloc(); "/tmp/{}_{}", name, process::id(rt.process()))?)
}

/// A shelf of files.
fn file_shelf(rt: &HostRuntime) -> Result<FileShelf<HostRuntime>, Memory> {
    Ok(FileShelf::new(rt.alloc(), rt.clone()?))
}

/// Whether a shelf lends a file that is written, and says that it is absent when it is removed.
fn is_said_around<H: Shelf>(rt: &HostRuntime, shelf: &mut H, path: &String) -> bool {
    let is_written = fs::write(rt, path, "abc").is_ok();
    let there = said_of_file(rt.alloc(), shelf, path, WHOLE);
    let is_removed = fs::remove_file(rt, path).is_ok();
    let gone = said_of_file(rt.alloc(), shelf, path, &[]);
    is_written && is_removed && there == "lent" && gone == "absent"
}

/// Whether a shelf of files says so of such a file, and counts no fault.
fn is_said_by_files(rt: &HostRuntime) -> Result<bool, Memory> {
    let path = own_path(rt, "eql_outside")?;
    let mut shelf = file_shelf(rt)?;
    let is_right = is_said_around(rt, &mut shelf, &path) && shelf.faults() == 0;
    drop(shelf);
    drop(path);
    Ok(is_right)
}

#[test]
fn file_shelf_opens_files(rt: HostRuntime) {
    see_true(&rt, is_said_by_files(&rt));
}

/// Names that are no plain files. A folder opens, and fails at its first read. A path through a file is no file. A
/// name with a zero byte is no name.
static NAMES: &[Named] = &[
    Named {
        name: "/",
        takes: &[fails!(1)],
        says: "lent",
        faults: 1,
    },
    Named {
        name: "/dev/null/log",
        takes: &[],
        says: "absent",
        faults: 0,
    },
    Named {
        name: "/tmp/a\0b",
        takes: &[],
        says: "failed",
        faults: 1,
    },
    Named {
        name: "/dev/null",
        takes: &[gives!(1, b"")],
        says: "lent",
        faults: 0,
    },
];

/// Whether a new shelf of files says of a name what it should.
fn is_said_of_files(rt: &HostRuntime, named: &Named) -> Result<bool, Memory> {
    let mut shelf = file_shelf(rt)?;
    let is_right = is_said(rt.alloc(), &mut shelf, named);
    drop(shelf);
    is_right
}

/// Whether a new shelf of files says of each of these names what it should.
fn are_said_of_files(rt: &HostRuntime) -> Result<bool, Memory> {
    for named in NAMES {
        if !is_said_of_files(rt, named)? {
            return Ok(false);
        }
    }
    Ok(true)
}

#[test]
fn file_shelf_tells_faults_from_missing_files(rt: HostRuntime) {
    see_true(&rt, are_said_of_files(&rt));
}

/// What may be expected of the source that a shelf lends for a name, where it lends one.
fn expected_of<H: Shelf>(alloc: Global, shelf: &mut H, name: &String) -> Option<Supply> {
    match shelf.source(alloc, name) {
        Ok(Some(source)) => {
            let supply = source.supply();
            shelf.give_source(source);
            Some(supply)
        }
        Ok(None) => None,
        Err(_) => None,
    }
}

/// Whether a new shelf of files expects this of a name.
fn is_expected(rt: &HostRuntime, name: &str, supply: Supply) -> Result<bool, Memory> {
    let name = String::from_str(rt.alloc(), name)?;
    let mut shelf = file_shelf(rt)?;
    let is_right = expected_of(rt.alloc(), &mut shelf, &name) == Some(supply);
    drop(shelf);
    drop(name);
    Ok(is_right)
}

/// Whether a file of three bytes is expected to have them.
fn is_expected_of_a_file(rt: &HostRuntime) -> Result<bool, Memory> {
    let path = own_path(rt, "eql_outside_supply")?;
    let is_written = fs::write(rt, &path, "abc").is_ok();
    let is_right = is_expected(rt, path.as_str(), Supply::File { bytes: 3 });
    let is_removed = fs::remove_file(rt, &path).is_ok();
    drop(path);
    Ok(is_written && is_removed && is_right?)
}

#[test]
fn file_shelf_tells_what_may_be_expected(rt: HostRuntime) {
    see_true(&rt, is_expected_of_a_file(&rt));
    see_true(&rt, is_expected(&rt, "/", Supply::Pausing));
    see_true(&rt, is_expected(&rt, "/dev/null", Supply::Pausing));
}

/// A disk with empty areas, whose calls of these numbers fail, and all from a number on.
fn empty_disk(alloc: Global, fails: Vec<u64>, stop: Option<u64>) -> Result<MemDisk, Memory> {
    MemDisk::new(alloc, Vec::new(alloc), Vec::new(alloc), fails, stop)
}

/// Writes at the front of an area, a sync, and a read.
struct Run {
    /// The area.
    area: Area,
    /// The bytes that are written.
    bytes: &'static [u8],
    /// Whether the write succeeds, and whether the sync does.
    done: (bool, bool),
    /// From where on bytes are read, and how many at most.
    place: (u64, u64),
    /// What the read gives, or `None` where it fails.
    gives: Option<&'static [u8]>,
}

/// A run over an area with these bytes.
macro_rules! run {
    ($area:ident, $bytes:expr, $done:expr, $place:expr, $gives:expr) => {
        Run {
            area: Area::$area,
            bytes: $bytes,
            done: $done,
            place: $place,
            gives: $gives,
        }
    };
}

/// Whether a read of a disk gives what it should, or fails where it should.
fn is_read<D: Disk>(alloc: Global, disk: &mut D, run: &Run) -> bool {
    match disk.read(alloc, run.area, run.place.0, run.place.1) {
        Ok(read) => {
            let is_right = run.gives == Some(read.as_slice());
            drop(read);
            is_right
        }
        Err(_) => run.gives.is_none(),
    }
}

/// Whether a run of a disk is as it should be.
fn is_run<D: Disk>(alloc: Global, disk: &mut D, run: &Run) -> bool {
    let is_written = disk.write(alloc, run.area, 0, run.bytes).is_ok();
    let is_synced = disk.sync(alloc, run.area).is_ok();
    is_read(alloc, disk, run) && (is_written, is_synced) == run.done
}

/// Whether runs of a disk in turn are as they should be.
fn are_run<D: Disk>(alloc: Global, disk: &mut D, runs: &[Run]) -> bool {
    for run in runs {
        if !is_run(alloc, disk, run) {
            return false;
        }
    }
    true
}

/// What a crash leaves of the first area of a disk, and of the second one.
type Left = (&'static [u8], &'static [u8]);

/// Whether a crash by a choice leaves what it should.
fn is_left(alloc: Global, disk: &MemDisk, choice: u64, left: &Left) -> bool {
    match disk.crashed(alloc, choice) {
        Ok((first, second)) => {
            let is_right = first.as_slice() == left.0 && second.as_slice() == left.1;
            drop(second);
            drop(first);
            is_right
        }
        Err(Memory) => false,
    }
}

/// Whether crashes by the choices from 0 on leave what they should, as many choices as there are rows.
fn are_left(alloc: Global, disk: &MemDisk, rows: &[Left]) -> bool {
    for (choice, left) in rows.iter().enumerate() {
        if !is_left(alloc, disk, choice as u64, left) {
            return false;
        }
    }
    true
}

/// Runs of a disk whose second and sixth calls fail, and all from the eighth on.
static PLANNED: &[Run] = &[
    run!(A, b"ab", (true, false), (0, 9), Some(b"ab")),
    run!(B, b"c", (true, true), (0, 9), None),
    run!(A, b"xy", (true, false), (0, 9), None),
];

/// What crashes leave then.
static LEFT_THEN: &[Left] = &[(b"", b"c"), (b"xy", b"c")];

/// Such a disk.
fn planned_disk(alloc: Global) -> Result<MemDisk, Memory> {
    let mut fails = one_call(alloc, 2)?;
    fails.push(6)?;
    empty_disk(alloc, fails, Some(8))
}

/// Whether these runs are as they should be, four calls were faults, and crashes leave what they should.
fn is_as_planned(alloc: Global, disk: &mut MemDisk) -> bool {
    are_run(alloc, disk, PLANNED) && disk.faults() == 4 && are_left(alloc, disk, LEFT_THEN)
}

/// Whether that is so of such a disk.
fn is_planned(alloc: Global) -> Result<bool, Memory> {
    let mut disk = planned_disk(alloc)?;
    let is_right = is_as_planned(alloc, &mut disk);
    drop(disk);
    Ok(is_right)
}

#[test]
fn memory_disk_fails_where_planned(rt: HostRuntime) {
    see_true(&rt, is_planned(rt.alloc()));
}

/// What a crash leaves of the byte 0, behind which 1, 2 and 3 were written, and over which 1 was written, by the
/// choices from 0 on. The byte a5 stands for what a torn write spoiled.
static IMAGES: &[Left] = &[
    (b"\0", b""),
    (b"\x01\x01\x02\x03", b""),
    (b"\0", b""),
    (b"\x01", b""),
    (b"\0\x01", b""),
    (b"\x01\x01", b""),
    (b"\0\x01\x02", b""),
    (b"\x01\x01\x02", b""),
    (b"\0\x01\x02\x03", b""),
    (b"\x01\x01\x02\x03", b""),
    (b"\0\x01\xa5\xa5", b""),
    (b"\x01\x01\xa5\xa5", b""),
    (b"\0\x01\x02\xa5", b""),
    (b"\x01\x01\x02\xa5", b""),
];

/// What a crash leaves once the disk is synced.
static SYNCED: Left = (b"\x01\x01\x02\x03", b"");

/// Whether a crash by each of the first 32 choices leaves that.
fn are_synced(alloc: Global, disk: &MemDisk) -> bool {
    for choice in 0..32 {
        if !is_left(alloc, disk, choice, &SYNCED) {
            return false;
        }
    }
    true
}

/// A disk to which that was written, and whether the writes succeeded.
fn torn_disk(alloc: Global) -> Result<(MemDisk, bool), Memory> {
    let a = Vec::from_slice(alloc, "\0".as_bytes())?;
    let mut disk = MemDisk::new(alloc, a, Vec::new(alloc), Vec::new(alloc), None)?;
    let is_written = disk
        .write(alloc, Area::A, 1, "\u{1}\u{2}\u{3}".as_bytes())
        .is_ok()
        && disk.write(alloc, Area::A, 0, "\u{1}".as_bytes()).is_ok();
    Ok((disk, is_written))
}

/// Whether crashes of such a disk leave what they should before it is synced, and then.
fn is_torn(alloc: Global, disk: &mut MemDisk) -> bool {
    are_left(alloc, disk, IMAGES) && disk.sync(alloc, Area::A).is_ok() && are_synced(alloc, disk)
}

/// Whether such a disk is made, and crashes leave what they should.
fn is_made_and_torn(alloc: Global) -> Result<bool, Memory> {
    let (mut disk, is_written) = torn_disk(alloc)?;
    let is_torn = is_torn(alloc, &mut disk);
    drop(disk);
    Ok(is_written && is_torn)
}

#[test]
fn crash_tears_each_pending_write(rt: HostRuntime) {
    see_true(&rt, is_made_and_torn(rt.alloc()));
}

/// What a shelf says of a disk that it doesn't hand out.
fn said_of_refusal(refused: DiskRefused) -> &'static str {
    match refused {
        DiskRefused::Held(DiskHeld::Busy) => "busy",
        DiskRefused::Held(DiskHeld::Shared(Area::A)) => "first shared",
        DiskRefused::Held(DiskHeld::Shared(Area::B)) => "second shared",
        DiskRefused::Failed => "failed",
        DiskRefused::Memory => "memory",
    }
}

/// Asks a shelf for its disk, makes runs of it, and gives it back.
fn said_of_disk<H: Shelf>(alloc: Global, shelf: &mut H, name: &String, runs: &[Run]) -> &'static str
    ensures back { H.is_out shelf.old ≡ false → H.is_out shelf.new ≡ false }
{
    match shelf.disk(alloc, name) {
        Ok(mut disk) => {
            let is_right = are_run(alloc, &mut disk, runs);
            shelf.give_disk(disk);
            lent(is_right)
        }
        Err(refused) => said_of_refusal(refused),
    }
}

/// Whether a shelf says of a disk what it should, and counts so many faults of disks then.
fn is_said_of_disk<H: Shelf>(
    alloc: Global,
    shelf: &mut H,
    name: &String,
    runs: &[Run],
    says: &str,
    faults: u64,
) -> bool
    ensures back { H.is_out shelf.old ≡ false → H.is_out shelf.new ≡ false }
{
    said_of_disk(alloc, shelf, name, runs) == says && shelf.disk_faults() == faults
}

/// A run of a disk whose third call fails.
static CUT_SHORT: &[Run] = &[run!(A, b"ab", (true, true), (0, 9), None)];

/// What a crash leaves of it.
static LEFT_SHORT: &[Left] = &[(b"ab", b"")];

/// A shelf of such a disk, whose second call fails.
fn shelf_of_disk(alloc: Global) -> Result<MemShelf, Memory>
    ensures is_in { IfOk result (λ s. ⟦<MemShelf as Shelf>⟧.is_out s ≡ false) }
{
    let disk = empty_disk(alloc, one_call(alloc, 3)?, None)?;
    let fails = one_call(alloc, 2)?;
    MemShelf::new(alloc, Vec::new(alloc), disk, fails)
}

/// Whether a shelf lends its disk once, and fails then. No file of it fails.
fn is_lent_once<H: Shelf>(alloc: Global, shelf: &mut H, name: &String) -> bool
    ensures back { H.is_out shelf.old ≡ false → H.is_out shelf.new ≡ false }
{
    is_said_of_disk(alloc, shelf, name, CUT_SHORT, "lent", 1)
        && is_said_of_disk(alloc, shelf, name, &[], "failed", 2)
        && shelf.faults() == 0
}

/// Whether such a shelf does, and a crash leaves what was written.
fn is_disk_kept(alloc: Global) -> Result<bool, Memory> {
    let name = String::from_str(alloc, "c")?;
    let mut shelf = shelf_of_disk(alloc)?;
    let is_lent = is_lent_once(alloc, &mut shelf, &name);
    drop(name);
    let disk = shelf.into_disk();
    let is_left = are_left(alloc, &disk, LEFT_SHORT);
    drop(disk);
    Ok(is_lent && is_left)
}

#[test]
fn memory_shelf_lends_its_disk(rt: HostRuntime) {
    see_true(&rt, is_disk_kept(rt.alloc()));
}

/// Runs of a disk that fill its areas, and then read the first one behind its first byte.
static FILLED: &[Run] = &[
    run!(A, b"abcd", (true, true), (0, 9), Some(b"abcd")),
    run!(B, b"", (true, true), (0, 9), Some(b"")),
    run!(A, b"", (true, true), (1, 2), Some(b"bc")),
];

/// Whether a file holds this text.
fn is_held(rt: &HostRuntime, path: &String, text: &str) -> bool {
    match fs::read_to_string(rt, path) {
        Ok(held) => {
            let is_right = held.as_str() == text;
            drop(held);
            is_right
        }
        Err(_) => false,
    }
}

/// Whether the file of an area holds this text. The file is removed.
fn is_area(rt: &HostRuntime, path: &String, area: u8, text: &str) -> Result<bool, Memory> {
    let file = format!(in rt.alloc(); "{}.{}", path, area)?;
    let is_right = is_held(rt, &file, text);
    let is_removed = fs::remove_file(rt, &file).is_ok();
    drop(file);
    Ok(is_removed && is_right)
}

/// Whether a shelf says what it should of a disk that is filled, and of one that can't be made.
fn are_disks_said<H: Shelf>(alloc: Global, shelf: &mut H, path: &String) -> Result<bool, Memory> {
    let nowhere = String::from_str(alloc, "/dev/null/c")?;
    let is_right = is_said_of_disk(alloc, shelf, path, FILLED, "lent", 0)
        && is_said_of_disk(alloc, shelf, &nowhere, &[], "failed", 1);
    drop(nowhere);
    Ok(is_right)
}

/// Whether a shelf of files does.
fn are_disks_said_by_files(rt: &HostRuntime, path: &String) -> Result<bool, Memory> {
    let mut shelf = file_shelf(rt)?;
    let is_right = are_disks_said(rt.alloc(), &mut shelf, path);
    drop(shelf);
    is_right
}

/// Whether each file of the areas of a disk holds what was written. The files are removed.
fn are_areas(rt: &HostRuntime, path: &String) -> Result<bool, Memory> {
    let is_first = is_area(rt, path, 0, "abcd")?;
    Ok(is_area(rt, path, 1, "")? && is_first)
}

/// Whether a shelf of files says what it should of its disks, and each file of the first disk holds what was written.
fn are_disks_kept(rt: &HostRuntime) -> Result<bool, Memory> {
    let path = own_path(rt, "eql_outside_disk")?;
    let is_said = are_disks_said_by_files(rt, &path);
    let is_held = are_areas(rt, &path);
    drop(path);
    Ok(is_said? && is_held?)
}

#[test]
fn file_disk_keeps_bytes_in_two_files(rt: HostRuntime) {
    see_true(&rt, are_disks_kept(&rt));
}

/// Whether a shelf whose second call fails, and whose disk is held so, says this, then that it failed, and then this.
fn is_held_said<H: Shelf>(alloc: Global, shelf: &mut H, says: &str) -> Result<bool, Memory> {
    let name = String::from_str(alloc, "c")?;
    let is_right = is_said_of_disk(alloc, shelf, &name, &[], says, 0)
        && is_said_of_disk(alloc, shelf, &name, &[], "failed", 1)
        && is_said_of_disk(alloc, shelf, &name, &[], says, 1);
    drop(name);
    Ok(is_right)
}

/// Why the disk of a shelf in memory is held, and what the shelf says then.
static HELD: &[(DiskHeld, &str)] = &[
    (DiskHeld::Busy, "busy"),
    (DiskHeld::Shared(Area::A), "first shared"),
    (DiskHeld::Shared(Area::B), "second shared"),
];

/// Whether a shelf whose disk is held says so.
fn is_held_for(alloc: Global, why: DiskHeld, says: &str) -> Result<bool, Memory> {
    let mut shelf = shelf_of_disk(alloc)?.holding(why);
    let is_right = is_held_said(alloc, &mut shelf, says);
    drop(shelf);
    is_right
}

/// Whether that is so for each reason.
fn are_held(alloc: Global) -> Result<bool, Memory> {
    for &(why, says) in HELD {
        if !is_held_for(alloc, why, says)? {
            return Ok(false);
        }
    }
    Ok(true)
}

#[test]
fn memory_shelf_tells_that_its_disk_is_held(rt: HostRuntime) {
    see_true(&rt, are_held(rt.alloc()));
}

/// Whether of two shelves the other one says this of a disk while the first one has it, and lends it then.
fn is_busy<H: Shelf>(alloc: Global, shelf: &mut H, other: &mut H, path: &String) -> bool {
    match shelf.disk(alloc, path) {
        Ok(disk) => {
            let while_out = said_of_disk(alloc, other, path, &[]);
            shelf.give_disk(disk);
            while_out == "busy" && said_of_disk(alloc, other, path, FILLED) == "lent"
        }
        Err(_) => false,
    }
}

/// Whether that is so of two shelves of files.
fn is_busy_in_files(rt: &HostRuntime, path: &String) -> Result<bool, Memory> {
    let mut shelf = file_shelf(rt)?;
    let mut other = file_shelf(rt)?;
    let is_right = is_busy(rt.alloc(), &mut shelf, &mut other, path);
    drop(other);
    drop(shelf);
    Ok(is_right)
}

/// Whether one run at a time has a disk, and the files of its areas hold what the second one wrote.
fn is_one_at_a_time(rt: &HostRuntime) -> Result<bool, Memory> {
    let path = own_path(rt, "eql_outside_busy")?;
    let is_busy = is_busy_in_files(rt, &path);
    let is_held = are_areas(rt, &path);
    drop(path);
    Ok(is_busy? && is_held?)
}

#[test]
fn file_disk_is_of_one_run_at_a_time(rt: HostRuntime) {
    see_true(&rt, is_one_at_a_time(&rt));
}

/// A link that stands where a file of a disk is looked for.
struct Linked {
    /// The end of its name.
    area: &'static str,
    /// The end of the name of the file to which it leads: that of the log, or of the first area.
    to: &'static str,
    /// Whether it is a symbolic link, and not a second name of the file.
    is_symbolic: bool,
    /// What a shelf says of the disk.
    says: &'static str,
}

/// A link from here to there, and what a shelf says of the disk.
macro_rules! linked {
    ($area:expr, $to:expr, $is_symbolic:expr, $says:expr) => {
        Linked {
            area: $area,
            to: $to,
            is_symbolic: $is_symbolic,
            says: $says,
        }
    };
}

/// Links to a log and between the areas.
static LINKED: &[Linked] = &[
    linked!(".0", ".log", false, "first shared"),
    linked!(".0", ".log", true, "first shared"),
    linked!(".1", ".log", false, "second shared"),
    linked!(".1", ".log", true, "second shared"),
    linked!(".1", ".0", false, "second shared"),
    linked!(".1", ".0", true, "second shared"),
];

/// The path with this end.
fn ending(alloc: Global, path: &String, end: &str) -> Result<String, Memory> {
    Ok(format!(in alloc; "{}{}", path, end)?)
}

/// Whether a link is made.
fn is_linked(rt: &HostRuntime, path: &String, linked: &Linked) -> Result<bool, Memory> {
    let to = ending(rt.alloc(), path, linked.to)?;
    let link = ending(rt.alloc(), path, linked.area)?;
    let is_written = fs::write(rt, &to, "abcd").is_ok();
    let made = if linked.is_symbolic {
        symlink(rt, &to, &link)
    } else {
        fs::hard_link(rt, &to, &link)
    };
    let is_made = made.is_ok();
    drop(link);
    drop(to);
    Ok(is_written && is_made)
}

/// What a shelf says of the disk once it has lent the log, if there is one, and got it back.
fn said_behind_the_log<H: Shelf>(
    alloc: Global,
    shelf: &mut H,
    path: &String,
) -> Result<&'static str, Memory> {
    let log = ending(alloc, path, ".log")?;
    let of_log = said_of_file(alloc, shelf, &log, &[]);
    drop(log);
    if of_log == "failed" {
        return Ok("no log");
    }
    Ok(said_of_disk(alloc, shelf, path, FILLED))
}

/// What a new shelf of files says so.
fn said_by_files(rt: &HostRuntime, path: &String) -> Result<&'static str, Memory> {
    let mut shelf = file_shelf(rt)?;
    let says = said_behind_the_log(rt.alloc(), &mut shelf, path);
    drop(shelf);
    says
}

/// Whether the file with this end holds what was written there first.
fn is_untouched(rt: &HostRuntime, path: &String, end: &str) -> Result<bool, Memory> {
    let file = ending(rt.alloc(), path, end)?;
    let is_right = is_held(rt, &file, "abcd");
    drop(file);
    Ok(is_right)
}

/// Removes a file, if it is there.
fn remove(rt: &HostRuntime, path: &String, end: &str) -> Result<(), Memory> {
    let file = ending(rt.alloc(), path, end)?;
    let _ = fs::remove_file(rt, &file);
    drop(file);
    Ok(())
}

/// Removes the log and the files of the areas.
fn remove_all(rt: &HostRuntime, path: &String) -> Result<(), Memory> {
    remove(rt, path, ".log")?;
    remove(rt, path, ".0")?;
    remove(rt, path, ".1")
}

/// Whether a shelf says what it should of a disk with such a link, and the file to which that leads is untouched.
fn is_refused(rt: &HostRuntime, path: &String, linked: &Linked) -> Result<bool, Memory> {
    let is_linked = is_linked(rt, path, linked)?;
    let says = said_by_files(rt, path)?;
    let is_untouched = is_untouched(rt, path, linked.to)?;
    remove_all(rt, path)?;
    Ok(is_linked && is_untouched && says == linked.says)
}

/// Whether that is so of each link.
fn are_refused(rt: &HostRuntime) -> Result<bool, Memory> {
    let path = own_path(rt, "eql_outside_linked")?;
    for linked in LINKED {
        if !is_refused(rt, &path, linked)? {
            return Ok(false);
        }
    }
    drop(path);
    Ok(true)
}

#[test]
fn file_disk_has_no_area_in_a_file_that_is_in_use(rt: HostRuntime) {
    see_true(&rt, are_refused(&rt));
}
