//! The files that words name: a query and a mapping as long as they may be, and shards of which one isn't there.
use eql_inputs::{InputError, read_checked, tell_error};
use eql_outside::{MemDisk, MemFile, MemShelf, MemSink, MemSource, Shelf, Source};
use eql_shards::open_shards;
use eql_values::Memory;
use eql_words::{Name, Names};
use std::alloc::{AllocError, Global};

/// A query of 47 bytes, and a mapping of 2 that it can be checked against.
static QUERY: &str = "sequence [process where true] [file where true]";

static FIELDS: &str = "{}";

/// A file of a text with blanks behind it, up to so many bytes. Its takes give 50,000 bytes at most, and those of these
/// numbers fail.
fn file(
    alloc: Global,
    name: &str,
    text: &str,
    len: usize,
    fails: &[u64],
) -> Result<MemFile, AllocError> {
    let mut bytes = Vec::from_slice(alloc, text.as_bytes())?;
    bytes.resize(len, b' ')?;
    Ok(MemFile {
        name: String::from_str(alloc, name)?,
        bytes,
        piece: 50000,
        fails: Vec::from_slice(alloc, fails)?,
    })
}

/// A shelf of these files, of which the calls of these numbers fail.
fn shelf_of(alloc: Global, files: Vec<MemFile>, fails: &[u64]) -> Result<MemShelf, Memory> {
    let area = Vec::new(alloc);
    let other = Vec::new(alloc);
    let disk = MemDisk::new(alloc, area, other, Vec::new(alloc), None)?;
    MemShelf::new(alloc, files, disk, Vec::from_slice(alloc, fails)?)
}

/// The names of files, with a space between each two.
fn names_of(alloc: Global, names: &str) -> Result<Names, AllocError> {
    let mut items = Vec::new(alloc);
    for name in names.split(' ') {
        items.push(Name::of(String::from_str(alloc, name)?))?;
    }
    Ok(Names::of(items))
}

/// Whether the reading stopped with this status and this line.
fn is_error(alloc: Global, error: &InputError, status: u8, line: &str) -> bool {
    let mut err = MemSink::new(alloc, Vec::new(alloc));
    tell_error(alloc, error, &mut err);
    err.bytes().as_slice() == line.as_bytes() && error.status() == status
}

/// A query and a mapping of a length, the numbers of the takes of the mapping that fail, and what comes of their reading.
struct Row {
    query: usize,
    fields: usize,
    fails: &'static [u64],
    status: u8,
    line: &'static str,
}

static ROWS: &[Row] = &[
    Row {
        query: 47,
        fields: 2,
        fails: &[],
        status: 0,
        line: "",
    },
    Row {
        query: 65536,
        fields: 4194304,
        fails: &[],
        status: 0,
        line: "",
    },
    Row {
        query: 65537,
        fields: 2,
        fails: &[],
        status: 3,
        line: "lex: TooLong\n",
    },
    Row {
        query: 200000,
        fields: 4194305,
        fails: &[],
        status: 3,
        line: "lex: TooLong\n",
    },
    Row {
        query: 47,
        fields: 4194305,
        fails: &[],
        status: 3,
        line: "mapping: MapLong\n",
    },
    Row {
        query: 47,
        fields: 65536,
        fails: &[2],
        status: 4,
        line: "read fault: f\n",
    },
    // the mapping isn't read
    Row {
        query: 65537,
        fields: 65536,
        fails: &[2],
        status: 3,
        line: "lex: TooLong\n",
    },
];

/// The shelf of a row.
fn shelf_of_row(alloc: Global, row: &Row) -> Result<MemShelf, Memory> {
    let query = file(alloc, "q", QUERY, row.query, &[])?;
    let fields = file(alloc, "f", FIELDS, row.fields, row.fails)?;
    shelf_of(alloc, vec![in alloc; query, fields]?, &[])
}

/// Whether the query and the mapping of a row are read from its shelf, or its line tells why not.
fn is_read(alloc: Global, names: &[Name], shelf: &mut MemShelf, row: &Row) -> bool {
    let [query, fields] = names else {
        return false;
    };
    match read_checked(alloc, query, fields, shelf) {
        Ok(_) => row.status == 0,
        Err(error) => is_error(alloc, &error, row.status, row.line),
    }
}

/// Whether a row is as it should be.
fn is_right(alloc: Global, row: &Row) -> Result<bool, Memory> {
    let names = names_of(alloc, "q f")?;
    let mut shelf = shelf_of_row(alloc, row)?;
    Ok(is_read(alloc, names.items(), &mut shelf, row))
}

/// The first row that isn't as it should be, from 0.
fn wrong_row(alloc: Global) -> Option<usize> {
    for (number, row) in ROWS.iter().enumerate() {
        if !matches!(is_right(alloc, row), Ok(true)) {
            return Some(number);
        }
    }
    None
}

#[test]
fn a_query_and_a_mapping_are_read_up_to_their_length(rt: HostRuntime) {
    assert_eq!(rt; wrong_row(rt.alloc()), None);
}

/// A shelf of two shards, of which the calls of these numbers fail.
fn two_shards(alloc: Global, fails: &[u64]) -> Result<MemShelf, Memory> {
    let first = file(alloc, "a", "1\n", 2, &[])?;
    let second = file(alloc, "b", "22\n", 3, &[])?;
    shelf_of(alloc, vec![in alloc; first, second]?, fails)
}

/// Takes what a source has left, up to eight bytes, and gives it back. Returns whether the bytes were taken.
fn take_all(mut source: MemSource, shelf: &mut MemShelf, read: &mut Vec<u8>) -> bool {
    let mut piece = [0u8; 8];
    let taken = source.take(&mut piece);
    shelf.give_source(source);
    match taken {
        Ok(n) => read.extend_from_slice(&piece[..n]).is_ok(),
        Err(_) => false,
    }
}

/// Whether shards hold these bytes, one behind the other.
fn hold(alloc: Global, shards: &Names, shelf: &mut MemShelf, expected: &str) -> bool {
    let mut read = Vec::new(alloc);
    match open_shards(alloc, shards, shelf) {
        Ok(sources) => {
            let mut are_taken = true;
            for source in sources {
                are_taken = take_all(source, shelf, &mut read) && are_taken;
            }
            are_taken && read.as_slice() == expected.as_bytes()
        }
        Err(_) => false,
    }
}

/// Whether two shards are opened in the order in which they are named.
fn are_in_order(alloc: Global) -> Result<bool, Memory> {
    let shards = names_of(alloc, "b a b")?;
    let mut shelf = two_shards(alloc, &[])?;
    Ok(hold(alloc, &shards, &mut shelf, "22\n1\n22\n"))
}

#[test]
fn shards_are_opened_in_their_order(rt: HostRuntime) {
    assert!(rt; matches!(are_in_order(rt.alloc()), Ok(true)));
}

/// Whether shards aren't opened, with this status and this line.
fn is_missing(alloc: Global, shards: &Names, shelf: &mut MemShelf, status: u8, line: &str) -> bool {
    match open_shards(alloc, shards, shelf) {
        Ok(_) => false,
        Err(error) => is_error(alloc, &error, status, line),
    }
}

/// Of shards of which the third and the last aren't there: the calls of the shelf that fail, and what is told.
static MISSING: &[(&[u64], u8, &str)] = &[
    (&[], 1, "no file x\n"),
    (&[2], 4, "read fault: b\n"),
    (&[4], 1, "no file x\n"),
];

/// Whether the first shard that doesn't open is told.
fn is_told(alloc: Global, (fails, status, line): &(&[u64], u8, &str)) -> Result<bool, Memory> {
    let shards = names_of(alloc, "a b x a y")?;
    let mut shelf = two_shards(alloc, fails)?;
    Ok(is_missing(alloc, &shards, &mut shelf, *status, line))
}

#[test]
fn the_first_shard_that_does_not_open_is_told(rt: HostRuntime) {
    for row in MISSING {
        assert!(rt; matches!(is_told(rt.alloc(), row), Ok(true)));
    }
}
