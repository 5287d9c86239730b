//! What a recovery finds on disks whose cuts have texts of several formats, and what a put writes there.
ghost use Rattle.eql_ckdisk.specs.Recovering.{IsSound};

use crate::tests::cuts::Kept::{AfterFive, AfterTen};
use crate::tests::cuts::{Form, Kept, area_of, disk_in, text_of};
use Finds::{Cut, Damaged};
use eql_ckdisk::{CkRefused, Recovered, put, recover};
use eql_cut::encode;
use eql_outside::{Area, MemDisk};
use std::alloc::{AllocError, Global};
use std::test::Fail;

/// An area that holds a cut.
#[derive(Clone, Copy)]
struct Held {
    gate: u8,
    generation: u64,
    kept: Kept,
    form: Form,
    /// How many bytes the length says more than the text has.
    more: u64,
    /// How many bytes it says less.
    less: u64,
    /// The place of a byte of the text of which a bit is turned round.
    turned: Option<usize>,
}

impl Held {
    /// An open area with this generation that holds a cut in a format.
    fn new(generation: u64, kept: Kept, format: u8) -> Held {
        Held {
            gate: 1,
            generation,
            kept,
            form: Form::of(format),
            more: 0,
            less: 0,
            turned: None,
        }
    }

    /// The same, closed.
    fn closed(self) -> Held {
        Held { gate: 0, ..self }
    }

    /// The same, where the text tells this format.
    fn telling(self, told: u8) -> Held {
        Held {
            form: Form { told, ..self.form },
            ..self
        }
    }

    /// The same, where the length says so many bytes more.
    fn longer(self, more: u64) -> Held {
        Held { more, ..self }
    }

    /// The same, where the length says so many bytes less.
    fn shorter(self, less: u64) -> Held {
        Held { less, ..self }
    }

    /// The same, where a bit of the byte at this place of the text is turned round.
    fn turned(self, at: usize) -> Held {
        Held {
            turned: Some(at),
            ..self
        }
    }

    /// The text, as the area has it.
    fn text(self, alloc: Global) -> Result<Vec<u8>, Fail> {
        let mut text = text_of(alloc, self.kept, self.form)?;
        if let Some(at) = self.turned {
            if let Some(byte) = text.get_mut(at) {
                *byte ^= 1;
            }
        }
        Ok(text)
    }

    /// The bytes of the area.
    fn bytes(self, alloc: Global) -> Result<Vec<u8>, Fail> {
        let text = self.text(alloc)?;
        let length = (text.len() as u64)
            .saturating_add(self.more)
            .saturating_sub(self.less);
        Ok(area_of(alloc, self.gate, self.generation, length, &text)?)
    }
}

/// What a recovery finds.
#[derive(Clone, Copy)]
enum Finds {
    /// This cut in this format, in this area with this generation.
    Cut(Kept, u8, Area, u64),
    /// A damaged area, and the place in its text.
    Damaged(u32, u64),
}

/// The areas, and what is found.
#[derive(Clone, Copy)]
struct Row {
    name: &'static str,
    a: Held,
    b: Held,
    finds: Finds,
}

fn disk_row(name: &'static str, a: Held, b: Held, finds: Finds) -> Row {
    Row { name, a, b, finds }
}

/// Where several cuts stand, the one that counts.
fn counting_rows() -> [Row; 10] {
    let first = Held::new(1, AfterFive, 1);
    [
        disk_row(
            "all of format 1, area 1 closed",
            first,
            Held::new(2, AfterTen, 1).closed(),
            Cut(AfterFive, 1, Area::A, 1),
        ),
        disk_row(
            "all of format 2, area 1 closed",
            Held::new(1, AfterFive, 2),
            Held::new(2, AfterTen, 2).closed(),
            Cut(AfterFive, 2, Area::A, 1),
        ),
        disk_row(
            "format 2 over format 1",
            first,
            Held::new(2, AfterTen, 2),
            Cut(AfterTen, 2, Area::B, 2),
        ),
        disk_row(
            "format 3 over format 1",
            first,
            Held::new(2, AfterTen, 3),
            Cut(AfterTen, 3, Area::B, 2),
        ),
        disk_row(
            "format 4 over format 1",
            first,
            Held::new(2, AfterTen, 4),
            Cut(AfterTen, 4, Area::B, 2),
        ),
        disk_row(
            "format 4 over format 3",
            Held::new(1, AfterFive, 3),
            Held::new(2, AfterTen, 4),
            Cut(AfterTen, 4, Area::B, 2),
        ),
        disk_row(
            "the greater generation in the older format",
            Held::new(3, AfterFive, 1),
            Held::new(2, AfterTen, 4),
            Cut(AfterFive, 1, Area::A, 3),
        ),
        disk_row(
            "equal generations in several formats",
            Held::new(7, AfterTen, 2),
            Held::new(7, AfterFive, 1),
            Cut(AfterTen, 2, Area::A, 7),
        ),
        disk_row(
            "an older area that is damaged",
            first.telling(0),
            Held::new(2, AfterTen, 1),
            Cut(AfterTen, 1, Area::B, 2),
        ),
        disk_row(
            "a closed area that is damaged",
            Held::new(9, AfterFive, 4).telling(5).closed(),
            Held::new(2, AfterTen, 2),
            Cut(AfterTen, 2, Area::B, 2),
        ),
    ]
}

/// An area 1 that counts and is damaged at this place, over a whole one in format 1.
fn damaged_row(name: &'static str, b: Held, at: u64) -> Row {
    disk_row(name, Held::new(1, AfterFive, 1), b, Damaged(1, at))
}

/// Damaged texts. Where one tells another format, what is read as a place, as a digest, as a number of routes or as stages above
/// 128 is what stands there in its own format, up to a byte that can't be read. A text in format 4 with any bit turned round has
/// another checksum, which stands at 846.
fn damaged_rows() -> [Row; 23] {
    let first = Held::new(2, AfterTen, 1);
    let second = Held::new(2, AfterTen, 2);
    let third = Held::new(2, AfterTen, 3);
    let fourth = Held::new(2, AfterTen, 4);
    [
        damaged_row("format 1 told as 0", first.telling(0), 4),
        damaged_row("format 4 told as 5", fourth.telling(5), 4),
        // In place of a truth value stands the first byte of the digest.
        damaged_row("format 4 told as 3", fourth.telling(3), 427),
        // In place of a value's kind stands a byte of the time of line 6.
        damaged_row("format 3 told as 4", third.telling(4), 644),
        // In place of a value's kind stands the first letter of the key of the lane's event.
        damaged_row("format 1 told as 2", first.telling(2), 520),
        damaged_row("format 1 told as 3", first.telling(3), 520),
        // In place of a truth value stands the second letter of that key.
        damaged_row("format 2 told as 1", second.telling(1), 529),
        damaged_row("format 3 told as 1", third.telling(1), 529),
        // In place of a value's kind stands a byte of the time of line 6.
        damaged_row("format 2 told as 3", second.telling(3), 595),
        // In place of a pipe's kind stands the kind of the first value of a key.
        damaged_row("format 3 told as 2", third.telling(2), 583),
        damaged_row("a byte of format 1 less", first.shorter(1), 710),
        damaged_row("a byte of format 2 less", second.shorter(1), 742),
        damaged_row("a byte of format 3 less", third.shorter(1), 758),
        damaged_row("a byte of format 4 less", fourth.shorter(1), 846),
        damaged_row("no checksum", fourth.shorter(8), 846),
        damaged_row("a bit of the mark", fourth.turned(395), 846),
        damaged_row("a bit of the offset", fourth.turned(419), 846),
        damaged_row("a bit of the digest", fourth.turned(427), 846),
        damaged_row("a bit of the checksum", fourth.turned(853), 846),
        damaged_row("the head of format 1 alone", first.shorter(713), 5),
        damaged_row("format 1 without its end", first.longer(1), 0),
        damaged_row("format 2 without its end", second.longer(1), 0),
        damaged_row(
            "a generation above the greatest",
            Held::new(9_223_372_036_854_775_809, AfterTen, 2),
            0,
        ),
    ]
}

/// The text in format 4 of a cut that was read in a format: in the first its places are 0, and in the first three its digest is
/// that of no bytes.
fn fourth_of(alloc: Global, kept: Kept, format: u8) -> Result<Vec<u8>, AllocError> {
    let fourth = Form::of(4);
    text_of(
        alloc,
        kept,
        Form {
            placed: format > 1,
            digested: format > 3,
            ..fourth
        },
    )
}

/// Whether this cut in this format was found, by its text in format 4.
fn is_cut(alloc: Global, found: &Recovered, kept: Kept, format: u8) -> Result<bool, Fail>
    requires { IsSound found.now }
{
    let Some(cut) = &found.cut else {
        return Ok(false);
    };
    let Ok(text) = encode(alloc, cut) else {
        return Err(Fail::from("memory"));
    };
    let fourth = fourth_of(alloc, kept, format)?;
    Ok(found.format == format && text.as_slice() == fourth.as_slice())
}

/// Whether this was found.
fn is_as(alloc: Global, found: &Recovered, expected: Finds) -> Result<bool, Fail>
    requires { IsSound found.now }
{
    match expected {
        Cut(kept, format, area, generation) => Ok(
            is_cut(alloc, found, kept, format)?
                && found.state.area() == area
                && found.state.generation() == generation,
        ),
        Damaged(_, _) => Ok(false),
    }
}

/// Whether a recovery of the disk finds this.
fn is_found(alloc: Global, disk: MemDisk, expected: Finds) -> Result<bool, Fail> {
    let mut disk = disk;
    let recovered = recover(alloc, &mut disk);
    drop(disk);
    match recovered {
        Ok(found) => {
            let is_as = is_as(alloc, &found, expected);
            drop(found);
            is_as
        }
        Err(refused) => match expected {
            Damaged(area, at) => Ok(refused == CkRefused::Damaged { area, at }),
            Cut(_, _, _, _) => Ok(false),
        },
    }
}

/// The name of the first of these rows whose disk a recovery finds otherwise, or nothing where there is none.
fn wrong_row(alloc: Global, rows: &[Row]) -> Result<&'static str, Fail> {
    for row in rows {
        let (a, b) = (row.a.bytes(alloc)?, row.b.bytes(alloc)?);
        let disk = MemDisk::new(alloc, a, b, Vec::new(alloc), None)?;
        if !is_found(alloc, disk, row.finds)? {
            return Ok(row.name);
        }
    }
    Ok("")
}

#[test]
fn one_of_several_formats_counts(rt: HostRuntime) -> Result<(), Fail> {
    assert_eq!(rt; wrong_row(rt.alloc(), &counting_rows())?, "");
    Ok(())
}

#[test]
fn texts_in_another_format_are_damaged(rt: HostRuntime) -> Result<(), Fail> {
    assert_eq!(rt; wrong_row(rt.alloc(), &damaged_rows())?, "");
    Ok(())
}

#[test]
fn disk_of_each_format_is_found(rt: HostRuntime) -> Result<(), Fail> {
    let alloc = rt.alloc();
    for format in 1..=4u8 {
        let disk = disk_in(alloc, format)?;
        let newer = Cut(AfterTen, format, Area::B, 2);
        assert!(rt; is_found(alloc, disk, newer)?, "format {format}");
    }
    Ok(())
}

/// Puts the cut that a disk holds again.
fn put_again(alloc: Global, disk: &mut MemDisk) -> Result<(), Fail> {
    let Ok(found) = recover(alloc, disk) else {
        return Err(Fail::from("refused"));
    };
    let mut state = found.state;
    let answer = match &found.cut {
        Some(cut) => Some(put(alloc, disk, &mut state, cut)),
        None => None,
    };
    drop(found);
    match answer {
        Some(Ok(())) => Ok(()),
        Some(Err(_)) => Err(Fail::from("refused")),
        None => Err(Fail::from("no cut")),
    }
}

/// The bytes of both areas of the disk of a format once what it holds was put again: the older area has the cut in format 4
/// with the generation 3.
fn areas_after_put(alloc: Global, format: u8) -> Result<(Vec<u8>, Vec<u8>), Fail> {
    let mut disk = disk_in(alloc, format)?;
    let put = put_again(alloc, &mut disk);
    let areas = disk.crashed(alloc, 0);
    drop(disk);
    put?;
    Ok(areas?)
}

#[test]
fn puts_write_format_4(rt: HostRuntime) -> Result<(), Fail> {
    let alloc = rt.alloc();
    for format in 1..=4u8 {
        let (a, b) = areas_after_put(alloc, format)?;
        let fourth = fourth_of(alloc, AfterTen, format)?;
        let newer = area_of(alloc, 1, 3, fourth.len() as u64, &fourth)?;
        assert_eq!(rt; a.as_slice(), newer.as_slice());
        let older = Held::new(2, AfterTen, format).bytes(alloc)?;
        assert_eq!(rt; b.as_slice(), older.as_slice());
    }
    Ok(())
}
