//! Two cuts of one run in each of the four formats, written by hand, and the disk that holds them.
//!
//! The run searches the eleven events of the example of sequences in the EQL syntax reference, a line each, with a slack of
//! 0 and a line at a time. It keeps a cut after five lines and after ten. The digests of what it read were worked out by another
//! program.
use crate::tests::bytes::push_bytes;
use Part::{Bytes, Digest, Place, Upper};
use eql_digest::checksum;
use eql_outside::MemDisk;
use std::alloc::{AllocError, Global};
use std::test::Fail;

/// A part of the text of a cut.
#[derive(Clone, Copy)]
enum Part {
    /// Bytes that all formats have, as [`push_bytes`] reads them.
    Bytes(&'static str),
    /// The place of an event, in hexadecimal. Format 1 has none.
    Place(&'static str),
    /// The stages above 128, of which there are none. The formats before the third don't have them.
    Upper,
    /// The digest of what was read of a shard. Only format 4 has it.
    Digest(&'static [&'static str]),
}

/// The digest of no bytes.
static OF_NOTHING: &[&str] = &[
    "08c9bcf367e6096a 3ba7ca8485ae67bb 2bf894fe72f36e3c f1361d5f3af54fa5",
    "d182e6ad7f520e51 1f6c3e2b8c68059b 6bbd41fbabd9831f 79217e1319cde05b",
    "0000000000000000 0000000000000000",
];

/// What the cuts say of their run.
static HEAD: &[Part] = &[
    // The query, of 159 bytes.
    Bytes("9f00000000000000 'sequence by `user.name` '"),
    Bytes("'[\"process\" where (`process.name` == \"attrib\")] '"),
    Bytes("'[\"process\" where (`process.name` == \"bash\")] '"),
    Bytes("'[\"process\" where (`process.name` == \"cat\")]'"),
    // The mapping: 1 long, 2 keyword, 3 ip.
    Bytes("0a00000000000000 0e00000000000000 'destination.ip' 03"),
    Bytes("1000000000000000 'destination.port' 01 0a00000000000000 'event.type' 02"),
    Bytes("0800000000000000 'file.pid' 01 0700000000000000 'host.id' 02"),
    Bytes("1200000000000000 'process.args_count' 01"),
    Bytes("0c00000000000000 'process.name' 02 0b00000000000000 'process.pid' 01"),
    Bytes("0700000000000000 'user.id' 02 0900000000000000 'user.name' 02"),
    // No tiebreaker, a slack of 0, a shard.
    Bytes("00"),
    Bytes("0000000000000000"),
    Bytes("01000000"),
];

/// The cut after five lines.
static AFTER_FIVE: &[Part] = &[
    // The mark, 5 s. The lane: 506 bytes, open, best 5 s; 5 lines, all accepted.
    Bytes("00f2052a010000000000000000000000"),
    Bytes("0100000000000000 fa01000000000000"),
    Digest(&[
        "c28d5cde2fd48fb8 beb93d8a45329516 adb914de25d2de5d 4fd1483406ba8747",
        "da969714ebe67643 f7a1fae79db50008 bfcf1008e39616dc 6a67e38900817004",
        "7d0a000000000000 fa01000000000000",
    ]),
    Bytes("00 01 00f2052a010000000000000000000000"),
    Bytes("05000000 05000000 00000000 00000000 00"),
    // Its event at 5 s, of line 5 at 406: of root, stage 2.
    Bytes("0100000000000000"),
    Bytes("00f2052a010000000000000000000000 00 00000000 05000000"),
    Place("9601000000000000"),
    Bytes("0100000000000000 0100000000000000 03 0400000000000000 'root'"),
    Bytes("02000000000000000000000000000000"),
    Upper,
    Bytes("00"),
    // Pending, of root: the lines 2 at 102 and 4 at 306.
    Bytes("0100000000000000"),
    Bytes("0100000000000000 03 0400000000000000 'root' 02000000 0200000000000000"),
    Bytes("00943577000000000000000000000000 00 00000000 02000000"),
    Place("6600000000000000"),
    Bytes("00286bee000000000000000000000000 00 00000000 04000000"),
    Place("3201000000000000"),
    // None found, none listed, no pipes.
    Bytes("0000000000000000 0000000000000000"),
    Bytes("0000000000000000"),
];

/// The cut after ten lines.
static AFTER_TEN: &[Part] = &[
    // The mark, 10 s. The lane: 1015 bytes, open, best 10 s; 10 lines, all accepted.
    Bytes("00e40b54020000000000000000000000"),
    Bytes("0100000000000000 f703000000000000"),
    Digest(&[
        "d6c7e2e45a960a83 28ca02ab40785760 bc5b693987910305 766b39ef44f8bd41",
        "1a0dc27192c3c4b6 1ca0f48974bf043b 607b544f017d4678 9ce36d776e60b7c4",
        "636174227d7d0a00 f703000000000000",
    ]),
    Bytes("00 01 00e40b54020000000000000000000000"),
    Bytes("0a000000 0a000000 00000000 00000000 00"),
    // Its event at 10 s, of line 10 at 913: of elkbee, stage 3.
    Bytes("0100000000000000"),
    Bytes("00e40b54020000000000000000000000 00 00000000 0a000000"),
    Place("9103000000000000"),
    Bytes("0100000000000000 0100000000000000 03 0600000000000000 'elkbee'"),
    Bytes("04000000000000000000000000000000"),
    Upper,
    Bytes("00"),
    // Pending, of elkbee: the lines 6 at 506 and 8 at 712.
    Bytes("0200000000000000"),
    Bytes("0100000000000000 03 0600000000000000 'elkbee' 02000000 0200000000000000"),
    Bytes("00bca065010000000000000000000000 00 00000000 06000000"),
    Place("fa01000000000000"),
    Bytes("0050d6dc010000000000000000000000 00 00000000 08000000"),
    Place("c802000000000000"),
    // Pending, of root: the line 7 at 610.
    Bytes("0100000000000000 03 0400000000000000 'root' 01000000 0100000000000000"),
    Bytes("00863ba1010000000000000000000000 00 00000000 07000000"),
    Place("6202000000000000"),
    // One found, one listed, no pipes.
    Bytes("0100000000000000 0100000000000000"),
    Bytes("0000000000000000"),
];

/// One of the two cuts.
#[derive(Clone, Copy)]
pub enum Kept {
    /// After five lines.
    AfterFive,
    /// After ten lines.
    AfterTen,
}

/// How a cut is written as a text.
#[derive(Clone, Copy)]
pub struct Form {
    /// The format, 1 to 4.
    pub format: u8,
    /// The format that the text tells, which another one would have.
    pub told: u8,
    /// Whether the places are known. Else each is 0.
    pub placed: bool,
    /// Whether the digest is known. Else it is that of no bytes.
    pub digested: bool,
}

impl Form {
    /// The text of this format.
    pub fn of(format: u8) -> Form {
        Form {
            format,
            told: format,
            placed: true,
            digested: true,
        }
    }
}

/// Puts the bytes of several notations.
fn push_all(bytes: &mut Vec<u8>, notations: &[&str]) -> Result<(), AllocError> {
    for notation in notations {
        push_bytes(bytes, *notation)?;
    }
    Ok(())
}

/// Puts those of the parts that a form has.
fn push_parts(bytes: &mut Vec<u8>, parts: &[Part], form: Form) -> Result<(), AllocError> {
    for part in parts {
        match *part {
            Bytes(notation) => push_bytes(bytes, notation)?,
            Place(place) if form.format > 1 && form.placed => push_bytes(bytes, place)?,
            Place(_) if form.format > 1 => push_bytes(bytes, "0000000000000000")?,
            Upper if form.format > 2 => push_bytes(bytes, "00000000000000000000000000000000")?,
            Digest(numbers) if form.format > 3 && form.digested => push_all(bytes, numbers)?,
            Digest(_) if form.format > 3 => push_all(bytes, OF_NOTHING)?,
            Place(_) | Upper | Digest(_) => {}
        }
    }
    Ok(())
}

/// The text of a cut.
pub fn text_of(alloc: Global, kept: Kept, form: Form) -> Result<Vec<u8>, AllocError> {
    let mut bytes = Vec::new(alloc);
    push_bytes(&mut bytes, "'EQLC'")?;
    bytes.push(form.told)?;
    push_parts(&mut bytes, HEAD, form)?;
    match kept {
        Kept::AfterFive => push_parts(&mut bytes, AFTER_FIVE, form)?,
        Kept::AfterTen => push_parts(&mut bytes, AFTER_TEN, form)?,
    }
    if form.format > 3 {
        let sum = checksum(&bytes);
        bytes.extend_from_slice(&sum.to_le_bytes())?;
    }
    Ok(bytes)
}

/// An area whose gate is this byte, with this generation and a text of which it says this length, in bytes.
pub fn area_of(
    alloc: Global,
    gate: u8,
    generation: u64,
    length: u64,
    text: &[u8],
) -> Result<Vec<u8>, AllocError> {
    let mut bytes = Vec::new(alloc);
    bytes.push(gate)?;
    bytes.extend_from_slice(&generation.to_le_bytes())?;
    bytes.extend_from_slice(&length.to_le_bytes())?;
    bytes.extend_from_slice(text)?;
    Ok(bytes)
}

/// The disk that the run left in a format: the cut after five lines in the first area with generation 1, and the cut after
/// ten lines in the second with generation 2.
pub fn disk_in(alloc: Global, format: u8) -> Result<MemDisk, Fail> {
    let five = text_of(alloc, Kept::AfterFive, Form::of(format))?;
    let ten = text_of(alloc, Kept::AfterTen, Form::of(format))?;
    let a = area_of(alloc, 1, 1, five.len() as u64, &five)?;
    let b = area_of(alloc, 1, 2, ten.len() as u64, &ten)?;
    Ok(MemDisk::new(alloc, a, b, Vec::new(alloc), None)?)
}
