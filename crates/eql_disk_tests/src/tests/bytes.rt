//! Bytes that were written by hand: the text of a small cut, and areas that hold it.
ghost use Rattle.std.specs.Prelude.{IfOk};
ghost use Rattle.eql_cut.specs.Domain.{IsCut};

use eql_cut::{Cut, decode};
use eql_outside::MemDisk;
use std::alloc::{AllocError, Global};
use std::test::Fail;

/// The text of a cut whose mark is 1 to 3, in hexadecimal: the query `q`, no mapping, no tiebreaker, a slack of 5, no
/// shards; the mark, whose first byte stands between these two; no lanes, nothing pending, nothing found, no pipes. It
/// has 99 bytes, of which 35 stand before the mark, and the last 8 are the checksum.
const BEFORE_MARK: &str =
    "45514c4304 0100000000000000 71 0000000000000000 00 0500000000000000 00000000";

const BEHIND_MARK: &str = "000000000000000000000000000000 0000000000000000 0000000000000000
    0000000000000000 0000000000000000 0000000000000000";

/// The checksum of the text with this mark. It was worked out by another program.
fn checksum_with(mark: u8) -> &'static str {
    match mark {
        1 => "3506c7f39a54966b",
        2 => "29704b1b67f4b773",
        _ => "dd5dcfbc3394a87b",
    }
}

/// The value of a hexadecimal digit, where it is one.
fn digit(byte: u8) -> Option<u8> {
    match byte {
        b'0'..=b'9' => Some(byte - b'0'),
        b'a'..=b'f' => Some(byte - b'a' + 10),
        _ => None,
    }
}

/// Puts the bytes of a text in hexadecimal, in which white space may stand.
pub(crate) fn push_hex(bytes: &mut Vec<u8>, hex: &str) -> Result<(), AllocError> {
    let mut high = None;
    for byte in hex.as_bytes() {
        if let Some(low) = digit(*byte) {
            match high {
                None => high = Some(low),
                Some(first) => {
                    bytes.push((first << 4) | low)?;
                    high = None;
                }
            }
        }
    }
    Ok(())
}

/// Puts the bytes of a notation: hexadecimal, and in quotes texts as they are.
pub(crate) fn push_bytes(bytes: &mut Vec<u8>, notation: &str) -> Result<(), AllocError> {
    let mut is_text = false;
    for piece in notation.split('\'') {
        if is_text {
            bytes.extend_from_slice(piece.as_bytes())?;
        } else {
            push_hex(bytes, piece)?;
        }
        is_text = !is_text;
    }
    Ok(())
}

/// Puts the text of the cut with this mark.
fn push_text(bytes: &mut Vec<u8>, mark: u8) -> Result<(), AllocError> {
    push_hex(bytes, BEFORE_MARK)?;
    bytes.push(mark)?;
    push_hex(bytes, BEHIND_MARK)?;
    push_hex(bytes, checksum_with(mark))
}

/// The bytes of a text in hexadecimal, in which a letter `T`, `U` or `V` stands for the text of the cut with the mark 1,
/// 2 or 3.
pub(crate) fn bytes_of(alloc: Global, hex: &str) -> Result<Vec<u8>, AllocError> {
    let mut bytes = Vec::new(alloc);
    for (mark, letter) in [(1, 'T'), (2, 'U'), (3, 'V')] {
        if let Some((before, behind)) = hex.split_once(letter) {
            push_hex(&mut bytes, before)?;
            push_text(&mut bytes, mark)?;
            push_hex(&mut bytes, behind)?;
            return Ok(bytes);
        }
    }
    push_hex(&mut bytes, hex)?;
    Ok(bytes)
}

/// The cut with this mark.
pub(crate) fn cut_of(alloc: Global, mark: u8) -> Result<Cut, Fail>
    ensures { IfOk result IsCut }
{
    let mut text = Vec::new(alloc);
    push_text(&mut text, mark)?;
    match decode(alloc, &text) {
        Ok(read) => Ok(read.cut),
        Err(_) => Err(Fail::from("the text is no cut's")),
    }
}

/// A disk with these areas, whose calls from a number on fail.
pub(crate) fn disk_of(alloc: Global, a: &str, b: &str, stop: Option<u64>) -> Result<MemDisk, Fail> {
    let (a, b) = (bytes_of(alloc, a)?, bytes_of(alloc, b)?);
    Ok(MemDisk::new(alloc, a, b, Vec::new(alloc), stop)?)
}
