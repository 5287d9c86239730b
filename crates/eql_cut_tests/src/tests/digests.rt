//! The checksum of a text, and the digest of bytes that come in pieces.
//!
//! What is expected was worked out apart from the program: a checksum as the rest of one long division, and a digest from
//! whole words.
ghost use Rattle.std.specs.Prelude.{◌<◌, length};

use eql_digest::{Digest, checksum};

/// Texts, each with its checksum and its digest.
static ROWS: &[(&[u8], u64, u64)] = &[
    (b"", 0x0000_0000_0000_0000, 0x7A50_C336_4310_DE87),
    (b"a", 0x3302_8477_2E65_2B05, 0x76BD_8A28_2F67_9E61),
    (b"\0", 0x1FAD_A173_6467_3F59, 0xDC19_497C_C3C6_6272),
    (b"12345678", 0x5C8B_8048_2BAC_7809, 0x89E3_26F5_CA0E_3513),
    (b"123456789", 0x995D_C9BB_DF19_39FA, 0xB653_FD90_5825_4228),
    (
        b"eight lanes take sixty-four bytes, and here is one more word for the first of them, and a rest",
        0x17F3_E7CB_1D8C_DBED,
        0x15D6_198C_498D_BC07,
    ),
];

/// The checksum and the digest of 300 bytes, the byte at `i` being `7 * i` without its upper bits.
const SUM: u64 = 0x0B82_DBD8_1DF3_6890;

const DIGEST: u64 = 0xA082_7686_8FA7_F32F;

fn digest_of(bytes: &[u8]) -> u64 {
    let mut digest = Digest::new();
    digest.add(bytes);
    digest.value()
}

fn rows_hold() -> bool {
    for &(text, sum, digest) in ROWS {
        if checksum(text) != sum || digest_of(text) != digest {
            return false;
        }
    }
    true
}

fn text_made() -> [u8; 300] {
    let mut text = [0; 300];
    for i in 0..300 {
        text[i] = (i * 7 % 256) as u8;
    }
    text
}

/// Whether the bytes have that digest in two pieces, the second added to a digest that is made of what is kept of the first.
fn goes_on(first: &[u8], second: &[u8]) -> bool {
    let mut before = Digest::new();
    before.add(first);
    let mut digest = Digest {
        lanes: before.lanes,
        word: before.word,
        length: before.length,
    };
    digest.add(second);
    digest.value() == DIGEST
}

fn splits_agree(text: &[u8]) -> bool {
    for at in 0..text.len() {
        if !goes_on(&text[..at], &text[at..]) {
            return false;
        }
    }
    true
}

fn pieces_agree(text: &[u8], size: usize) -> bool
    requires { 0 < size }
{
    let mut digest = Digest::new();
    for piece in text.chunks(size) {
        digest.add(piece);
    }
    digest.value() == DIGEST
}

fn sizes_agree(text: &[u8]) -> bool {
    for size in 1..140 {
        if !pieces_agree(text, size) {
            return false;
        }
    }
    true
}

/// Whether each bit of a byte, once it is turned round, is found in both.
fn bits_are_found(text: &mut [u8], at: usize) -> bool
    requires { at < length text.old }
{
    let byte = text[at];
    for bit in 0..8u32 {
        text[at] = byte ^ 1 << bit;
        if checksum(text) == SUM || digest_of(text) == DIGEST {
            return false;
        }
    }
    text[at] = byte;
    true
}

fn all_bits_are_found() -> bool {
    let mut text = text_made();
    for at in 0..300 {
        if !bits_are_found(&mut text, at) {
            return false;
        }
    }
    true
}

fn pieces_are_one() -> bool {
    let text = text_made();
    checksum(&text) == SUM && splits_agree(&text) && sizes_agree(&text)
}

#[test]
fn rows_have_their_values(rt: HostRuntime) {
    assert!(rt; rows_hold());
}

#[test]
fn pieces_make_one_value(rt: HostRuntime) {
    assert!(rt; pieces_are_one());
}

#[test]
fn bits_that_are_turned_are_found(rt: HostRuntime) {
    assert!(rt; all_bits_are_found());
}
