//! The bytes of cuts in each format, from texts in hexadecimal that were written by hand.
//!
//! A cut is one text. Each line is a part: a word that says which formats have it, and its bytes. What closes the text isn't
//! among them.
//!
//! | word | part |
//! |---|---|
//! | `1` to `3` | the first format that has it; one before has 0 there |
//! | `4` | of format 4 alone |
//! | `w` | what is written in format 4 for a part that the formats before it don't have |
//! | `a` | an address, its first byte first; the formats before the fourth have its last byte first |
//! | `f` | the byte of the format |
//! | `/` | a comment |
use eql_digest::checksum;
use std::alloc::{AllocError, Global};

/// A cut with values of all kinds.
pub static PARTS: &str = "
1 45514c43
f
// The query `q`, and the mapping: a keyword, b boolean, ip address, n long.
1 0100000000000000 71
1 0400000000000000
1 0100000000000000 61 02
1 0100000000000000 62 00
1 0200000000000000 6970 03
1 0100000000000000 6e 01
// The tiebreaker `t`, a slack of 5, 2 shards, the mark 1000, 2 lanes.
1 01 0100000000000000 74
1 0500000000000000 02000000
1 e8030000000000000000000000000000
1 0200000000000000
// The first lane: 300 bytes with their digest, open, best 1200; 9 lines, of them 4, 1 and 2; line 3 has no time.
1 2c01000000000000
4 0107060504030201 0207060504030201
4 0307060504030201 0407060504030201
4 0507060504030201 0607060504030201
4 0707060504030201 0807060504030201
4 6677889900000000 2c01000000000000
w 08c9bcf367e6096a 3ba7ca8485ae67bb
w 2bf894fe72f36e3c f1361d5f3af54fa5
w d182e6ad7f520e51 1f6c3e2b8c68059b
w 6bbd41fbabd9831f 79217e1319cde05b
w 0000000000000000 0000000000000000
1 00
1 01 b0040000000000000000000000000000
1 09000000 04000000 01000000 02000000
1 01 03000000 04
1 0200000000000000
// Its event at 1000 with the tiebreaker -2, at line 4 and place 100; a route by null,
// stages 1 and 256.
1 e8030000000000000000000000000000
1 01 feffffffffffffff 00000000 04000000
2 6400000000000000
1 0100000000000000
1 0100000000000000 00
1 01000000000000000000000000000000
3 00000000000000000000000000000080
1 00
// Its event at 1000 at line 5 and place 150; routes by true, which it ends, and by a text,
// stages 1 and 2.
1 e8030000000000000000000000000000
1 00 00000000 05000000
2 9600000000000000
1 0200000000000000
1 0100000000000000 01 01
1 00000000000000000000000000000000
3 00000000000000000000000000000000
1 01
1 0100000000000000 03 0200000000000000 c3a9
1 03000000000000000000000000000000
3 00000000000000000000000000000000
1 00
// The second lane: 77 bytes with their digest, closed, nothing else.
1 4d00000000000000
4 f0ffffffffffffff f1ffffffffffffff
4 f2ffffffffffffff f3ffffffffffffff
4 f4ffffffffffffff f5ffffffffffffff
4 f6ffffffffffffff f7ffffffffffffff
4 0000000000000000 4d00000000000000
w 08c9bcf367e6096a 3ba7ca8485ae67bb
w 2bf894fe72f36e3c f1361d5f3af54fa5
w d182e6ad7f520e51 1f6c3e2b8c68059b
w 6bbd41fbabd9831f 79217e1319cde05b
w 0000000000000000 0000000000000000
1 01 00
1 00000000 00000000 00000000 00000000 00
1 0000000000000000
// Pending by the address 10.0.0.1: one event at stage 1.
1 0200000000000000
1 0100000000000000 04
a 0a000001
1 01000000 0100000000000000
1 84030000000000000000000000000000 00 01000000 02000000
2 2800000000000000
// And two events at stage 2.
1 0100000000000000 04
a 0a000001
1 02000000 0200000000000000
1 20030000000000000000000000000000
1 01 0700000000000000 00000000 01000000
2 0000000000000000
1 84030000000000000000000000000000 00 00000000 02000000
2 3200000000000000
// 6 found, 0 listed; a head that let 6 through, and a tail that keeps the matches 5, by -1,
// and 6, of no events.
1 0600000000000000 0000000000000000
1 0200000000000000
1 00 06000000
1 01 0200000000000000
1 0500000000000000 0100000000000000 02 ffffffffffffffff 0100000000000000
1 bc020000000000000000000000000000 00 01000000 01000000
2 0000000000000000
1 0600000000000000 0000000000000000 0000000000000000";

/// The value of a hexadecimal digit, where it is one.
fn digit(byte: u8) -> Option<u8> {
    match byte {
        b'0'..=b'9' => Some(byte - b'0'),
        b'a'..=b'f' => Some(byte - b'a' + 10),
        _ => None,
    }
}

/// Puts the bytes of a text in hexadecimal, in which spaces may stand.
pub fn push_hex(bytes: &mut Vec<u8>, hex: &[u8]) -> Result<(), AllocError> {
    let mut high = None;
    for byte in hex {
        match (high, digit(*byte)) {
            (_, None) => {}
            (None, first) => high = first,
            (Some(first), Some(second)) => {
                bytes.push((first << 4) | second)?;
                high = None;
            }
        }
    }
    Ok(())
}

/// The bytes of a cut in a format, and those that it is written with in format 4, both without what closes them.
#[derive(Drop)]
pub struct Spread {
    /// Its own bytes.
    pub own: Vec<u8>,
    /// Those in format 4.
    pub fourth: Vec<u8>,
    /// Where each of its own stands among those.
    pub places: Vec<usize>,
}

impl Spread {
    /// Puts bytes that both have.
    fn push_both(&mut self, bytes: &[u8]) -> Result<(), AllocError> {
        for byte in bytes {
            self.own.push(*byte)?;
            self.places.push(self.fourth.len())?;
            self.fourth.push(*byte)?;
        }
        Ok(())
    }

    /// Puts a byte of 0 for each of these.
    fn push_zeros(&mut self, bytes: &[u8]) -> Result<(), AllocError> {
        for _ in bytes {
            self.fourth.push(0)?;
        }
        Ok(())
    }

    /// Puts bytes that format 4 has the other way round.
    fn push_turned(&mut self, bytes: &[u8]) -> Result<(), AllocError> {
        let start = self.fourth.len();
        self.fourth.extend_from_slice(bytes)?;
        for (i, byte) in bytes.iter().enumerate().rev() {
            self.own.push(*byte)?;
            self.places.push(start.saturating_add(i))?;
        }
        Ok(())
    }

    /// Puts an address.
    fn push_address(&mut self, bytes: &[u8], format: u8) -> Result<(), AllocError> {
        let front = [0, 0, 0, 0, 0, 0, 0, 0, 0, 0, 0xff, 0xff];
        if format == 4 {
            self.push_both(&front)?;
            self.push_both(bytes)
        } else {
            self.fourth.extend_from_slice(&front)?;
            self.push_turned(bytes)
        }
    }

    /// Puts a part that has this word.
    fn push_part(&mut self, word: u8, bytes: &[u8], format: u8) -> Result<(), AllocError> {
        match word {
            b'f' => {
                self.push_both(&[format])?;
                self.set(4, format);
                Ok(())
            }
            b'1'..=b'3' if word - b'0' <= format => self.push_both(bytes),
            b'1'..=b'3' => self.push_zeros(bytes),
            b'4' if format == 4 => self.push_both(bytes),
            b'w' if format < 4 => self.fourth.extend_from_slice(bytes),
            b'a' => self.push_address(bytes, format),
            _ => Ok(()),
        }
    }

    /// Sets one of its own bytes, and that of format 4; but the byte that says the format stays there.
    pub fn set(&mut self, at: usize, byte: u8) {
        if let (Some(own), Some(place)) = (self.own.get_mut(at), self.places.get(at)) {
            *own = byte;
            if let Some(there) = self.fourth.get_mut(*place) {
                *there = if at == 4 { 4 } else { byte };
            }
        }
    }
}

/// The bytes of a cut in a format.
pub fn spread_of(alloc: Global, parts: &str, format: u8) -> Result<Spread, AllocError> {
    let mut spread = Spread {
        own: Vec::new(alloc),
        fourth: Vec::new(alloc),
        places: Vec::new(alloc),
    };
    for part in parts.lines() {
        if let [word, hex @ ..] = part.as_bytes() {
            let mut bytes = Vec::new(alloc);
            push_hex(&mut bytes, hex)?;
            spread.push_part(*word, &bytes, format)?;
        }
    }
    Ok(spread)
}

/// The text of these bytes: in format 4 with their checksum behind them.
pub fn closed(alloc: Global, bytes: &[u8], format: u8) -> Result<Vec<u8>, AllocError> {
    let mut text = Vec::new(alloc);
    text.extend_from_slice(bytes)?;
    if format == 4 {
        text.extend_from_slice(&checksum(bytes).to_le_bytes())?;
    }
    Ok(text)
}

/// The text of a cut in a format.
pub fn text_in(alloc: Global, parts: &str, format: u8) -> Result<Vec<u8>, AllocError> {
    closed(alloc, &spread_of(alloc, parts, format)?.own, format)
}
