//! A digest of bytes that come in pieces.
ghost use Rattle.std.specs.Prelude.{◌≡◌, ℕ, ◌+◌, ◌%◌, ◌<◌, ◌≤◌, List, [], ◌++◌, length, take, drop};
ghost use Rattle.std.specs.Int.{w64, from_le_bytes};
ghost use Rattle.eql_digest.specs.Digests.{turned, with_byte, with_bytes, IsDigestOf, digest_of};
ghost use Rattle.eql_digest.specs.Words.{lanes_after};

/// An odd number: 2 ^ 64 by the golden ratio.
const FACTOR: u64 = 0x9E37_79B9_7F4A_7C15;

/// The eight words with which SHA-512 begins (FIPS 180-4, 5.3.5).
const START: [u64; 8] = [
    0x6A09_E667_F3BC_C908,
    0xBB67_AE85_84CA_A73B,
    0x3C6E_F372_FE94_F82B,
    0xA54F_F53A_5F1D_36F1,
    0x510E_527F_ADE6_82D1,
    0x9B05_688C_2B3E_6C1F,
    0x1F83_D9AB_FB41_BD6B,
    0x5BE0_CD19_137E_2179,
];

/// The bytes that the eight lanes take at once.
const BLOCK: usize = 64;

#[inline(always)]
fn turned(lane: u64, word: u64) -> u64
    ensures { result ≡ turned lane word }
{
    let both = lane ^ word;
    (both ^ both >> 37).wrapping_mul(FACTOR)
}

#[inline(always)]
fn word_at(bytes: &[u8], at: usize) -> u64
    requires { at + 8 ≤ length bytes.now }
    ensures { result ≡ from_le_bytes w64 (take 8 (drop at bytes.now)) }
{
    u64::from_le_bytes([
        bytes[at],
        bytes[at + 1],
        bytes[at + 2],
        bytes[at + 3],
        bytes[at + 4],
        bytes[at + 5],
        bytes[at + 6],
        bytes[at + 7],
    ])
}

#[inline(always)]
fn with_block(lanes: [u64; 8], block: &[u8]) -> [u64; 8]
    requires { length block.now ≡ 64 }
    ensures { result ≡ lanes_after lanes block.now 0 8 }
{
    let [a, b, c, d, e, f, g, h] = lanes;
    [
        turned(a, word_at(block, 0)),
        turned(b, word_at(block, 8)),
        turned(c, word_at(block, 16)),
        turned(d, word_at(block, 24)),
        turned(e, word_at(block, 32)),
        turned(f, word_at(block, 40)),
        turned(g, word_at(block, 48)),
        turned(h, word_at(block, 56)),
    ]
}

/// A digest of bytes: what is kept of all that were added, in ten numbers.
#[derive(Clone, Copy, PartialEq, Eq, Drop)]
pub struct Digest {
    /// The lanes, the one that takes the next word first.
    pub lanes: [u64; 8],
    /// The bytes behind the last whole word, low byte first.
    pub word: u64,
    /// The number of bytes, modulo 2 ^ 64.
    pub length: u64,
}

impl Digest {
    /// A digest of no bytes.
    pub fn new() -> Digest
        ensures { IsDigestOf result [] }
    {
        Digest {
            lanes: START,
            word: 0,
            length: 0,
        }
    }

    /// Adds bytes behind those of before.
    pub fn add(&mut self, bytes: &[u8])
        ensures { (before : List ℕ) → IsDigestOf self.old before
            → IsDigestOf self.new (before ++ bytes.now) }
    {
        let head = bytes.len().min((8 - self.length % 8) as usize % 8);
        let end = bytes.len() - (bytes.len() - head) % BLOCK;
        self.add_one_by_one(&bytes[..head]);
        self.add_blocks(&bytes[head..end]);
        self.add_one_by_one(&bytes[end..]);
    }

    /// The digest of all bytes that were added.
    pub fn value(&self) -> u64
        ensures { (bytes : List ℕ) → IsDigestOf self.now bytes → result ≡ digest_of bytes }
    {
        let mut value = 0;
        for lane in &self.lanes {
            value = turned(value, *lane);
        }
        turned(turned(value, self.word), self.length)
    }

    fn add_byte(&mut self, byte: u8)
        ensures { self.new ≡ with_byte self.old byte }
    {
        let place = self.length % 8;
        let word = self.word.wrapping_add(u64::from(byte) << 8 * place);
        self.length = self.length.wrapping_add(1);
        if place == 7 {
            let [a, b, c, d, e, f, g, h] = self.lanes;
            self.lanes = [b, c, d, e, f, g, h, turned(a, word)];
            self.word = 0;
        } else {
            self.word = word;
        }
    }

    fn add_one_by_one(&mut self, bytes: &[u8])
        ensures { self.new ≡ with_bytes self.old bytes.now }
    {
        for byte in bytes {
            self.add_byte(*byte);
        }
    }

    fn add_blocks(&mut self, bytes: &[u8])
        requires whole { length bytes.now % 64 ≡ 0 }
        requires between_words { 0 < length bytes.now → self.old.length % 8 ≡ 0 }
        ensures { (0 < length bytes.now → self.old.word ≡ 0)
            → self.new ≡ with_bytes self.old bytes.now }
    {
        let length = self.length.wrapping_add(bytes.len() as u64);
        let mut lanes = self.lanes;
        for i in 0..bytes.len() / BLOCK {
            let next = with_block(lanes, &bytes[i * BLOCK..i * BLOCK + BLOCK]);
            lanes = next;
        }
        self.lanes = lanes;
        self.length = length;
    }
}
