//! The bytes that were taken of a source and aren't read as lines yet, and the digest of those that
//! were. Of a line that is too long only its length is kept, whether it is blank, and its digest.
ghost use Rattle.std.specs.Prelude.{◌≡◌, ◌≢◌, ◌≤◌, ◌<◌, ◌+◌, ◌==◌, ◌++◌, ◌^◌, ℕ, List, [], None, Ok, Err, IfOk, IfErr, IfSome, true, false, IsOk, OnOk, length, take, drop, vec_len};
ghost use Rattle.eql_digest.specs.Digests.{with_bytes};
ghost use Rattle.eql_values.specs.Reading.{is_blank};
ghost use Rattle.eql_outside.specs.Outside.{Rose};
ghost use Rattle.eql_outside.specs.Unfailing.{IsUnfailing};
ghost use Rattle.eql_lane.specs.Buffers.{byte_count, dropped_part, seen_more, HasFeedAt, IsFront, IsOfBytes, Stands, FillsBuffer, IsOneLine};

use eql_digest::Digest;
use eql_outside::{Source, unfailing_stays};
use eql_values::{LineGot, LineReader, Memory, Reason};
use memchr::memchr;
use std::alloc::Global;
use std::marker::Model;

/// How many bytes a line may have.
const LINE_BYTES: u64 = 1048576;

/// How many bytes are asked of a source at a time.
pub(crate) const PIECE: usize = 65536;

/// A line at hand whose bytes were dropped, since they are too many.
#[derive(Clone, Copy)]
pub(crate) struct LongLine {
    /// How many bytes it has so far.
    pub(crate) bytes: u64,
    /// Whether all of them are spaces, tabs and carriage returns.
    pub(crate) blank: bool,
    /// The digest of all bytes up to here: of those that were read, and of these behind them.
    pub(crate) digest: Digest,
}

/// Bytes that aren't read as lines yet.
#[derive(Drop)]
pub(crate) struct LineBuffer {
    // The bytes: those that were read and weren't dropped yet, and those that aren't read.
    bytes: Vec<u8>,
    // How many of them were read: none while the line at hand is too long.
    start: usize,
    // How many of the others are known to have no line feed, so that none is searched twice.
    searched: usize,
    // What was dropped of the line at hand.
    long: Option<LongLine>,
    // The digest of the bytes that were read and dropped. Those that are dropped together come to
    // it as one piece.
    digest: Digest,
}

impl Model for LineBuffer {
    ghost use Rattle.std.specs.Prelude.{take, drop};
    ghost use Rattle.eql_digest.specs.Digests.{with_bytes};
    ghost use Rattle.eql_lane.specs.Buffers.{Pending, IsBuffer};

    ghost Value = { Pending };

    ghost view = { λ b. record {
      long = b.long;
      unread = drop b.start b.bytes.items;
      digest = with_bytes b.digest (take b.start b.bytes.items);
    } };

    ghost invariant = { λ b. IsBuffer b.bytes.items b.start b.searched b.long b.digest };
}

/// Why no bytes were taken.
#[derive(Clone, Copy, PartialEq, Eq)]
pub(crate) enum FillRefused {
    /// The source failed.
    Failed,
    /// Memory ran out.
    Memory,
}

// Whether the bytes are spaces, tabs and carriage returns.
fn are_blank(bytes: &[u8]) -> bool
    ensures { result ≡ is_blank bytes.now }
{
    bytes
        .iter()
        .all(|byte| *byte == 32 || *byte == 9 || *byte == 13)
}

// The digest of these bytes behind others.
fn digest_with(digest: Digest, bytes: &[u8]) -> Digest
    requires { IsOfBytes digest }
    ensures digest { result ≡ with_bytes digest bytes.now }
    ensures of_bytes { IsOfBytes result }
{
    let mut digest = digest;
    digest.add(bytes);
    digest
}

// A line that goes on with these bytes.
fn goes_on(line: LongLine, more: &[u8]) -> LongLine
    requires short { line.bytes + length more.now < 2 ^ 63 }
    requires of_bytes { IsOfBytes line.digest }
    ensures line { result ≡ seen_more line more.now }
    ensures of_bytes { IsOfBytes result.digest }
{
    LongLine {
        bytes: line.bytes + more.len() as u64,
        blank: line.blank && are_blank(more),
        digest: digest_with(line.digest, more),
    }
}

/// Where the first line feed stands.
pub(crate) fn feed_in(bytes: &[u8]) -> Option<usize>
    ensures found { IfSome result (λ end. HasFeedAt end bytes.now) }
    ensures none { result ≡ None → IsOneLine bytes.now }
{
    memchr(b'\n', bytes)
}

impl LineBuffer {
    /// No bytes, behind those of this digest.
    pub(crate) fn new(alloc: Global, digest: Digest) -> LineBuffer
        requires { IsOfBytes digest }
        ensures { result ≡ record { long = None; unread = []; digest = digest } }
    {
        LineBuffer {
            bytes: Vec::new(alloc),
            start: 0,
            searched: 0,
            long: None,
            digest,
        }
    }

    /// The digest of the bytes that were read.
    pub(crate) fn digest(&self) -> Digest
        ensures digest { result ≡ self.now.digest }
        ensures of_bytes { IsOfBytes result }
    {
        digest_with(self.digest, &self.bytes[..self.start])
    }

    // What was dropped of the line at hand.
    fn dropped(&self) -> LongLine
        ensures line { result ≡ dropped_part self.now }
        ensures of_bytes { IsOfBytes result.digest }
    {
        match self.long {
            None => LongLine {
                bytes: 0,
                blank: true,
                digest: self.digest(),
            },
            Some(line) => line,
        }
    }

    /// The bytes that are kept.
    pub(crate) fn rest(&self) -> &[u8]
        ensures { result.now ≡ self.now.unread }
    {
        &self.bytes[self.start..]
    }

    /// How many bytes aren't read yet.
    pub(crate) fn count(&self) -> u64
        requires short { byte_count self.now < 2 ^ 63 }
        ensures { result ≡ byte_count self.now }
    {
        self.width(self.rest().len())
    }

    // Where the first line feed stands behind the bytes that were searched.
    fn next_feed(&self) -> Option<usize>
        ensures found { IfSome result (λ end. HasFeedAt end self.now.unread) }
        ensures none { result ≡ None → IsOneLine self.now.unread }
    {
        match feed_in(&self.rest()[self.searched..]) {
            Some(at) => Some(self.searched + at),
            None => None,
        }
    }

    /// Where the line at hand ends, if its line feed is there. Each byte is searched once.
    pub(crate) fn line_end(&mut self) -> Option<usize>
        ensures found { IfSome result (λ end. HasFeedAt end self.old.unread) }
        ensures none { result ≡ None → IsOneLine self.old.unread }
        ensures same { self.new ≡ self.old }
    {
        let end = self.next_feed();
        if end.is_none() {
            self.searched = self.rest().len();
        }
        end
    }

    /// What the line at hand gives, which ends after so many of the kept bytes.
    pub(crate) fn read<L: LineReader>(
        &self,
        alloc: Global,
        reader: &mut L,
        shard: u32,
        number: u32,
        end: usize,
    ) -> Result<LineGot, Memory>
        requires { end ≤ length self.now.unread }
        ensures got { (front : List ℕ) → IsFront self.now.long front
            → IfOk result (λ got. got
            ≡ L.read_of reader.old shard number (front ++ take end self.now.unread)) }
        ensures stays { L.read_of reader.new ≡ L.read_of reader.old }
    {
        let bytes = &self.rest()[..end];
        match self.long {
            None => reader.read(alloc, shard, number, bytes),
            Some(line) => {
                if line.blank && are_blank(bytes) {
                    Ok(LineGot::Blank)
                } else {
                    Ok(LineGot::Bad(Reason::Long))
                }
            }
        }
    }

    /// How many bytes the line at hand has with so many of those that are kept.
    pub(crate) fn width(&self, end: usize) -> u64
        requires short { byte_count self.now < 2 ^ 63 }
        requires within { end ≤ length self.now.unread }
        ensures { result ≡ (dropped_part self.now).bytes + end }
    {
        match self.long {
            None => end as u64,
            Some(line) => line.bytes + end as u64,
        }
    }

    // Counts what was dropped of the line at hand among the bytes that were read.
    fn end_long(&mut self)
        ensures { self.new ≡ record {
          long = None;
          unread = self.old.unread;
          digest = (dropped_part self.old).digest;
        } }
    {
        let Some(line) = self.long else {
            return;
        };
        self.digest = line.digest;
        self.long = None;
    }

    /// Counts the line at hand, with so many of the kept bytes, among those that were read.
    pub(crate) fn pass(&mut self, count: usize)
        requires { count ≤ length self.old.unread }
        ensures { self.new ≡ record {
          long = None;
          unread = drop count self.old.unread;
          digest = with_bytes (dropped_part self.old).digest (take count self.old.unread);
        } }
    {
        self.end_long();
        self.start += count;
        self.searched = 0;
    }

    // Drops the bytes that were read. No byte is moved twice, since those that are moved stand at
    // the front until they are read.
    fn compact(&mut self)
        ensures { self.new ≡ self.old }
    {
        if self.start == 0 {
            return;
        }
        self.digest = self.digest();
        drop(self.bytes.drain(..self.start));
        self.start = 0;
    }

    /// Keeps no byte of a line that is too long. No line feed is kept before.
    pub(crate) fn shorten(&mut self)
        requires one { IsOneLine self.old.unread }
        requires short { byte_count self.old < 2 ^ 63 }
        ensures stands { (p : List ℕ) → Stands self.old p → Stands self.new p }
        ensures few { length self.new.unread ≤ 1048576 }
        ensures one { IsOneLine self.new.unread }
        ensures digest { self.new.digest ≡ self.old.digest }
    {
        if self.count() <= LINE_BYTES {
            return;
        }
        let line = goes_on(self.dropped(), self.rest());
        self.digest = self.digest();
        self.bytes.clear();
        self.start = 0;
        self.searched = 0;
        self.long = Some(line);
    }

    // Takes the next bytes of a source, at most as many as the piece has, and keeps them.
    fn fill_by<S: Source>(&mut self, source: &mut S, piece: &mut [u8]) -> Result<usize, FillRefused>
        requires some { 1 ≤ length piece.old }
        requires room { length piece.old < 2 ^ 32 }
        requires short { length self.old.unread < 2 ^ 32 }
        ensures few { IfOk result (λ n. n ≤ length piece.old) }
        ensures filled { IfOk result (λ n. FillsBuffer (S.left source.old) (S.left source.new)
            self.old.unread self.new.unread n) }
        ensures silent { S.left source.old ≡ None → S.left source.new ≡ None }
        ensures named { S.lent_as source.new ≡ S.lent_as source.old }
        ensures end { result ≡ Ok 0 → IfSome (S.left source.old) (λ left. left ≡ []) }
        ensures kept { IfErr result (λ _. (self.new.unread ≡ self.old.unread)
            × (S.left source.new ≡ S.left source.old)) }
        ensures long { self.new.long ≡ self.old.long }
        ensures digest { self.new.digest ≡ self.old.digest }
        ensures cause { result ≡ Err FillRefused.Failed
            → Rose (S.fault_count source.old) (S.fault_count source.new) }
        ensures steady { result ≢ Err FillRefused.Failed
            → S.fault_count source.new ≡ S.fault_count source.old }
        ensures counts { S.fault_count source.old ≤ S.fault_count source.new }
        ensures unfailing { IsUnfailing (S.fault_plan source.old)
            → (result ≢ Err FillRefused.Failed) × IsUnfailing (S.fault_plan source.new) }
    {
        unfailing_stays();
        self.compact();
        if self.bytes.reserve(piece.len()).is_err() {
            return Err(FillRefused::Memory);
        }
        let Ok(n) = source.take(piece) else {
            return Err(FillRefused::Failed);
        };
        match self.bytes.extend_from_slice(&piece[..n]) {
            Ok(()) => Ok(n),
            Err(_) => unreachable!(),
        }
    }

    /// Takes the next bytes of a source, at most so many, and keeps them. None are the end.
    pub(crate) fn fill<S: Source>(
        &mut self,
        source: &mut S,
        most: usize,
    ) -> Result<usize, FillRefused>
        requires some { 1 ≤ most }
        requires room { most ≤ 65536 }
        requires short { length self.old.unread < 2 ^ 32 }
        ensures few { IfOk result (λ n. n ≤ most) }
        ensures filled { IfOk result (λ n. FillsBuffer (S.left source.old) (S.left source.new)
            self.old.unread self.new.unread n) }
        ensures silent { S.left source.old ≡ None → S.left source.new ≡ None }
        ensures named { S.lent_as source.new ≡ S.lent_as source.old }
        ensures end { result ≡ Ok 0 → IfSome (S.left source.old) (λ left. left ≡ []) }
        ensures kept { IfErr result (λ _. (self.new.unread ≡ self.old.unread)
            × (S.left source.new ≡ S.left source.old)) }
        ensures long { self.new.long ≡ self.old.long }
        ensures digest { self.new.digest ≡ self.old.digest }
        ensures cause { result ≡ Err FillRefused.Failed
            → Rose (S.fault_count source.old) (S.fault_count source.new) }
        ensures steady { result ≢ Err FillRefused.Failed
            → S.fault_count source.new ≡ S.fault_count source.old }
        ensures counts { S.fault_count source.old ≤ S.fault_count source.new }
        ensures unfailing { IsUnfailing (S.fault_plan source.old)
            → (result ≢ Err FillRefused.Failed) × IsUnfailing (S.fault_plan source.new) }
    {
        let mut piece = [0u8; PIECE];
        self.fill_by(source, &mut piece[..most])
    }
}
