//! Digests of the bytes that lanes read: each cut has that of the text before its offset.
use crate::tests::feeds::text_of;
use crate::tests::lanes::{ONE, TestLane, begun, cut_of_two_lines, lane, play, source};
use eql_digest::Digest;
use eql_lane::{LaneOp, LaneReply, LaneStart};
use std::alloc::Global;
use std::test::Fail;

/// The digest of a text.
pub(crate) fn digest_of(text: &[u8]) -> Digest {
    let mut digest = Digest::new();
    digest.add(text);
    digest
}

/// How many bytes a cut says were read, and its digest.
fn cut_at(lane: &mut TestLane) -> Result<(u64, Digest), Fail> {
    match play(lane, LaneOp::Snap)? {
        LaneReply::Cut(cut) => {
            let at = (cut.offset, cut.digest);
            drop(cut);
            Ok(at)
        }
        other => {
            drop(other);
            Err(Fail::from("there is no cut"))
        }
    }
}

/// Whether a cut of the lane has the digest of the text before its offset, and this offset.
fn has_digest(lane: &mut TestLane, text: &[u8], offset: u64) -> Result<bool, Fail> {
    let (at, digest) = cut_at(lane)?;
    match text.get(..at as usize) {
        Some(front) => Ok(at == offset && digest == digest_of(front)),
        None => Ok(false),
    }
}

/// Whether cuts before and behind feeds of one line each have these offsets, and the digests of the
/// text before them.
fn have_digests(lane: &mut TestLane, text: &[u8], offsets: &[u64]) -> Result<bool, Fail> {
    for offset in offsets {
        if !has_digest(lane, text, *offset)? {
            return Ok(false);
        }
        drop(play(lane, ONE)?);
    }
    Ok(true)
}

/// The same for a fresh lane over the text in such pieces.
fn are_digests(alloc: Global, text: &[u8], piece: usize, offsets: &[u64]) -> Result<bool, Fail> {
    let source = source(alloc, text, piece, &[])?;
    let mut lane = lane(alloc, source, None)?;
    let are = have_digests(&mut lane, text, offsets);
    drop(lane);
    are
}

/// Texts, and the offsets before and behind feeds of one line each.
static TEXTS: &[(&[u8], &[u64])] = &[
    (b"", &[0, 0]),
    (b"1\n2\n\n3", &[0, 2, 4, 5, 6, 6]),
    (
        b"1 a line of some bytes\n2 and another one, of which some are left\n3",
        &[0, 23, 65, 66],
    ),
];

#[test]
fn cuts_have_digests(rt: HostRuntime) -> Result<(), Fail> {
    for &(text, offsets) in TEXTS {
        for piece in [1, 2, 3, 7, 64, 65536] {
            assert!(rt; are_digests(rt.alloc(), text, piece, offsets)?);
        }
    }
    Ok(())
}

/// The bytes of a long line, and the offsets before and behind feeds of one line each. A feed that
/// took 4,194,304 bytes ends within the line.
static LONG: &[(usize, &[u64])] = &[
    (1048577, &[0, 2, 1048580, 1048581]),
    (4300000, &[0, 2, 2, 4300003]),
];

/// A long line between two short ones.
#[test]
fn long_lines_are_in_digests(rt: HostRuntime) -> Result<(), Fail> {
    for &(bytes, offsets) in LONG {
        let mut text = Vec::from_slice(rt.alloc(), b"2\n")?;
        text.extend_from_slice(text_of(rt.alloc(), bytes, b"A", b"\n1")?.as_slice())?;
        assert!(rt; are_digests(rt.alloc(), text.as_slice(), 65536, offsets)?);
    }
    Ok(())
}

/// A cut without a digest gets that of the bytes that are passed over.
#[test]
fn digests_are_set_anew(rt: HostRuntime) -> Result<(), Fail> {
    let alloc = rt.alloc();
    let text = b"5\n1\n4\n3\n";
    let source = source(alloc, text, 3, &[])?;
    let cut = cut_of_two_lines(alloc, Digest::new())?;
    let mut lane = begun(alloc, source, LaneStart::Retrace(cut))?;
    let have = have_digests(&mut lane, text, &[4, 6, 8, 8]);
    drop(lane);
    assert!(rt; have?);
    Ok(())
}
