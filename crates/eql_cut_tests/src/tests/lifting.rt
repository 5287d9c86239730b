//! A cut of the first format, lifted with the places of its lines.
ghost use Rattle.std.specs.Prelude.{IfOk};
ghost use Rattle.eql_cut.specs.Domain.{IsCut};
ghost use Rattle.eql_cut.specs.Placing.{IsUnplaced, LinesAscend, orders_in};

use crate::tests::bytes::{closed, spread_of, text_in};
use crate::tests::places::are_named;
use eql_cut::{Cut, decode, encode, first_format_has_no_places, lift, lifted_cuts_fit};
use eql_values::{PlaceLists, Places};
use std::alloc::{AllocError, Global};
use std::test::Fail;

/// A cut with an event that a lane keeps, two pending sequences, and a match that a pipe keeps. In the formats with places
/// these are those of `noted`.
static PARTS: &str = "
1 45514c43
f
// The query `q`, no mapping, no tiebreaker, a slack of 5, 2 shards, the mark 1000, 2 lanes.
1 0100000000000000 71 0000000000000000 00
1 0500000000000000 02000000
1 e8030000000000000000000000000000
1 0200000000000000
// The first lane: 900 bytes with the digest of none, open, best 1200; 9 lines, all accepted.
1 8403000000000000
w 08c9bcf367e6096a 3ba7ca8485ae67bb
w 2bf894fe72f36e3c f1361d5f3af54fa5
w d182e6ad7f520e51 1f6c3e2b8c68059b
w 6bbd41fbabd9831f 79217e1319cde05b
w 0000000000000000 0000000000000000
1 00
1 01 b0040000000000000000000000000000
1 09000000 09000000 00000000 00000000 00
// Its event at 1000, at line 9; a route by no values, of stage 1.
1 0100000000000000
1 e8030000000000000000000000000000 00 00000000 09000000
2 2003000000000000
1 0100000000000000 0000000000000000
1 01000000000000000000000000000000
3 00000000000000000000000000000000
1 00
// The second lane: 77 bytes with the digest of none, closed, best 800; 3 lines, all accepted.
1 4d00000000000000
w 08c9bcf367e6096a 3ba7ca8485ae67bb
w 2bf894fe72f36e3c f1361d5f3af54fa5
w d182e6ad7f520e51 1f6c3e2b8c68059b
w 6bbd41fbabd9831f 79217e1319cde05b
w 0000000000000000 0000000000000000
1 01
1 01 20030000000000000000000000000000
1 03000000 03000000 00000000 00000000 00
1 0000000000000000
// Pending by 1: one event at stage 1, and two at stage 2, the first of the second shard.
1 0200000000000000
1 0100000000000000 02 0100000000000000 01000000 0100000000000000
1 b6030000000000000000000000000000 00 00000000 07000000
2 2602000000000000
1 0100000000000000 02 0100000000000000 02000000 0200000000000000
1 20030000000000000000000000000000 00 01000000 02000000
2 3c00000000000000
1 84030000000000000000000000000000 00 00000000 05000000
2 9001000000000000
// 4 found, 0 listed; a tail that keeps the match 4, by 2, of three events.
1 0400000000000000 0000000000000000 0100000000000000
1 01 0100000000000000 0400000000000000
1 0100000000000000 02 0200000000000000 0300000000000000
1 bc020000000000000000000000000000 00 00000000 03000000
2 c800000000000000
1 20030000000000000000000000000000 00 01000000 02000000
2 3c00000000000000
1 52030000000000000000000000000000 00 00000000 04000000
2 0000000000000000";

/// Lines that ascend and their places, of each of the two shards. Line 4 of the first shard wasn't
/// noted, and no event stands at line 6.
fn noted(alloc: Global) -> Result<PlaceLists, AllocError>
    ensures { IfOk result LinesAscend }
{
    let first = Places::of(vec![in alloc; (3, 200), (5, 400), (6, 480), (7, 550), (9, 800)]?);
    let second = Places::of(vec![in alloc; (2, 60)]?);
    Ok(PlaceLists::of(vec![in alloc; first, second]?))
}

/// The cut of the text in the first format.
fn first_cut(alloc: Global) -> Result<Cut, Fail>
    ensures unplaced { IfOk result (λ cut. IsUnplaced (orders_in cut)) }
    ensures stands { IfOk result IsCut }
{
    let bytes = text_in(alloc, PARTS, 1)?;
    first_format_has_no_places();
    match decode(alloc, &bytes) {
        Ok(read) if read.format == 1 => Ok(read.cut),
        _ => Err(Fail::from("not read in the first format")),
    }
}

/// Whether a cut has this text.
fn is_text(alloc: Global, cut: &Cut, text: &[u8]) -> bool
    requires { IsCut cut.now }
{
    match encode(alloc, cut) {
        Ok(written) => written.as_slice() == text,
        Err(_) => false,
    }
}

/// Whether the cut with its places has this text in format 4.
fn is_lifted_as(alloc: Global, cut: Cut, places: PlaceLists, text: &[u8]) -> bool
    requires unplaced { IsUnplaced (orders_in cut) }
    requires stands { IsCut cut }
    requires ascend { LinesAscend places }
{
    lifted_cuts_fit();
    match lift(alloc, cut, places) {
        Ok(lifted) => is_text(alloc, &lifted, text),
        Err(_) => false,
    }
}

/// Whether the cut of the first format has the text of format 4 with the places of format 3.
fn is_lifted(alloc: Global) -> Result<bool, Fail> {
    let text = closed(alloc, &spread_of(alloc, PARTS, 3)?.fourth, 4)?;
    let places = noted(alloc)?;
    Ok(is_lifted_as(alloc, first_cut(alloc)?, places, &text))
}

#[test]
fn items_holders_and_kept_matches_are_lifted(rt: HostRuntime) -> Result<(), Fail> {
    assert!(rt; is_lifted(rt.alloc())?);
    Ok(())
}

/// The lines that the cut names, ascending and each once. In the cut those of the first shard stand as 9, 7, 5, 3, 4, and that
/// of the second stands twice.
static NAMED: &[(u32, &[u32])] = &[(0, &[3, 4, 5, 7, 9]), (1, &[2]), (2, &[])];

#[test]
fn lines_to_be_noted_are_named(rt: HostRuntime) {
    assert!(rt; are_named(rt.alloc(), PARTS, 1, NAMED));
}
