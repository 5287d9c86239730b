//! Passing over the bytes of a source that a cut says were read, and noting lines in them.
ghost use Rattle.std.specs.Prelude.{◌≡◌, ◌≤◌, ◌<◌, ◌+◌, ◌≢◌, ◌⊎◌, ◌^◌, true, false, ℕ, List, [], Ok, Err, IfOk, IfErr, IfSome, IsOk, IsErr, OnOk, length};
ghost use Rattle.std.specs.List.Sorted.{IsStrictlyIncreasing};
ghost use Rattle.eql_outside.specs.Outside.{Rose};
ghost use Rattle.eql_outside.specs.Unfailing.{IsUnfailing};
ghost use Rattle.eql_lane.specs.Noting.{NotesOf, Locates, IsMissing, is_cut};
ghost use Rattle.eql_digest.specs.Digests.{IsDigestOf};
ghost use Rattle.eql_lane.specs.Buffers.{IsOfBytes};
ghost use Rattle.eql_lane.specs.Passing.{PassesOver, ReadsOver, Traces, IsEnd, IsJudged, IsCause, GivesBack};

use crate::buffer::PIECE;
use crate::make::LaneRefused;
use crate::notes::Notes;
use eql_digest::Digest;
use eql_outside::{Failed, Source, unfailing_stays};
use eql_values::{Lines, Memory, Places};
use std::alloc::Global;

/// What is known of bytes that are passed over.
#[derive(Drop)]
pub(crate) struct Trace {
    /// The notes of the lines in them.
    notes: Notes,
    /// Their digest.
    digest: Digest,
}

/// What was found in bytes that were passed over.
#[derive(Drop)]
pub(crate) struct Found {
    /// The places of the wanted lines.
    pub(crate) places: Places,
    /// The digest of the bytes.
    pub(crate) digest: Digest,
}

impl Trace {
    // Nothing was passed over.
    fn new(alloc: Global, wanted: Lines) -> Result<Trace, Memory>
        requires ascend { IsStrictlyIncreasing wanted }
        ensures noted { IfOk result (λ trace. NotesOf [] trace.notes) }
        ensures digest { IfOk result (λ trace. IsDigestOf trace.digest []) }
        ensures wanted { IfOk result (λ trace. trace.notes.wanted ≡ wanted) }
        ensures passed { IfOk result (λ trace. trace.notes.passed ≡ 0) }
    {
        let notes = Notes::new(alloc, wanted)?;
        Ok(Trace {
            notes,
            digest: Digest::new(),
        })
    }
}

// Takes at most as many bytes as the piece has, and passes over them. It returns how many they
// were; none are the end.
fn pass_piece<S: Source>(
    source: &mut S,
    piece: &mut [u8],
    trace: &mut Trace,
) -> Result<usize, Failed>
    requires some { 1 ≤ length piece.old }
    requires far { trace.old.notes.passed + length piece.old < 2 ^ 63 }
    ensures few { IfOk result (λ n. n ≤ length piece.old) }
    ensures passed { IfOk result (λ n. PassesOver S.left S.lent_as n source.old source.new) }
    ensures read { IfOk result (λ n. ReadsOver (S.left source.old) n trace.old trace.new) }
    ensures end { result ≡ Ok 0 → IsEnd S.left source.old }
    ensures kept { IsErr result → PassesOver S.left S.lent_as 0 source.old source.new }
    ensures cause { IsErr result → Rose (S.fault_count source.old) (S.fault_count source.new) }
    ensures steady { IsOk result → S.fault_count source.new ≡ S.fault_count source.old }
    ensures counts { S.fault_count source.old ≤ S.fault_count source.new }
    ensures unfailing { IsUnfailing (S.fault_plan source.old)
        → IsOk result × IsUnfailing (S.fault_plan source.new) }
{
    unfailing_stays();
    let n = source.take(piece)?;
    trace.notes.pass(&piece[..n]);
    trace.digest.add(&piece[..n]);
    Ok(n)
}

// Takes at most so many bytes, and passes over them. It returns how many they were; none are the
// end.
fn pass_some<S: Source>(source: &mut S, most: u64, trace: &mut Trace) -> Result<u64, Failed>
    requires some { 1 ≤ most }
    requires far { trace.old.notes.passed + most < 2 ^ 63 }
    ensures few { IfOk result (λ n. n ≤ most) }
    ensures passed { IfOk result (λ n. PassesOver S.left S.lent_as n source.old source.new) }
    ensures read { IfOk result (λ n. ReadsOver (S.left source.old) n trace.old trace.new) }
    ensures end { result ≡ Ok 0 → IsEnd S.left source.old }
    ensures kept { IsErr result → PassesOver S.left S.lent_as 0 source.old source.new }
    ensures cause { IsErr result → Rose (S.fault_count source.old) (S.fault_count source.new) }
    ensures steady { IsOk result → S.fault_count source.new ≡ S.fault_count source.old }
    ensures counts { S.fault_count source.old ≤ S.fault_count source.new }
    ensures unfailing { IsUnfailing (S.fault_plan source.old)
        → IsOk result × IsUnfailing (S.fault_plan source.new) }
{
    let mut piece = [0u8; PIECE];
    let most = most.min(PIECE as u64) as usize;
    let n = pass_piece(source, &mut piece[..most], trace)?;
    Ok(n as u64)
}

// Passes over so many bytes, or over all where the source has fewer. It returns how many they
// were.
fn pass_over<S: Source>(source: &mut S, count: u64, trace: &mut Trace) -> Result<u64, Failed>
    requires far { trace.old.notes.passed + count < 2 ^ 63 }
    ensures few { IfOk result (λ n. n ≤ count) }
    ensures passed { IfOk result (λ n. PassesOver S.left S.lent_as n source.old source.new) }
    ensures read { IfOk result (λ n. ReadsOver (S.left source.old) n trace.old trace.new) }
    ensures end { IfOk result (λ n. n < count → IsEnd S.left source.new) }
    ensures kept { IsErr result
        → (n : ℕ) × (n ≤ count) × PassesOver S.left S.lent_as n source.old source.new }
    ensures cause { IsErr result → Rose (S.fault_count source.old) (S.fault_count source.new) }
    ensures steady { IsOk result → S.fault_count source.new ≡ S.fault_count source.old }
    ensures counts { S.fault_count source.old ≤ S.fault_count source.new }
    ensures unfailing { IsUnfailing (S.fault_plan source.old)
        → IsOk result × IsUnfailing (S.fault_plan source.new) }
{
    let mut passed = 0;
    while passed < count {
        match pass_some(source, count - passed, trace) {
            Err(failed) => return Err(failed),
            Ok(0) => return Ok(passed),
            Ok(n) => passed += n,
        }
    }
    Ok(passed)
}

// Whether a source is at its end. Where it isn't, a byte is taken.
fn is_end<S: Source>(source: &mut S) -> Result<bool, Failed>
    ensures passed { IfOk result (λ ended. (n : ℕ) × (n ≤ 1)
        × PassesOver S.left S.lent_as n source.old source.new) }
    ensures ended { result ≡ Ok true
        → IsEnd S.left source.old × PassesOver S.left S.lent_as 0 source.old source.new }
    ensures further { result ≡ Ok false → IfSome (S.left source.old) (λ left. left ≢ []) }
    ensures kept { IsErr result → PassesOver S.left S.lent_as 0 source.old source.new }
    ensures cause { IsErr result → Rose (S.fault_count source.old) (S.fault_count source.new) }
    ensures steady { IsOk result → S.fault_count source.new ≡ S.fault_count source.old }
    ensures counts { S.fault_count source.old ≤ S.fault_count source.new }
    ensures unfailing { IsUnfailing (S.fault_plan source.old)
        → IsOk result × IsUnfailing (S.fault_plan source.new) }
{
    unfailing_stays();
    let mut byte = [0u8; 1];
    let n = source.take(&mut byte)?;
    Ok(n == 0)
}

// Whether a source is at its end, where that is to be known: at a closed place, and at one that
// cuts the next wanted line. Elsewhere none is told, and no byte is taken.
fn ends_here<S: Source>(source: &mut S, closed: bool, notes: &Notes) -> Result<bool, Failed>
    ensures passed { IfOk result (λ ended. (n : ℕ) × (n ≤ 1)
        × PassesOver S.left S.lent_as n source.old source.new) }
    ensures ended { result ≡ Ok true
        → IsEnd S.left source.old × PassesOver S.left S.lent_as 0 source.old source.new }
    ensures further { result ≡ Ok false → IfSome (S.left source.old) (λ left. left ≢ [])
        ⊎ ((closed ≡ false) × (is_cut notes.now ≡ false)) }
    ensures same { closed ≡ false → is_cut notes.now ≡ false
        → PassesOver S.left S.lent_as 0 source.old source.new }
    ensures kept { IsErr result → PassesOver S.left S.lent_as 0 source.old source.new }
    ensures cause { IsErr result → Rose (S.fault_count source.old) (S.fault_count source.new) }
    ensures steady { IsOk result → S.fault_count source.new ≡ S.fault_count source.old }
    ensures counts { S.fault_count source.old ≤ S.fault_count source.new }
    ensures unfailing { IsUnfailing (S.fault_plan source.old)
        → IsOk result × IsUnfailing (S.fault_plan source.new) }
{
    if closed || notes.is_cut() {
        return is_end(source);
    }
    Ok(false)
}

// What is found before a place, behind which the text ends or not, where all wanted lines are there
// and no byte follows a closed place.
fn judge(trace: Trace, closed: bool, ended: bool) -> Result<Found, LaneRefused>
    ensures located { IfOk result (λ found. (front rest : List ℕ) → NotesOf front trace.notes
        → (ended ≡ true → rest ≡ []) → Locates front rest trace.notes.wanted found.places) }
    ensures digest { IfOk result (λ found. found.digest ≡ trace.digest) }
    ensures whole { IsOk result → (closed ≡ true → ended ≡ true)
        × (ended ≡ false → is_cut trace.notes ≡ false) }
    ensures refused { IfErr result (λ refused. (front rest : List ℕ) → NotesOf front trace.notes
        → (ended ≡ true → rest ≡ []) → (ended ≡ false → rest ≡ [] → is_cut trace.notes ≡ false)
        → IsJudged front rest trace.notes.wanted closed ended refused) }
    ensures steady { result ≢ Err LaneRefused.Failed }
{
    let mut notes = trace.notes;
    if let Some(line) = notes.finish(ended) {
        return Err(LaneRefused::NoLine { line });
    }
    if closed && !ended {
        return Err(LaneRefused::Grown);
    }
    Ok(Found {
        places: notes.into_places(),
        digest: trace.digest,
    })
}

// Whether a digest is the one that is known, where one is.
fn agrees(known: Option<Digest>, digest: Digest) -> bool
    ensures same { result ≡ true → IfSome known (λ own. own ≡ digest) }
    ensures other { result ≡ false → ¬ IfSome known (λ own. own ≡ digest) }
{
    match known {
        None => true,
        Some(own) => own == digest,
    }
}

/// Passes over the bytes before an offset, and finds the wanted lines in them, and their digest.
/// Where it is known they must have it. Where the shard was closed there, no byte may follow.
pub(crate) fn seek<S: Source>(
    alloc: Global,
    source: &mut S,
    offset: u64,
    closed: bool,
    known: Option<Digest>,
    wanted: Lines,
) -> Result<Found, LaneRefused>
    requires far { offset < 2 ^ 63 }
    requires ascend { IsStrictlyIncreasing wanted }
    ensures passed { IsOk result → PassesOver S.left S.lent_as offset source.old source.new }
    ensures ended { IsOk result → closed ≡ true → IsEnd S.left source.new }
    ensures finds { IfOk result (λ found. Traces (S.left source.old) offset wanted found) }
    ensures of_bytes { IfOk result (λ found. IsOfBytes found.digest) }
    ensures known { IfOk result (λ found. IfSome known (λ own. own ≡ found.digest)) }
    ensures cause { IfErr result (λ refused. IsCause (S.left source.old)
        (S.fault_count source.old) (S.fault_count source.new) offset closed known wanted refused) }
    ensures steady { result ≢ Err LaneRefused.Failed
        → S.fault_count source.new ≡ S.fault_count source.old }
    ensures gives { IsErr result
        → GivesBack S.left S.lent_as S.fault_count offset source.old source.new }
    ensures unfailing { IsUnfailing (S.fault_plan source.old)
        → (result ≢ Err LaneRefused.Failed) × IsUnfailing (S.fault_plan source.new) }
{
    let Ok(mut trace) = Trace::new(alloc, wanted) else {
        return Err(LaneRefused::Memory);
    };
    let Ok(had) = pass_over(source, offset, &mut trace) else {
        return Err(LaneRefused::Failed);
    };
    if had < offset {
        return Err(LaneRefused::Short { offset, had });
    }
    if !agrees(known, trace.digest) {
        return Err(LaneRefused::Differs);
    }
    let Ok(ended) = ends_here(source, closed, &trace.notes) else {
        return Err(LaneRefused::Failed);
    };
    judge(trace, closed, ended)
}
