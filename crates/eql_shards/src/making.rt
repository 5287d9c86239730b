//! Lanes over the sources of shards.
ghost use Rattle.std.specs.Prelude.{◌≡◌, ◌≢◌, ◌≤◌, ◌-◌, All, IfErr, IfOk, IfSome, MatchResult, OnErr, OnOk, Some, [], length, reverse, vec_capacity};
ghost use Rattle.eql_outside.specs.Unfailing.{IsUnfailing};
ghost use Rattle.eql_outside.specs.Faults.{FaultsAreSame};
ghost use Rattle.eql_lane.specs.Slacks.{greatest_slack_ms};
ghost use Rattle.eql_lane.specs.Starts.{MayStart, IsNotMade};
ghost use Rattle.eql_inputs.specs.Shelves.{KeepsShelf};
ghost use Rattle.eql_shards.specs.Lanes.{AreOver, StopsAmong, IsOver, StopsMaking};

use crate::giving::{give_lanes, give_sources};
use crate::readers::Readers;
use eql_lane::{Lane, LaneRefused, LaneStart};
use eql_outside::{Shelf, Source, faults_are_counted_by_name};
use std::alloc::Global;

/// Why lanes aren't made.
#[derive(Clone, Copy)]
pub struct NotMade {
    /// At which shard, from 0.
    pub shard: u32,
    /// Why its lane isn't made.
    pub why: LaneRefused,
}

/// A lane over a source, that begins so.
fn lane_over<S: Source, F: Readers>(
    alloc: Global,
    source: S,
    readers: &F,
    shard: u32,
    slack: Option<u64>,
    start: LaneStart,
) -> Result<Lane<S, F::Reader>, (LaneRefused, S)>
    requires slack { IfSome slack (λ ms. ms ≤ greatest_slack_ms) }
    requires start { MayStart start }
    ensures made { IfOk result (IsOver S.left S.lent_as S.fault_count S.fault_plan
        F.Reader.read_of (F.reads readers.now) slack shard source start) }
    ensures refused { IfErr result (λ refused. IsNotMade S.left S.lent_as S.fault_count
        start source refused.0 refused.1) }
    ensures unfailing { IsUnfailing (S.fault_plan source)
        → IfErr result (λ refused. refused.0 ≢ LaneRefused.Failed) }
{
    match readers.reader(alloc) {
        Ok(reader) => Lane::make(alloc, source, reader, shard, slack, start),
        Err(_) => Err((LaneRefused::Memory, source)),
    }
}

/// Makes a lane over each source, from the last of the list to the first, by the starts in their order, behind those
/// that were made. Where that stops, the source at hand is given back, and the others stand in the list.
fn fill_lanes<H: Shelf, F: Readers>(
    alloc: Global,
    sources: &mut Vec<H::Src>,
    readers: &F,
    slack: Option<u64>,
    starts: Vec<LaneStart>,
    lanes: &mut Vec<Lane<H::Src, F::Reader>>,
    shelf: &mut H,
) -> Result<(), NotMade>
    requires empty { lanes.old.items ≡ [] }
    requires few { length sources.old.items ≤ 256 }
    requires many { length starts.items ≡ length sources.old.items }
    requires may { All MayStart starts.items }
    requires room { length sources.old.items ≤ vec_capacity lanes.old }
    requires slack { IfSome slack (λ ms. ms ≤ greatest_slack_ms) }
    requires fresh { All (λ source. H.Src.fault_count source ≡ 0) sources.old.items }
    ensures made { OnOk result ((sources.new.items ≡ [])
        × AreOver H.Src.left H.Src.lent_as H.Src.fault_count H.Src.fault_plan
        F.Reader.read_of (F.reads readers.now) slack 0
        (reverse sources.old.items) starts.items lanes.new.items) }
    ensures stopped { IfErr result (λ stop. StopsAmong H.Src.left H.Src.lent_as H.Src.fault_count
        H.Src.fault_plan F.Reader.read_of (F.reads readers.now) slack stop.why stop.shard
        (reverse sources.old.items) (reverse sources.new.items) starts.items lanes.new.items
        (H.fault_count shelf.old) (H.fault_count shelf.new)
        (H.faults_of shelf.old) (H.faults_of shelf.new)) }
    ensures untouched { OnOk result (shelf.new ≡ shelf.old) }
    ensures lent { OnErr result (IfSome (H.lent_count shelf.old)
        (λ n. H.lent_count shelf.new ≡ Some (n - 1))) }
    ensures counts { (H.fault_count shelf.old ≤ H.fault_count shelf.new)
        × (H.absent_count shelf.new ≡ H.absent_count shelf.old) }
    ensures kept { KeepsShelf H.Shelf shelf.old shelf.new }
{
    let mut shard: u32 = 0;
    for start in starts {
        let source = sources.take_last();
        match lane_over(alloc, source, readers, shard, slack, start) {
            Ok(lane) => lanes.push_reserved(lane),
            Err((why, source)) => {
                shelf.give_source(source);
                return Err(NotMade { shard, why });
            }
        }
        shard += 1;
    }
    Ok(())
}

/// Puts a list into the opposite order.
fn turn_round<T>(items: &mut Vec<T>)
    ensures { items.new.items ≡ reverse items.old.items }
{
    items.as_mut_slice().reverse();
}

/// Lanes over sources, in their order, that begin so; lane s is that of shard s. The first that isn't made is told.
/// Where they aren't made, all sources are given back.
pub fn make_lanes<H: Shelf, F: Readers>(
    alloc: Global,
    mut sources: Vec<H::Src>,
    readers: &F,
    slack: Option<u64>,
    starts: Vec<LaneStart>,
    shelf: &mut H,
) -> Result<Vec<Lane<H::Src, F::Reader>>, NotMade>
    requires few { length sources.items ≤ 256 }
    requires many { length starts.items ≡ length sources.items }
    requires may { All MayStart starts.items }
    requires slack { IfSome slack (λ ms. ms ≤ greatest_slack_ms) }
    requires fresh { All (λ source. H.Src.fault_count source ≡ 0) sources.items }
    ensures made { IfOk result (λ lanes. AreOver H.Src.left H.Src.lent_as H.Src.fault_count
        H.Src.fault_plan F.Reader.read_of (F.reads readers.now) slack 0
        sources.items starts.items lanes.items) }
    ensures stopped { IfErr result (λ stop. StopsMaking H.Src.left H.Src.lent_as
        H.Src.fault_count H.Src.fault_plan stop.why stop.shard sources.items starts.items
        (H.fault_count shelf.old) (H.fault_count shelf.new)
        (H.faults_of shelf.old) (H.faults_of shelf.new)) }
    ensures lent { MatchResult result
        (λ _. IfSome (H.lent_count shelf.old) (λ n. H.lent_count shelf.new ≡ Some n))
        (λ _. IfSome (H.lent_count shelf.old) (λ n.
        H.lent_count shelf.new ≡ Some (n - length sources.items))) }
    ensures steady { OnOk result (H.fault_count shelf.new ≡ H.fault_count shelf.old) }
    ensures steady_named { OnOk result
        (FaultsAreSame (H.faults_of shelf.old) (H.faults_of shelf.new)) }
    ensures counts { (H.fault_count shelf.old ≤ H.fault_count shelf.new)
        × (H.absent_count shelf.new ≡ H.absent_count shelf.old) }
    ensures kept { KeepsShelf H.Shelf shelf.old shelf.new }
{
    faults_are_counted_by_name();
    let mut lanes = match Vec::with_capacity(alloc, sources.len()) {
        Ok(lanes) => lanes,
        Err(_) => {
            give_sources(sources, shelf);
            return Err(NotMade {
                shard: 0,
                why: LaneRefused::Memory,
            });
        }
    };
    turn_round(&mut sources);
    let filled = fill_lanes(
        alloc,
        &mut sources,
        readers,
        slack,
        starts,
        &mut lanes,
        shelf,
    );
    give_sources(sources, shelf);
    match filled {
        Ok(()) => Ok(lanes),
        Err(stop) => {
            give_lanes(lanes, shelf);
            Err(stop)
        }
    }
}
