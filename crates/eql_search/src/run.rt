//! The search.
ghost use Rattle.std.specs.Prelude.{◌≡◌, ◌≤◌, ℕ, List, Option, true, IfErr, length};
ghost use Rattle.eql_outside.specs.Unfailing.{IsUnfailing};
ghost use Rattle.eql_conductor.specs.Runs.{IsKeptUnfailing};
ghost use Rattle.eql_conductor.specs.GoingOn.{AreOfTexts};
ghost use Rattle.eql_search.specs.Answers.{AreUnfailing, IsNoFault};
ghost use Rattle.eql_search.specs.Beginnings.{MayBegin, MayKeepOn, cuts_of};
ghost use Rattle.eql_search.specs.Keeping.{KeepsOn};
ghost use Rattle.eql_search.specs.Outcomes.{AreCutsFrom, AreInBounds, LanesEnd, MaySearch, StopsForCause, WritesListing, beginning_of};
ghost use Rattle.eql_search.specs.Running.{TriesToSearch};
ghost use Rattle.eql_search.specs.Searches.{AreBegun, rules_of};

use crate::parting::{PARTS, make_parts};
use crate::rules::Rules;
use eql_conductor::{Run, Stop};
use eql_hands::Gate;
use eql_hub_run::{HubOpening, run_hub};
use eql_lane::Lane;
use eql_outside::{Disk, Sink, Source};
use eql_values::{Holders, LineReader};
use std::alloc::Global;
use std::marker::Brand;
use std::mem::replace;
use std::sync::Wait;
use std::sync::ledger::{Blank, Ledger};
use std::thread::Threads;

// Searches lanes with the probes of a ledger, and hands the lanes back.
fn search_lanes<
    R: Threads + Wait + Sync,
    S: Source + Send + Sync,
    L: LineReader + Send + Sync,
    G: Ledger + Send + Sync,
    T: HubOpening<S, L>,
    K: Sink,
    D: Disk,
    W: Gate + Sync,
>(
    rt: &R,
    alloc: Global,
    lanes: Vec<Lane<S, L>>,
    rules: Rules,
    holders: Holders,
    run: &mut Run<D>,
    hands: u32,
    sink: &mut K,
    blank: Blank,
    gate: &W,
) -> (Result<(), Stop>, Vec<Lane<S, L>>)
    requires blank { (blank.name ≡ G.name) × (blank.parts ≡ G.parts) × (16 ≤ G.parts) }
    requires texts { AreOfTexts S.left T.text lanes.items }
    requires bounds { AreInBounds run.old.plan rules hands }
    requires some { 1 ≤ length lanes.items }
    requires few { length lanes.items ≤ 256 }
    requires lanes { AreBegun L.read_of lanes.items }
    requires whole { run.old.book.whole ≡ true }
    requires begins { MayBegin (rules_of L.read_of rules lanes.items) run.old.book.pipes
        run.old.plan.mark (cuts_of lanes.items) holders run.old.book.kept }
    requires keeps { MayKeepOn D.history run.old.plan (length lanes.items) run.old.keep }
    ensures { TriesToSearch S.Source L.LineReader K.Sink D.Disk T.text lanes.items result.1.items
        (record { stages = rules.stages; span = rules.span }) holders
        sink.old sink.new run.old run.new result.0 }
{
    let (_ledger, share) = blank.open::<G>();
    match make_parts(alloc, rules, holders, run.plan.mark, share) {
        Err(_) => (Err(Stop::Memory), lanes),
        Ok(parts) => {
            let (end, back) = run_hub::<R, S, L, G, T, K, D, W>(
                rt, alloc, lanes, parts, hands, run, sink, gate,
            );
            match end {
                Some(end) => (end, back),
                None => (Err(Stop::Memory), back),
            }
        }
    }
}

/// Searches the texts of the lanes for sequences by these rules, and writes the listing through the run's book. A batch is 1
/// to 4,096 lines. Lane s is that of shard s, of 1 to 256; all have one slack and one reading of lines. They begin afresh, as
/// do the book and the plan's mark, and nothing is pending; or all of them begin with what a cut keeps that fits the search, at
/// the cut's time. With a `keep`, cuts are put on its disk after each `every` rounds.
///
/// Up to 65,536 hands, each in a thread of its own that passes the gate, feed lanes and turn parts beside this thread. What is
/// said here of a result holds whatever they do.
///
/// Matches are written while the shards are read. On `Ok` the sink got the whole listing, from the line after those that the
/// book counts, and each lane is read to its end. Else it got a front of that:
///
/// - `Read` where the source of a lane failed, `Write` where the sink failed, `Disk` where the disk failed: of several faults
///   at once the first of these is told, and no fault is told as another cause,
/// - `Limit` where a shard has more lines, or as many bytes, as `eql_lane` says; `Generation` where the disk's generations came
///   to their end,
/// - `Memory` where memory ran out.
///
/// `Worn` is never returned.
pub fn search<
    R: Threads + Wait + Sync,
    S: Source + Send + Sync,
    L: LineReader + Send + Sync,
    K: Sink,
    D: Disk,
    W: Gate + Sync,
>(
    rt: &R,
    alloc: Global,
    lanes: &mut Vec<Lane<S, L>>,
    rules: Rules,
    holders: Holders,
    run: &mut Run<D>,
    hands: u32,
    sink: &mut K,
    gate: &W,
) -> Result<(), Stop>
    ghost known_texts: { Option (List (List ℕ)) }

    // With what it begins. The texts of the lanes are told or not: what is ensured holds for all
    // texts of which they are.
    requires bounds { AreInBounds run.old.plan rules hands }
    requires begins { MaySearch S.Source L.LineReader D.Disk known_texts rules lanes.old.items
        holders run.old }

    // What was written.
    ensures wrote { WritesListing K.Sink known_texts
        (beginning_of L.LineReader rules lanes.old.items holders run.old)
        sink.old sink.new result }

    // Which cuts were put on the disk, and that the lines that they count were written and kept.
    ensures keeps { KeepsOn D.history run.old.plan.head run.old.plan.mark
        (AreCutsFrom K.Sink known_texts
        (beginning_of L.LineReader rules lanes.old.items holders run.old)
        sink.old sink.new) run.old.keep run.new.keep result }

    // What became of the lanes, in their order.
    ensures lanes { LanesEnd S.Source L.LineReader known_texts
        (beginning_of L.LineReader rules lanes.old.items holders run.old)
        lanes.old.items lanes.new.items result }

    // Why it stopped, and that no fault was passed over.
    ensures stops { StopsForCause K.Sink D.Disk known_texts lanes.old.items lanes.new.items
        sink.old sink.new run.old.keep run.new.keep result }

    // Where no call is planned to fail, none fails.
    ensures unfailing { IsUnfailing (K.fault_plan sink.old)
        → AreUnfailing S.fault_plan lanes.old.items → IsKeptUnfailing D.fault_plan run.old.keep
        → IfErr result IsNoFault × IsUnfailing (K.fault_plan sink.new)
        × AreUnfailing S.fault_plan lanes.new.items × IsKeptUnfailing D.fault_plan run.new.keep }
{
    let taken = replace(lanes, Vec::new(alloc));
    let blank = Blank::new(PARTS as u64);
    let (ran, back) = search_lanes::<R, S, L, Brand, Brand, K, D, W>(
        rt, alloc, taken, rules, holders, run, hands, sink, blank, gate,
    );
    replace(lanes, back).destroy_empty();
    ran
}
