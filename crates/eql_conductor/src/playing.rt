//! The parts' half of a round: what was taken from the lanes is delivered, played until nothing waits, and what was found is
//! collected.
ghost use Rattle.std.specs.Prelude.{◌≡◌, ◌<◌, ◌≤◌, ◌+◌, ◌∷◌, ◌++◌, [], ℕ, List, length, map, IfErr, IfOk, OnErr, OnOk};
ghost use Rattle.eql_values.specs.declared.found.Holder.{Holder};
ghost use Rattle.eql_values.specs.Ordered.{numbers};
ghost use Rattle.eql_values.specs.Routing.{routed_items};
ghost use Rattle.eql_parts.specs.PartSteps.{CanDeliver, Rules};
ghost use Rattle.eql_parts.specs.Spreading.{part_number};
ghost use Rattle.eql_conductor.specs.Finding.{found_of};
ghost use Rattle.eql_conductor.specs.Benches.{LanesRest, StaysSame};
ghost use Rattle.eql_conductor.specs.Going.{StopsBy, Went};
ghost use Rattle.eql_conductor.specs.PartRounds.{AreCollected, AreDelivered, FewerWait, AreAtRest, AreSomehowCollected, AreSomehowDelivered, AreSomehowAtRest, AreSomehowPlayed, TurnGoes, ArePlayed, WaitAtMost, pending_after};
ghost use Rattle.eql_conductor.specs.RoundNotes.{NotesPart, NotesParts, NotesTurn, delivered_to};
ghost use Rattle.eql_conductor.specs.declared.stop.Stop.TheVariants.{Memory as OutOfMemory};

use crate::bench::Bench;
use crate::routing::spread;
use crate::stop::{Stop, unplayed};
use eql_parts::{PartOp, PartReply};
use eql_values::{Items, Mark, Matches};
use std::alloc::Global;

// Delivers to one part its own of all events.
fn deliver_one<B: Bench>(
    bench: &mut B,
    p: u32,
    items: &Items,
    own: Items,
    last: Mark,
    mark: Mark,
) -> Result<(), Stop>
    requires place { p < (B.known bench.old).parts }
    requires own { own ≡ routed_items part_number p items.now }
    requires can { CanDeliver last items.now mark }
    requires some { AreSomehowDelivered items.now last mark p (B.known bench.old) }
    ensures parts { (rules : Rules) (all : List Holder)
        → AreDelivered rules all items.now last mark p (B.known bench.old)
        → OnOk result (AreDelivered rules all items.now last mark (p + 1) (B.known bench.new)) }
    ensures same { StaysSame (B.known bench.old) (B.known bench.new) }
    ensures lanes { LanesRest (B.known bench.old) (B.known bench.new) }
    ensures went { OnOk result (Went (B.known bench.old) (B.known bench.new)) }
    ensures stops { IfErr result (λ stop. StopsBy stop (B.known bench.old) (B.known bench.new)) }
    ensures notes { NotesPart p 0 1 (B.known bench.old) (B.known bench.new) }
{
    match bench.part(p, PartOp::Deliver { items: own, mark }) {
        Err(by) => Err(unplayed(by)),
        Ok(PartReply::Done) => Ok(()),
        Ok(PartReply::Memory { back: _, items: _ }) => Err(Stop::Memory),
        Ok(_) => unreachable!(),
    }
}

/// Delivers to each part its events.
pub(crate) fn deliver_all<B: Bench>(
    alloc: Global,
    bench: &mut B,
    items: &Items,
    last: Mark,
    mark: Mark,
) -> Result<(), Stop>
    requires can { CanDeliver last items.now mark }
    requires some { AreSomehowAtRest last (B.known bench.old) }
    ensures parts { (rules : Rules) (all : List Holder)
        → AreAtRest rules all last (B.known bench.old)
        → OnOk result (ArePlayed rules all items.now mark 0 (B.known bench.new)) }
    ensures same { StaysSame (B.known bench.old) (B.known bench.new) }
    ensures lanes { LanesRest (B.known bench.old) (B.known bench.new) }
    ensures went { OnOk result (Went (B.known bench.old) (B.known bench.new)) }
    ensures stops { IfErr result (λ stop. StopsBy stop (B.known bench.old) (B.known bench.new)) }
    ensures notes { NotesParts (λ p. 0) 1 (B.known bench.old) (B.known bench.new) }
{
    let mut lists = match spread(alloc, items) {
        Ok(lists) => lists.into_iter(),
        Err(_) => return Err(Stop::Memory),
    };
    let count = bench.parts();
    for p in 0..count {
        let Some(own) = lists.next() else {
            unreachable!()
        };
        deliver_one(bench, p, items, own, last, mark)?;
    }
    Ok(())
}

// Turns one part once, at which at most so many events wait. Returns how many may wait now,
// if some may.
fn turn_once<B: Bench>(
    bench: &mut B,
    p: u32,
    items: &Items,
    mark: Mark,
    batch: u32,
    left: usize,
) -> Result<Option<usize>, Stop>
    requires place { p < (B.known bench.old).parts }
    requires batch { (1 ≤ batch) × (batch ≤ 4096) }
    requires left { WaitAtMost p left (B.known bench.old) }
    requires some { AreSomehowPlayed items.now mark p (B.known bench.old) }
    ensures fewer { IfOk result (FewerWait p left (B.known bench.new)) }
    ensures parts { (rules : Rules) (all : List Holder)
        → ArePlayed rules all items.now mark p (B.known bench.old)
        → IfOk result (TurnGoes rules all items.now mark p (B.known bench.new)) }
    ensures same { StaysSame (B.known bench.old) (B.known bench.new) }
    ensures lanes { LanesRest (B.known bench.old) (B.known bench.new) }
    ensures went { OnOk result (Went (B.known bench.old) (B.known bench.new)) }
    ensures stops { IfErr result (λ stop. StopsBy stop (B.known bench.old) (B.known bench.new)) }
    ensures notes { (w : ℕ) → WaitAtMost p w (B.known bench.old)
        → IfOk result (NotesTurn w p (B.known bench.old) (B.known bench.new)) }
    ensures broken_notes { (w : ℕ) → WaitAtMost p w (B.known bench.old)
        → OnErr result (NotesPart p w 1 (B.known bench.old) (B.known bench.new)) }
{
    match bench.part(p, PartOp::Turn { max: batch }) {
        Err(by) => Err(unplayed(by)),
        Ok(PartReply::Turned { items: n }) => Ok(Some(left - n as usize)),
        Ok(PartReply::Idle) => Ok(None),
        Ok(PartReply::Memory { back: _, items: _ }) => Err(Stop::Memory),
        Ok(_) => unreachable!(),
    }
}

// Turns one part until nothing waits there.
fn turn_one<B: Bench>(
    bench: &mut B,
    p: u32,
    items: &Items,
    mark: Mark,
    batch: u32,
) -> Result<(), Stop>
    requires place { p < (B.known bench.old).parts }
    requires batch { (1 ≤ batch) × (batch ≤ 4096) }
    requires some { AreSomehowPlayed items.now mark p (B.known bench.old) }
    ensures parts { (rules : Rules) (all : List Holder)
        → ArePlayed rules all items.now mark p (B.known bench.old)
        → OnOk result (ArePlayed rules all items.now mark (p + 1) (B.known bench.new)) }
    ensures same { StaysSame (B.known bench.old) (B.known bench.new) }
    ensures lanes { LanesRest (B.known bench.old) (B.known bench.new) }
    ensures went { OnOk result (Went (B.known bench.old) (B.known bench.new)) }
    ensures stops { IfErr result (λ stop. StopsBy stop (B.known bench.old) (B.known bench.new)) }
    ensures notes { NotesPart p (delivered_to items.now p) 1
        (B.known bench.old) (B.known bench.new) }
{
    let mut left = items.items().len();
    loop {
        match turn_once(bench, p, items, mark, batch, left)? {
            None => return Ok(()),
            Some(less) => left = less,
        }
    }
}

/// Turns each part until nothing waits there.
pub(crate) fn turn_all<B: Bench>(
    bench: &mut B,
    items: &Items,
    mark: Mark,
    batch: u32,
) -> Result<(), Stop>
    requires batch { (1 ≤ batch) × (batch ≤ 4096) }
    requires some { AreSomehowPlayed items.now mark 0 (B.known bench.old) }
    ensures parts { (rules : Rules) (all : List Holder)
        → ArePlayed rules all items.now mark 0 (B.known bench.old)
        → OnOk result (AreCollected rules all items.now mark 0 (B.known bench.new)) }
    ensures same { StaysSame (B.known bench.old) (B.known bench.new) }
    ensures lanes { LanesRest (B.known bench.old) (B.known bench.new) }
    ensures went { OnOk result (Went (B.known bench.old) (B.known bench.new)) }
    ensures stops { IfErr result (λ stop. StopsBy stop (B.known bench.old) (B.known bench.new)) }
    ensures notes { NotesParts (delivered_to items.now) 1
        (B.known bench.old) (B.known bench.new) }
{
    let count = bench.parts();
    for p in 0..count {
        turn_one(bench, p, items, mark, batch)?;
    }
    Ok(())
}

// Collects what one part found.
fn collect_one<B: Bench>(bench: &mut B, p: u32, items: &Items, mark: Mark) -> Result<Matches, Stop>
    requires place { p < (B.known bench.old).parts }
    requires some { AreSomehowCollected items.now mark p (B.known bench.old) }
    ensures found { (rules : Rules) (all : List Holder)
        → AreCollected rules all items.now mark p (B.known bench.old)
        → IfOk result (λ found. found ≡ found_of rules all items.now p) }
    ensures parts { (rules : Rules) (all : List Holder)
        → AreCollected rules all items.now mark p (B.known bench.old)
        → OnOk result (AreCollected rules all items.now mark (p + 1) (B.known bench.new)) }
    ensures same { StaysSame (B.known bench.old) (B.known bench.new) }
    ensures lanes { LanesRest (B.known bench.old) (B.known bench.new) }
    ensures went { OnOk result (Went (B.known bench.old) (B.known bench.new)) }
    ensures stops { IfErr result (λ stop. StopsBy stop (B.known bench.old) (B.known bench.new)) }
    ensures notes { NotesPart p 0 1 (B.known bench.old) (B.known bench.new) }
{
    match bench.part(p, PartOp::Collect) {
        Err(by) => Err(unplayed(by)),
        Ok(PartReply::Found { matches, done: _ }) => Ok(matches),
        Ok(_) => unreachable!(),
    }
}

// Adds a list at the end.
fn add_matches(lists: &mut Vec<Matches>, matches: Matches) -> Result<(), Stop>
    ensures ok { OnOk result (lists.new.items ≡ lists.old.items ++ matches ∷ []) }
    ensures memory { IfErr result (λ stop. stop ≡ OutOfMemory) }
{
    match lists.push(matches) {
        Ok(()) => Ok(()),
        Err(_) => Err(Stop::Memory),
    }
}

/// Collects what each part found.
pub(crate) fn collect_all<B: Bench>(
    alloc: Global,
    bench: &mut B,
    items: &Items,
    mark: Mark,
) -> Result<Vec<Matches>, Stop>
    requires some { AreSomehowCollected items.now mark 0 (B.known bench.old) }
    ensures found { (rules : Rules) (all : List Holder)
        → AreCollected rules all items.now mark 0 (B.known bench.old)
        → IfOk result (λ lists. lists.items ≡ map (found_of rules all items.now) (numbers 16)) }
    ensures parts { (rules : Rules) (all : List Holder)
        → AreCollected rules all items.now mark 0 (B.known bench.old)
        → OnOk result (AreAtRest rules (pending_after rules all items.now) mark
        (B.known bench.new)) }
    ensures same { StaysSame (B.known bench.old) (B.known bench.new) }
    ensures lanes { LanesRest (B.known bench.old) (B.known bench.new) }
    ensures went { OnOk result (Went (B.known bench.old) (B.known bench.new)) }
    ensures stops { IfErr result (λ stop. StopsBy stop (B.known bench.old) (B.known bench.new)) }
    ensures notes { NotesParts (λ p. 0) 1 (B.known bench.old) (B.known bench.new) }
{
    let count = bench.parts();
    let mut lists = Vec::new(alloc);
    for p in 0..count {
        let matches = collect_one(bench, p, items, mark)?;
        add_matches(&mut lists, matches)?;
    }
    Ok(lists)
}
