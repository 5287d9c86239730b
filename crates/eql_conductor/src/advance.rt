//! A round of the conductor: what is read of the lanes is played by the parts, and what they find is given to the book.
ghost use Rattle.std.specs.Prelude.{◌≡◌, ◌≤◌, List, None, false, true, IfErr, IfOk, OnErr, OnOk};
ghost use Rattle.eql_values.specs.declared.found.Holder.{Holder};
ghost use Rattle.eql_outside.specs.Written.{WroteFront};
ghost use Rattle.eql_book.specs.Books.{let_out};
ghost use Rattle.eql_book.specs.Listing.{listing};
ghost use Rattle.eql_parts.specs.PartSteps.{CanDeliver, Rules};
ghost use Rattle.eql_conductor.specs.Benches.{LanesRest, StaysSame};
ghost use Rattle.eql_conductor.specs.Bounds.{RoundSpends};
ghost use Rattle.eql_conductor.specs.Going.{LanesGo, Went};
ghost use Rattle.eql_conductor.specs.LaneRounds.{LanesAreAt};
ghost use Rattle.eql_conductor.specs.PartRounds.{AreAtRest, AreSomehowAtRest};
ghost use Rattle.eql_conductor.specs.RoundNotes.{NotesParts, NotesRoundFront, NotesRound, delivered_to};
ghost use Rattle.eql_conductor.specs.Rounds.{CountsAreInRange, Gave, PlaysTo, RoundIs, RoundStops, StopsAt, StopsOut, TellsSink, found_by};

use crate::bench::Bench;
use crate::reading::TakenRound;
use crate::round::play_parts;
use crate::run::Conductor;
use crate::stop::Stop;
use eql_book::Book;
use eql_outside::{OutRefused, Sink};
use eql_values::{Mark, Matches};
use std::alloc::Global;

// Gives matches to the book.
fn add_found<K: Sink>(
    alloc: Global,
    book: &mut Book,
    found: Matches,
    sink: &mut K,
) -> Result<(), Stop>
    requires whole { book.old.whole ≡ true }
    ensures gave { OnOk result (Gave found book.old book.new
        (K.written sink.old) (K.written sink.new)) }
    ensures spoilt { OnErr result (book.new.whole ≡ false) }
    ensures front { OnErr result (WroteFront
        (listing book.old.places (let_out book.old.pipes book.old.kept found))
        (K.written sink.old) (K.written sink.new)) }
    ensures out { IfErr result StopsOut }
    ensures keeps { K.kept sink.new ≡ K.kept sink.old }
    ensures faults { TellsSink K.Sink sink.old sink.new result }
{
    match book.add(alloc, found, sink) {
        Ok(()) => Ok(()),
        Err(OutRefused::Failed) => Err(Stop::Write),
        Err(OutRefused::Memory) => Err(Stop::Memory),
    }
}

// Has what a round took played, and gives what is found to the book.
fn advance<B: Bench, K: Sink>(
    alloc: Global,
    bench: &mut B,
    book: &mut Book,
    sink: &mut K,
    taken: &TakenRound,
    last: Mark,
    batch: u32,
) -> Result<(), Stop>
    requires batch { (1 ≤ batch) × (batch ≤ 4096) }
    requires can { CanDeliver last taken.now.items taken.now.mark }
    requires some { AreSomehowAtRest last (B.known bench.old) }
    requires whole { book.old.whole ≡ true }
    ensures played { (rules : Rules) (all : List Holder)
        → AreAtRest rules all last (B.known bench.old)
        → OnOk result (PlaysTo rules all taken.now.items taken.now.mark (B.known bench.new)
        book.old book.new (K.written sink.old) (K.written sink.new)) }
    ensures kept { OnErr result (book.new.whole ≡ true → book.new ≡ book.old) }
    ensures front { (rules : Rules) (all : List Holder)
        → AreAtRest rules all last (B.known bench.old)
        → OnErr result (WroteFront (listing book.old.places
        (let_out book.old.pipes book.old.kept (found_by rules all taken.now.items)))
        (K.written sink.old) (K.written sink.new)) }
    ensures same { StaysSame (B.known bench.old) (B.known bench.new) }
    ensures lanes { LanesRest (B.known bench.old) (B.known bench.new) }
    ensures went { OnOk result (Went (B.known bench.old) (B.known bench.new)) }
    ensures stops { IfErr result (λ stop. StopsAt stop (B.known bench.old) (B.known bench.new)) }
    ensures notes { NotesParts (delivered_to taken.now.items) 3
        (B.known bench.old) (B.known bench.new) }
    ensures keeps { K.kept sink.new ≡ K.kept sink.old }
    ensures faults { TellsSink K.Sink sink.old sink.new result }
{
    let found = play_parts(alloc, bench, &taken.items, last, taken.mark, batch)?;
    add_found(alloc, book, found, sink)
}

/// Plays one round. Returns its mark where it counts: where the least low is greater than
/// the last mark.
pub(crate) fn play_round<B: Bench, K: Sink>(
    alloc: Global,
    bench: &mut B,
    book: &mut Book,
    sink: &mut K,
    last: Mark,
    batch: u32,
) -> Result<Option<Mark>, Stop>
    requires batch { (1 ≤ batch) × (batch ≤ 4096) }
    requires lanes { LanesAreAt None last (B.known bench.old) }
    requires some { AreSomehowAtRest last (B.known bench.old) }
    requires whole { book.old.whole ≡ true }
    ensures round { IfOk result (RoundIs last (B.known bench.old) (B.known bench.new)
        book.old book.new (K.written sink.old) (K.written sink.new)) }
    ensures broken { OnErr result (RoundStops last (B.known bench.old)
        book.old book.new (K.written sink.old) (K.written sink.new)) }
    ensures goes { LanesGo (B.known bench.old) (B.known bench.new) }
    ensures went { OnOk result (Went (B.known bench.old) (B.known bench.new)) }
    ensures stops { IfErr result (λ stop. StopsAt stop (B.known bench.old) (B.known bench.new)) }
    ensures spends { IfOk result (RoundSpends last (B.known bench.old) (B.known bench.new)) }
    ensures in_range { IfOk result (CountsAreInRange last (B.known bench.old)) }
    ensures notes { IfOk result (NotesRound last batch (B.known bench.old) (B.known bench.new)) }
    ensures broken_notes { OnErr result (NotesRoundFront last batch
        (B.known bench.old) (B.known bench.new)) }
    ensures keeps { K.kept sink.new ≡ K.kept sink.old }
    ensures faults { TellsSink K.Sink sink.old sink.new result }
{
    match Conductor::take_round(alloc, bench, last, batch)? {
        None => Ok(None),
        Some(taken) => {
            advance(alloc, bench, book, sink, &taken, last, batch)?;
            Ok(Some(taken.mark))
        }
    }
}
