//! How matches go through the pipes onto the page, and from it to the sink.
ghost use Rattle.std.specs.Prelude.{◌≡◌, ◌≢◌, ◌≤◌, ◌++◌, ◌∷◌, [], None, Err, OnOk, OnErr, string_bytes};
ghost use Rattle.eql_outside.specs.Outside.{Rose};
ghost use Rattle.eql_outside.specs.Unfailing.{IsUnfailing};
ghost use Rattle.eql_outside.specs.Written.{WroteAll, WroteFront, WroteBut};
ghost use Rattle.eql_book.specs.Books.{kept_after, let_out};
ghost use Rattle.eql_book.specs.Gates.{pipes_of};
ghost use Rattle.eql_book.specs.Ledgers.{kept_of};
ghost use Rattle.eql_book.specs.Listing.{listing};

use crate::ledger::Ledger;
use crate::page::Page;
use eql_outside::{OutRefused, Sink};
use eql_values::{Match, Matches};
use std::alloc::Global;

/// Counts a match, and prints it where all pipes let it through.
fn write_match<K: Sink>(
    ledger: &mut Ledger,
    page: &mut Page,
    alloc: Global,
    found: Match,
    sink: &mut K,
) -> Result<(), OutRefused>
    ensures pipes { pipes_of ledger.new.gates.items ≡ pipes_of ledger.old.gates.items }
    ensures places { page.new.places ≡ page.old.places }
    ensures kept { OnOk result (kept_of ledger.new
        ≡ kept_after (pipes_of ledger.old.gates.items) (kept_of ledger.old) (found ∷ [])) }
    ensures printed { OnOk result (WroteBut (string_bytes page.new.waiting)
        (string_bytes page.old.waiting ++ listing page.old.places
        (let_out (pipes_of ledger.old.gates.items) (kept_of ledger.old) (found ∷ [])))
        (K.written sink.old) (K.written sink.new)) }
    ensures part { OnErr result (WroteFront
        (string_bytes page.old.waiting ++ listing page.old.places
        (let_out (pipes_of ledger.old.gates.items) (kept_of ledger.old) (found ∷ [])))
        (K.written sink.old) (K.written sink.new)) }
    ensures keeps { K.kept sink.new ≡ K.kept sink.old }
    ensures silent { K.written sink.old ≡ None → K.written sink.new ≡ None }
    ensures cause { result ≡ Err OutRefused.Failed
        → Rose (K.fault_count sink.old) (K.fault_count sink.new) }
    ensures steady { result ≢ Err OutRefused.Failed
        → K.fault_count sink.new ≡ K.fault_count sink.old }
    ensures counts { K.fault_count sink.old ≤ K.fault_count sink.new }
    ensures unfailing { IsUnfailing (K.fault_plan sink.old)
        → (result ≢ Err OutRefused.Failed) × IsUnfailing (K.fault_plan sink.new) }
{
    match ledger.count(found)? {
        Some(numbered) => page.add(alloc, &numbered, sink),
        None => Ok(()),
    }
}

/// Counts matches, and prints those that all pipes let through.
fn write_matches<K: Sink>(
    ledger: &mut Ledger,
    page: &mut Page,
    alloc: Global,
    matches: Matches,
    sink: &mut K,
) -> Result<(), OutRefused>
    ensures pipes { pipes_of ledger.new.gates.items ≡ pipes_of ledger.old.gates.items }
    ensures places { page.new.places ≡ page.old.places }
    ensures kept { OnOk result (kept_of ledger.new
        ≡ kept_after (pipes_of ledger.old.gates.items) (kept_of ledger.old) matches) }
    ensures printed { OnOk result (WroteBut (string_bytes page.new.waiting)
        (string_bytes page.old.waiting ++ listing page.old.places
        (let_out (pipes_of ledger.old.gates.items) (kept_of ledger.old) matches))
        (K.written sink.old) (K.written sink.new)) }
    ensures part { OnErr result (WroteFront
        (string_bytes page.old.waiting ++ listing page.old.places
        (let_out (pipes_of ledger.old.gates.items) (kept_of ledger.old) matches))
        (K.written sink.old) (K.written sink.new)) }
    ensures keeps { K.kept sink.new ≡ K.kept sink.old }
    ensures silent { K.written sink.old ≡ None → K.written sink.new ≡ None }
    ensures cause { result ≡ Err OutRefused.Failed
        → Rose (K.fault_count sink.old) (K.fault_count sink.new) }
    ensures steady { result ≢ Err OutRefused.Failed
        → K.fault_count sink.new ≡ K.fault_count sink.old }
    ensures counts { K.fault_count sink.old ≤ K.fault_count sink.new }
    ensures unfailing { IsUnfailing (K.fault_plan sink.old)
        → (result ≢ Err OutRefused.Failed) × IsUnfailing (K.fault_plan sink.new) }
{
    for found in matches.into_items() {
        write_match(ledger, page, alloc, found, sink)?;
    }
    Ok(())
}

/// Counts matches, and writes those that all pipes let through.
pub(crate) fn write_all<K: Sink>(
    ledger: &mut Ledger,
    page: &mut Page,
    alloc: Global,
    matches: Matches,
    sink: &mut K,
) -> Result<(), OutRefused>
    requires { string_bytes page.old.waiting ≡ [] }
    ensures pipes { pipes_of ledger.new.gates.items ≡ pipes_of ledger.old.gates.items }
    ensures places { page.new.places ≡ page.old.places }
    ensures empty { OnOk result (string_bytes page.new.waiting ≡ []) }
    ensures kept { OnOk result (kept_of ledger.new
        ≡ kept_after (pipes_of ledger.old.gates.items) (kept_of ledger.old) matches) }
    ensures printed { OnOk result (WroteAll (listing page.old.places
        (let_out (pipes_of ledger.old.gates.items) (kept_of ledger.old) matches))
        (K.written sink.old) (K.written sink.new)) }
    ensures part { OnErr result (WroteFront (listing page.old.places
        (let_out (pipes_of ledger.old.gates.items) (kept_of ledger.old) matches))
        (K.written sink.old) (K.written sink.new)) }
    ensures keeps { K.kept sink.new ≡ K.kept sink.old }
    ensures silent { K.written sink.old ≡ None → K.written sink.new ≡ None }
    ensures cause { result ≡ Err OutRefused.Failed
        → Rose (K.fault_count sink.old) (K.fault_count sink.new) }
    ensures steady { result ≢ Err OutRefused.Failed
        → K.fault_count sink.new ≡ K.fault_count sink.old }
    ensures counts { K.fault_count sink.old ≤ K.fault_count sink.new }
    ensures unfailing { IsUnfailing (K.fault_plan sink.old)
        → (result ≢ Err OutRefused.Failed) × IsUnfailing (K.fault_plan sink.new) }
{
    write_matches(ledger, page, alloc, matches, sink)?;
    page.send(alloc, sink)?;
    Ok(())
}
