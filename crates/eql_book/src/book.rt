//! The book: what a run has listed, and what its pipes hold.
ghost use Rattle.std.specs.Prelude.{◌≡◌, ◌≢◌, ◌≤◌, [], None, Err, IfOk, OnOk, OnErr, false, string_bytes, true};
ghost use Rattle.eql_outside.specs.Outside.{Rose};
ghost use Rattle.eql_outside.specs.Unfailing.{IsUnfailing};
ghost use Rattle.eql_outside.specs.Written.{WroteAll, WroteFront};
ghost use Rattle.eql_book.specs.Books.{FitsPipes, book_after, held_back, let_out};
ghost use Rattle.eql_book.specs.Listing.{listing};

use crate::gate::gates_of;
use crate::ledger::Ledger;
use crate::page::Page;
use crate::rest::write_rest;
use crate::writing::write_all;
use eql_outside::{OutRefused, Sink};
use eql_values::{BookCut, Matches, Memory, Pipes};
use std::alloc::Global;
use std::marker::Model;

/// A book: it numbers the matches of a run, passes them through the pipes of its query, and writes
/// the lines of those that come out.
#[derive(Drop)]
pub struct Book {
    ledger: Ledger,
    page: Page,
    whole: bool,
}

impl Model for Book {
    ghost use Rattle.std.specs.Prelude.{◌≡◌, [], string_bytes};
    ghost use Rattle.eql_book.specs.Books.{BookState};
    ghost use Rattle.eql_book.specs.Gates.{pipes_of};
    ghost use Rattle.eql_book.specs.Ledgers.{kept_of};

    ghost Value = { BookState };

    ghost view = { λ b. record {
      pipes = pipes_of b.ledger.gates.items;
      places = b.page.places;
      kept = kept_of b.ledger;
      whole = b.whole;
    } };

    ghost invariant = { λ b. string_bytes b.page.waiting ≡ [] };
}

impl Book {
    /// A book that goes on from what a cut kept of the output. A new run has 0 found and 0 listed,
    /// and of each pipe the state before any match: a head that let 0 through, a tail that keeps
    /// none. With `places` each event is followed by the bytes of its shard before its line. The
    /// one error is want of memory.
    pub fn new(alloc: Global, pipes: Pipes, from: BookCut, places: bool) -> Result<Book, Memory>
        requires { FitsPipes pipes from }
        ensures { IfOk result (λ book.
            book ≡ record { pipes = pipes; places = places; kept = from; whole = true }) }
    {
        let gates = gates_of(alloc, pipes.items(), from.pipes.into_items())?;
        let ledger = Ledger {
            found: from.found,
            listed: from.listed,
            gates,
        };
        Ok(Book {
            ledger,
            page: Page::new(alloc, places),
            whole: true,
        })
    }

    /// Numbers the matches, passes them through the pipes and writes the lines of those that come
    /// out before the end. A match beyond the greatest number of 64 bits is left out. After a
    /// refusal a front of the lines is written, and the book isn't whole. `Failed` comes exactly
    /// when the sink failed.
    pub fn add<K: Sink>(
        &mut self,
        alloc: Global,
        matches: Matches,
        sink: &mut K,
    ) -> Result<(), OutRefused>
        requires { self.old.whole ≡ true }
        ensures book { OnOk result (self.new ≡ book_after self.old matches) }
        ensures lines { OnOk result (WroteAll
            (listing self.old.places (let_out self.old.pipes self.old.kept matches))
            (K.written sink.old) (K.written sink.new)) }
        ensures front { OnErr result (WroteFront
            (listing self.old.places (let_out self.old.pipes self.old.kept matches))
            (K.written sink.old) (K.written sink.new)) }
        ensures refused { OnErr result (self.new.whole ≡ false) }
        ensures keeps { K.kept sink.new ≡ K.kept sink.old }
        ensures silent { K.written sink.old ≡ None → K.written sink.new ≡ None }
        ensures cause { result ≡ Err OutRefused.Failed
            → Rose (K.fault_count sink.old) (K.fault_count sink.new) }
        ensures steady { result ≢ Err OutRefused.Failed
            → K.fault_count sink.new ≡ K.fault_count sink.old }
        ensures counts { K.fault_count sink.old ≤ K.fault_count sink.new }
        ensures unfailing { IsUnfailing (K.fault_plan sink.old)
            → (result ≢ Err OutRefused.Failed) × IsUnfailing (K.fault_plan sink.new) }
    {
        match write_all(&mut self.ledger, &mut self.page, alloc, matches, sink) {
            Ok(()) => Ok(()),
            Err(refused) => {
                spoil(&mut self.page, &mut self.whole);
                Err(refused)
            }
        }
    }

    /// Writes the lines of the matches that the pipes hold back until the end. The book stays as it
    /// is; after a refusal it isn't whole.
    pub fn end<K: Sink>(&mut self, alloc: Global, sink: &mut K) -> Result<(), OutRefused>
        requires { self.old.whole ≡ true }
        ensures book { OnOk result (self.new ≡ self.old) }
        ensures lines { OnOk result (WroteAll (listing self.old.places (held_back self.old))
            (K.written sink.old) (K.written sink.new)) }
        ensures front { OnErr result (WroteFront (listing self.old.places (held_back self.old))
            (K.written sink.old) (K.written sink.new)) }
        ensures refused { OnErr result (self.new.whole ≡ false) }
        ensures keeps { K.kept sink.new ≡ K.kept sink.old }
        ensures silent { K.written sink.old ≡ None → K.written sink.new ≡ None }
        ensures cause { result ≡ Err OutRefused.Failed
            → Rose (K.fault_count sink.old) (K.fault_count sink.new) }
        ensures steady { result ≢ Err OutRefused.Failed
            → K.fault_count sink.new ≡ K.fault_count sink.old }
        ensures counts { K.fault_count sink.old ≤ K.fault_count sink.new }
        ensures unfailing { IsUnfailing (K.fault_plan sink.old)
            → (result ≢ Err OutRefused.Failed) × IsUnfailing (K.fault_plan sink.new) }
    {
        let ledger = &self.ledger;
        match write_rest(&ledger.gates, &mut self.page, alloc, sink) {
            Ok(()) => Ok(()),
            Err(refused) => {
                spoil(&mut self.page, &mut self.whole);
                Err(refused)
            }
        }
    }

    /// What a cut keeps of the output. The one error is want of memory.
    pub fn cut(&self, alloc: Global) -> Result<BookCut, Memory>
        requires { self.now.whole ≡ true }
        ensures kept { IfOk result (λ cut. cut ≡ self.now.kept) }
        ensures fits { IfOk result (λ cut. FitsPipes self.now.pipes cut) }
    {
        let cut = self.ledger.cut(alloc)?;
        Ok(cut)
    }

    /// What it keeps fits its pipes. It does nothing.
    pub fn fits(&self)
        ensures { FitsPipes self.now.pipes self.now.kept }
    {
        let _ = &self.ledger;
    }

    /// Whether no call was refused.
    pub fn is_whole(&self) -> bool
        ensures { result ≡ self.now.whole }
    {
        self.whole
    }
}

/// Lets what wasn't written go. The book isn't whole from now on.
fn spoil(page: &mut Page, whole: &mut bool)
    ensures waiting { string_bytes page.new.waiting ≡ [] }
    ensures places { page.new.places ≡ page.old.places }
    ensures whole { whole.new ≡ false }
{
    page.clear();
    *whole = false;
}
