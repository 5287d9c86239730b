//! The printing of a listing: lines go into a buffer, which is written to the sink in pieces.
ghost use Rattle.std.specs.Prelude.{◌≡◌, ◌≢◌, ◌≤◌, ◌++◌, [], None, Err, OnOk, OnErr, IsOk, IsErr, string_bytes};
ghost use Rattle.eql_outside.specs.Outside.{Rose};
ghost use Rattle.eql_outside.specs.Unfailing.{IsUnfailing};
ghost use Rattle.eql_outside.specs.Written.{WroteFront, WroteBut};
ghost use Rattle.eql_book.specs.Listing.{match_line};

use crate::line::print_match;
use eql_outside::{OutRefused, Sink};
use eql_values::Numbered;
use std::alloc::{AllocError, Global};

/// How many bytes the buffer holds at least before it is written.
const PIECE: usize = 65536;

/// The bytes of a listing that aren't written yet.
#[derive(Drop)]
pub(crate) struct Page {
    /// The bytes.
    pub(crate) waiting: String,
    /// Whether events are printed with their places.
    pub(crate) places: bool,
}

impl Page {
    /// An empty page.
    pub(crate) fn new(alloc: Global, places: bool) -> Page
        ensures waiting { string_bytes result.waiting ≡ [] }
        ensures places { result.places ≡ places }
    {
        Page {
            waiting: String::new(alloc),
            places,
        }
    }

    /// Empties the page.
    pub(crate) fn clear(&mut self)
        ensures waiting { string_bytes self.new.waiting ≡ [] }
        ensures places { self.new.places ≡ self.old.places }
    {
        self.waiting.clear();
    }

    /// Puts the line of a match on the page.
    fn print(&mut self, alloc: Global, found: &Numbered) -> Result<(), AllocError>
        ensures places { self.new.places ≡ self.old.places }
        ensures printed { OnOk result
            (string_bytes self.new.waiting
            ≡ string_bytes self.old.waiting ++ match_line self.old.places found.now) }
    {
        print_match(
            alloc,
            &mut self.waiting,
            found.number,
            &found.found,
            self.places,
        )?;
        self.waiting.push_str("\n")
    }

    /// Prints a match. Where the page then holds a piece, it is written.
    pub(crate) fn add<K: Sink>(
        &mut self,
        alloc: Global,
        found: &Numbered,
        sink: &mut K,
    ) -> Result<(), OutRefused>
        ensures places { self.new.places ≡ self.old.places }
        ensures printed { OnOk result
            (WroteBut (string_bytes self.new.waiting)
            (string_bytes self.old.waiting ++ match_line self.old.places found.now)
            (K.written sink.old) (K.written sink.new)) }
        ensures part { OnErr result
            (WroteFront (string_bytes self.old.waiting ++ match_line self.old.places found.now)
            (K.written sink.old) (K.written sink.new)) }
        ensures keeps { K.kept sink.new ≡ K.kept sink.old }
        ensures silent { K.written sink.old ≡ None → K.written sink.new ≡ None }
        ensures cause { result ≡ Err OutRefused.Failed
            → Rose (K.fault_count sink.old) (K.fault_count sink.new) }
        ensures steady { result ≢ Err OutRefused.Failed
            → K.fault_count sink.new ≡ K.fault_count sink.old }
        ensures counts { K.fault_count sink.old ≤ K.fault_count sink.new }
        ensures unfailing { IsUnfailing (K.fault_plan sink.old)
            → (result ≢ Err OutRefused.Failed) × IsUnfailing (K.fault_plan sink.new) }
    {
        self.print(alloc, found)?;
        if self.waiting.len() < PIECE {
            return Ok(());
        }
        self.send(alloc, sink)
    }

    /// Writes what waits, if anything does.
    pub(crate) fn send<K: Sink>(&mut self, alloc: Global, sink: &mut K) -> Result<(), OutRefused>
        ensures places { self.new.places ≡ self.old.places }
        ensures empty { OnOk result (string_bytes self.new.waiting ≡ []) }
        ensures printed { OnOk result
            (WroteBut (string_bytes self.new.waiting) (string_bytes self.old.waiting)
            (K.written sink.old) (K.written sink.new)) }
        ensures part { OnErr result
            (WroteFront (string_bytes self.old.waiting)
            (K.written sink.old) (K.written sink.new)) }
        ensures keeps { K.kept sink.new ≡ K.kept sink.old }
        ensures silent { K.written sink.old ≡ None → K.written sink.new ≡ None }
        ensures cause { result ≡ Err OutRefused.Failed
            → Rose (K.fault_count sink.old) (K.fault_count sink.new) }
        ensures steady { result ≢ Err OutRefused.Failed
            → K.fault_count sink.new ≡ K.fault_count sink.old }
        ensures counts { K.fault_count sink.old ≤ K.fault_count sink.new }
        ensures unfailing { IsUnfailing (K.fault_plan sink.old)
            → (result ≢ Err OutRefused.Failed) × IsUnfailing (K.fault_plan sink.new) }
    {
        if self.waiting.is_empty() {
            return Ok(());
        }
        sink.write(alloc, self.waiting.as_bytes())?;
        self.waiting.clear();
        Ok(())
    }
}
