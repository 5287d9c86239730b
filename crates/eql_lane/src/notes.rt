//! Wanted lines, noted with their places in bytes that are passed over.
ghost use Rattle.std.specs.Prelude.{◌≡◌, ◌≢◌, ◌⊎◌, ◌≤◌, ◌<◌, ◌+◌, ◌++◌, ◌^◌, true, false, ℕ, List, [], None, Some, Ok, IfOk, IfErr, IfSome, length};
ghost use Rattle.std.specs.List.{slice_get};
ghost use Rattle.std.specs.List.Sorted.{IsStrictlyIncreasing};
ghost use Rattle.eql_lane.specs.Buffers.{HasFeedAt, IsOneLine};
ghost use Rattle.eql_lane.specs.Noting.{Noted, NotesOf, Locates, IsMissing, is_line, is_cut, at_hand, last_line, line_ended};

use crate::buffer::feed_in;
use eql_values::{Lines, Memory, Places};
use std::alloc::Global;
use std::marker::Model;

/// What is noted of the lines in bytes that are passed over.
#[derive(Drop)]
pub(crate) struct Notes {
    // The wanted lines, which ascend.
    wanted: Vec<u32>,
    // The line at hand, from 1.
    line: u64,
    // How many bytes stand before it.
    at: u64,
    // How many bytes were passed over.
    passed: u64,
    // The wanted lines before the line at hand, with their places.
    places: Vec<(u32, u64)>,
}

impl Model for Notes {
    ghost use Rattle.std.specs.Prelude.{◌≤◌, ◌+◌, length, vec_capacity};
    ghost use Rattle.eql_lane.specs.Noting.{Noted};

    ghost Value = { Noted };

    ghost view = { λ n. record {
      wanted = n.wanted.items;
      line = n.line;
      at = n.at;
      passed = n.passed;
      places = n.places.items;
    } };

    // Room for the places of all wanted lines.
    ghost invariant = { λ n. (length n.wanted.items ≤ vec_capacity n.places)
        × (n.line ≤ n.passed + 1) };
}

impl Notes {
    /// Nothing was passed over.
    pub(crate) fn new(alloc: Global, wanted: Lines) -> Result<Notes, Memory>
        requires ascend { IsStrictlyIncreasing wanted }
        ensures noted { IfOk result (λ notes. NotesOf [] notes) }
        ensures wanted { IfOk result (λ notes. notes.wanted ≡ wanted) }
        ensures passed { IfOk result (λ notes. notes.passed ≡ 0) }
    {
        let wanted = wanted.into_items();
        let places = Vec::with_capacity(alloc, wanted.len())?;
        Ok(Notes {
            wanted,
            line: 1,
            at: 0,
            passed: 0,
            places,
        })
    }

    // The next wanted line, if one is left.
    fn next(&self) -> Option<u32>
        ensures { result ≡ slice_get self.now.wanted (length self.now.places) }
    {
        self.wanted.get(self.places.len()).copied()
    }

    // Whether the line at hand is the next that is wanted.
    fn is_next(&self) -> bool
        ensures { result
            ≡ is_line (slice_get self.now.wanted (length self.now.places)) self.now.line }
    {
        match self.next() {
            None => false,
            Some(line) => u64::from(line) == self.line,
        }
    }

    // Notes the line at hand, if it is the next that is wanted.
    fn note(&mut self)
        ensures { self.new
            ≡ record self.old { places = self.old.places ++ at_hand self.old } }
    {
        let Some(line) = self.next() else {
            return;
        };
        if u64::from(line) != self.line {
            return;
        }
        match self.places.push((line, self.at)) {
            Ok(()) => {}
            Err(_) => unreachable!(),
        }
    }

    // Ends the line at hand, with the last of so many bytes.
    fn end_line(&mut self, count: u64)
        requires some { 1 ≤ count }
        requires far { self.old.passed + count < 2 ^ 63 }
        ensures { self.new ≡ line_ended self.old count }
    {
        self.note();
        self.line += 1;
        self.passed += count;
        self.at = self.passed;
    }

    // Where the line at hand ends in these bytes, if its line feed is there and a line is wanted.
    fn line_end(&self, bytes: &[u8]) -> Option<usize>
        ensures found { IfSome result (λ end. HasFeedAt end bytes.now) }
        ensures none { result ≡ None
            → IsOneLine bytes.now ⊎ (slice_get self.now.wanted (length self.now.places) ≡ None) }
    {
        if self.next().is_none() {
            return None;
        }
        feed_in(bytes)
    }

    /// Passes over bytes.
    pub(crate) fn pass(&mut self, bytes: &[u8])
        requires far { self.old.passed + length bytes.now < 2 ^ 63 }
        ensures noted { (front : List ℕ) → NotesOf front self.old
            → NotesOf (front ++ bytes.now) self.new }
        ensures wanted { self.new.wanted ≡ self.old.wanted }
        ensures passed { self.new.passed ≡ self.old.passed + length bytes.now }
    {
        let mut from = 0;
        while let Some(end) = self.line_end(&bytes[from..]) {
            self.end_line(end as u64 + 1);
            from += end + 1;
        }
        self.passed += (bytes.len() - from) as u64;
    }

    /// Whether the bytes end in the next wanted line, before its line feed.
    pub(crate) fn is_cut(&self) -> bool
        ensures { result ≡ is_cut self.now }
    {
        self.at < self.passed && self.is_next()
    }

    // Where the text ends here, so does the line at hand, if it has bytes.
    fn close(&mut self, ended: bool)
        ensures { self.new
            ≡ record self.old { places = self.old.places ++ last_line ended self.old } }
    {
        if ended && self.at < self.passed {
            self.note();
        }
    }

    /// Ends the notes, where the text ends here or not. It returns the least wanted line that is
    /// missing.
    pub(crate) fn finish(&mut self, ended: bool) -> Option<u32>
        ensures located { result ≡ None → (front rest : List ℕ) → NotesOf front self.old
            → (ended ≡ true → rest ≡ []) → Locates front rest self.old.wanted self.new.places }
        ensures missing { IfSome result (λ line. (front rest : List ℕ) → NotesOf front self.old
            → (ended ≡ true → rest ≡ [])
            → (ended ≡ false → rest ≡ [] → is_cut self.old ≡ false)
            → IsMissing front rest self.old.wanted line) }
        ensures cut { result ≡ None → ended ≡ false → is_cut self.old ≡ false }
    {
        self.close(ended);
        self.next()
    }

    /// The places that were noted.
    pub(crate) fn into_places(self) -> Places
        ensures { result ≡ self.places }
    {
        Places::of(self.places)
    }
}
