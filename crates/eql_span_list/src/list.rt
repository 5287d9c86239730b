//! The list itself, in safe code over its links.
ghost use Rattle.std.specs.Prelude.{◌≡◌, [], ◌∷◌, ◌++◌, IfOk, MatchOption, MatchResult};
ghost use Rattle.eql_span_list.specs.Entries.{HasTicket, HoldsAtTicket, IsAbsent, KeepsOthers, HasDistinctTickets, HasFirst, PopsFirst};

use crate::links::Links;
use crate::loose_box::LooseBox;
use crate::node::{Node, Ticket};
use crate::store::NodeStore;
use std::alloc::Global;
use std::marker::Model;

/// A list of values in the order in which they came, each named by the ticket that its push gave.
///
/// Contracts see it as the list of (ticket, value). Only `push_back` takes memory: one block for each value, freed
/// when the value leaves. Every call takes a fixed number of steps, however long the list is. A list may move to
/// another thread where its values may.
pub struct SpanList<T> {
    links: Links<T>,
    alloc: Global,
}

impl<T> Model for SpanList<T> {
    ghost use Rattle.std.specs.Prelude.{List};
    ghost use Rattle.eql_span_list.specs.Chain.{IsChain, entries};
    ghost use Rattle.eql_span_list.specs.declared.node.Ticket.{Ticket};

    ghost Value = { List (Ticket × T) };

    ghost view = { λ l. entries l.links.store.nodes };

    ghost invariant = { λ l. IsChain l.links.store.nodes l.links.first l.links.last };
}

impl<T> SpanList<T> {
    /// A list with no value. It takes no memory, and keeps `alloc` for the pushes.
    pub fn new(alloc: Global) -> SpanList<T>
        ensures { result ≡ [] }
    {
        SpanList {
            links: Links {
                store: NodeStore::new(),
                first: None,
                last: None,
            },
            alloc,
        }
    }

    /// The first value, or `None` exactly when the list is empty.
    pub fn front(&self) -> Option<&T>
        ensures first { MatchOption result (self.now ≡ []) (λ x. HasFirst self.now x.now) }
        ensures distinct { HasDistinctTickets self.now }
    {
        let first = self.links.first?;
        Some(&self.links.store.get(first).value)
    }

    /// Takes the value of a ticket of this list out. The others stay in order and keep their tickets.
    pub fn remove(&mut self, ticket: Ticket) -> T
        requires { HasTicket self.old ticket }
        ensures taken { HoldsAtTicket self.old ticket
            (λ xs x ys. (self.new ≡ xs ++ ys) × (result ≡ x)) }
        ensures gone { IsAbsent self.new ticket }
        ensures others { KeepsOthers self.old self.new ticket }
    {
        let block = self.links.store.take(self.alloc, ticket).into_box();
        let Node {
            previous,
            next,
            value,
        } = Box::into_inner(block);
        self.links.set_next(previous, next);
        self.links.set_previous(next, previous);
        value
    }

    /// Takes the first value out, or returns `None` exactly when the list is empty.
    pub fn pop_front(&mut self) -> Option<T>
        ensures { MatchOption result ((self.old ≡ []) × (self.new ≡ []))
            (λ x. PopsFirst self.old self.new x) }
    {
        let ticket = self.links.first?;
        Some(self.remove(ticket))
    }

    /// Ends a list that has no value left.
    fn destroy_empty(self)
        requires { self ≡ [] }
    {
        let SpanList {
            links: Links {
                store,
                first: _,
                last: _,
            },
            alloc: _,
        } = self;
        store.destroy_empty();
    }
}

impl<T: Drop> SpanList<T> {
    /// Puts a value in as the last, and returns its ticket, which no value of the list had.
    ///
    /// The error is want of memory: it hands the value back, and the list is as it was.
    pub fn push_back(&mut self, value: T) -> Result<Ticket, T>
        ensures fresh { IfOk result (λ t. IsAbsent self.old t) }
        ensures items { MatchResult result (λ t. self.new ≡ self.old ++ (t, value) ∷ [])
            (λ back. (self.new ≡ self.old) × (back ≡ value)) }
    {
        let previous = self.links.last;
        let node = Node {
            previous,
            next: None,
            value,
        };
        match Box::new(self.alloc, node) {
            Ok(block) => {
                let ticket = self.links.store.put(LooseBox::from_box(block));
                self.links.set_next(previous, Some(ticket));
                self.links.last = Some(ticket);
                Ok(ticket)
            }
            Err(refused) => {
                let Node {
                    previous: _,
                    next: _,
                    value,
                } = refused.value;
                Err(value)
            }
        }
    }
}

// Each value is dropped, and each block is freed.
impl<T: Drop> Drop for SpanList<T> {
    fn drop(mut self) {
        while let Some(value) = self.pop_front() {
            drop(value);
        }
        self.destroy_empty();
    }
}
