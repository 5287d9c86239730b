//! The machine of one key, whose sequences are on the list of first timestamps by their tags.
ghost use Rattle.std.specs.Prelude.{◌≡◌, ℕ, ◌+◌, ◌-◌, ◌<◌, ◌≤◌, ◌++◌, ◌∷◌, [], All, IfOk, OnErr, IsTrue, None, Some, is_some, length, map, replicate, slice_set, IsPermutation, MatchOption, true, false};
ghost use Rattle.std.specs.Option.{option_to_list};
ghost use Rattle.eql_values.specs.Masks.{has_after};
ghost use Rattle.eql_values.specs.Matching.{key_event_by};
ghost use Rattle.eql_laws.specs.Slots.{chain_coming, slots_after};
ghost use Rattle.eql_auto.specs.Machine.{ComesAfter, alive_in, chains_of, slot_after, slot_at, stages, tags_of};
ghost use Rattle.eql_auto.specs.Starts.{first_event};
ghost use Rattle.eql_span_list.specs.Entries.{HasTicket};
ghost use Rattle.eql_part.specs.KeyTables.{holders_of, probes_of};
ghost use Rattle.eql_part.specs.Links.{Differ, IsOneOf, LeaveList};

use crate::listing::{Start, TakenOff, take_off};
use eql_auto::{Auto, Steps};
use eql_span_list::{SpanList, Ticket};
use eql_values::{Chain, Holder, Key, Memory, OrderKey, Route};
use std::alloc::Global;
use std::marker::Model;
use std::sync::ledger::Ledger;

/// The machine of one key, with the number of its pending sequences. The tag of each is its ticket.
#[derive(Drop)]
pub(crate) struct KeyMachine<L: Ledger> {
    auto: Auto<Ticket, L>,
    pending: u32,
}

impl<L: Ledger> Model for KeyMachine<L> {
    ghost use Rattle.std.specs.Prelude.{◌≡◌, length};
    ghost use Rattle.eql_auto.specs.Machine.{Machine, tags_of};
    ghost use Rattle.eql_span_list.specs.declared.node.Ticket.{Ticket};

    ghost Value = { Machine Ticket };

    ghost view = { λ k. k.auto };

    ghost invariant = { λ k. k.pending ≡ length (tags_of k.auto.slots) };
}

impl<L: Ledger> KeyMachine<L> {
    /// A machine of 1 to 256 stages with no pending sequence. The span is in nanoseconds.
    pub fn new(alloc: Global, m: u32, span: Option<i128>) -> Result<KeyMachine<L>, Memory>
        requires from { 1 ≤ m }
        requires to { m ≤ 256 }
        ensures { IfOk result (λ a. a ≡ record {
          span = span;
          slots = replicate
              (m - 1) None;
          gone = [];
          is_ready = false;
        }) }
    {
        let auto = Auto::new(alloc, m, span)?;
        Ok(KeyMachine { auto, pending: 0 })
    }

    /// Takes the room for one more chain. After want of memory nothing has changed.
    pub fn ready(&mut self, alloc: Global) -> Result<(), Memory>
        ensures ok { IfOk result (λ _. self.new ≡ record self.old { is_ready = true }) }
        ensures err { OnErr result (self.new ≡ self.old) }
    {
        self.auto.ready(alloc)
    }

    /// Whether no sequence is pending.
    pub fn is_empty(&self) -> bool
        ensures empty { IsTrue result → tags_of self.now.slots ≡ [] }
        ensures busy { result ≡ false → 1 ≤ length (tags_of self.now.slots) }
    {
        self.pending == 0
    }

    /// Plays what an event says to the key, in the room taken before, and takes the sequences that ceased off the list.
    pub fn turn(
        &mut self,
        list: &mut SpanList<Start>,
        order: OrderKey,
        route: &Route,
        tag: Option<Ticket>,
        steps: &mut Steps<L>,
    ) -> Option<Chain>
        requires ready { IsTrue self.old.is_ready }
        requires read { self.old.gone ≡ [] }
        requires few { stages self.old ≤ 256 }
        requires later { All (ComesAfter order) self.old.slots }
        requires tagged { is_some tag ≡ has_after 0 route.now.mask }
        requires listed { All (HasTicket list.old) (option_to_list tag ++ tags_of self.old.slots) }
        requires apart { Differ (option_to_list tag ++ tags_of self.old.slots) }
        ensures span { self.new.span ≡ self.old.span }
        ensures stages { length self.new.slots ≡ length self.old.slots }
        ensures read { self.new.gone ≡ [] }
        ensures sequences { (k : ℕ) → 1 ≤ k → k < stages self.old → slot_at self.new.slots k
            ≡ slot_after self.old.span tag (key_event_by order route.now) self.old.slots k }
        ensures slots { (k : ℕ) → 1 ≤ k → k < stages self.old → chains_of self.new.slots k
            ≡ slots_after self.old.span (chains_of self.old.slots)
            (key_event_by order route.now) k }
        ensures answer { result ≡ chain_coming self.old.span (chains_of self.old.slots)
            (key_event_by order route.now) (stages self.old) }
        ensures list { LeaveList (option_to_list tag ++ tags_of self.old.slots)
            (tags_of self.new.slots) list.old list.new }
        ensures probes { steps.new ≤ steps.old + probes_of (stages self.old) route.now }
    {
        let completed = self.auto.turn(order, route.mask, route.until, tag, steps);
        let taken = take_off(&mut self.auto, list);
        self.pending = self.pending + u32::from(tag.is_some()) - taken.count;
        completed
    }

    /// Drops the sequences whose first timestamp plus the span is below `reach`, in nanoseconds, and takes them off the
    /// list. It returns what the list had of one of them, if any.
    pub fn expire(
        &mut self,
        list: &mut SpanList<Start>,
        reach: i128,
        steps: &mut Steps<L>,
    ) -> Option<Start>
        requires read { self.old.gone ≡ [] }
        requires few { stages self.old ≤ 256 }
        requires listed { All (HasTicket list.old) (tags_of self.old.slots) }
        requires apart { Differ (tags_of self.old.slots) }
        ensures span { self.new.span ≡ self.old.span }
        ensures read { self.new.gone ≡ [] }
        ensures slots { self.new.slots ≡ map (alive_in self.old.span reach) self.old.slots }
        ensures list { LeaveList (tags_of self.old.slots)
            (tags_of self.new.slots) list.old list.new }
        ensures answer { MatchOption result (length (tags_of self.new.slots)
            ≡ length (tags_of self.old.slots))
            (λ start. IsOneOf (tags_of self.old.slots) list.old start) }
        ensures probes { steps.new ≤ steps.old + length self.old.slots }
    {
        self.auto.expire(reach, steps);
        let taken = take_off(&mut self.auto, list);
        self.pending -= taken.count;
        taken.last
    }

    /// Puts a pending sequence into the empty slot of its stage, in the room taken before.
    pub fn put(&mut self, stage: u32, chain: Chain, ticket: Ticket)
        requires ready { IsTrue self.old.is_ready }
        requires few { stages self.old ≤ 256 }
        requires from { 1 ≤ stage }
        requires to { stage < stages self.old }
        requires empty { slot_at self.old.slots stage ≡ None }
        requires full { length chain ≡ stage }
        ensures holders { self.new ≡ record self.old {
          slots = slice_set self.old.slots
              (stage - 1) (Some (chain, ticket));
          is_ready = false;
        } }
        ensures tags { IsPermutation (tags_of self.new.slots) (ticket ∷ tags_of self.old.slots) }
    {
        self.auto.put_holder(stage, chain, ticket);
        self.pending += 1;
    }

    /// The first event of the pending sequence of the least stage that has one.
    pub fn first_event(&self) -> Option<OrderKey>
        ensures { result ≡ first_event self.now.slots }
    {
        self.auto.first_event()
    }

    /// Adds copies of the pending sequences, each with a copy of the key, by stage.
    pub fn add_holders(
        &self,
        alloc: Global,
        key: &Key,
        found: &mut Vec<Holder>,
    ) -> Result<(), Memory>
        ensures { IfOk result (λ _. found.new.items ≡ found.old.items
            ++ holders_of (key.now, self.now)) }
    {
        self.auto.add_holders(alloc, key, found)
    }
}
