//! The pending sequences of a part's keys, and the events that wait to be played after them.
ghost use Rattle.std.specs.Prelude.{◌≡◌, ◌<◌, ◌++◌, [], All, IfErr, IfOk, IsTrue, None, OnErr, OnOk, Some, false, length, min};
ghost use Rattle.eql_laws.specs.Alive.{HoldersAreInOrder};
ghost use Rattle.eql_laws.specs.Shapes.{HasStageBefore};
ghost use Rattle.eql_parts.specs.PartSteps.{alive_by};
ghost use Rattle.eql_parts.specs.Inboxes.{IsNext, IsWaiting, PlaysFirst};

use crate::room::push_matches;
use eql_auto::Steps;
use eql_laws::{after_in_order, after_none, after_split, chains_are_full, matches_split};
use eql_part::Keys;
use eql_values::{Holders, Item, Items, Match, Matches, Memory};
use std::alloc::Global;
use std::collections::VecDeque;
use std::marker::Model;
use std::mem;
use std::sync::ledger::Ledger;

/// The pending sequences, the inbox of events that come after them, the matches found, and the timestamp of the last event
/// that was played, in nanoseconds since the epoch.
#[derive(Drop)]
pub(crate) struct Waiting<L: Ledger> {
    keys: Keys<L>,
    inbox: VecDeque<Item>,
    found: Vec<Match>,
    processed: Option<i128>,
}

impl<L: Ledger> Model for Waiting<L> {
    ghost use Rattle.eql_parts.specs.Inboxes.{IsWaiting, WaitingView};

    ghost Value = { WaitingView };

    ghost view = { λ w. record {
      stages = w.keys.stages;
      span = w.keys.span;
      held = w.keys.holders;
      inbox = w.inbox.items;
      found = w.found.items;
      processed = w.processed;
    } };

    ghost invariant = { λ w. IsWaiting w.keys.stages w.keys.holders w.inbox.items };
}

/// Keeps the timestamp of an event as that of the last one that was played.
fn keep_time(processed: &mut Option<i128>, item: &Item)
    ensures { processed.new ≡ Some item.now.order.ts }
{
    *processed = Some(item.order.ts);
}

/// What came of playing events.
#[derive(Clone, Copy)]
pub(crate) struct Played {
    /// How many were played.
    pub items: u32,
    /// Whether memory ran out at the next one.
    pub wants_memory: bool,
}

impl<L: Ledger> Waiting<L> {
    /// These pending sequences, with no event that waits.
    pub fn new(alloc: Global, keys: Keys<L>) -> Waiting<L>
        requires order { HoldersAreInOrder keys.holders }
        requires stages { All (HasStageBefore keys.stages) keys.holders }
        ensures { result ≡ record {
          stages = keys.stages;
          span = keys.span;
          held = keys.holders;
          inbox = [];
          found = [];
          processed = None;
        } }
    {
        Waiting {
            keys,
            inbox: VecDeque::new(alloc),
            found: Vec::new(alloc),
            processed: None,
        }
    }

    /// The events that wait ascend and come after all that is pending, which stands in order. It does nothing.
    pub fn stands(&self)
        ensures { IsWaiting self.now.stages self.now.held self.now.inbox }
    {
        let _ = &self.keys;
    }

    /// Whether no event waits.
    pub fn is_idle(&self) -> bool
        ensures idle { IsTrue result → self.now.inbox ≡ [] }
        ensures busy { result ≡ false → 0 < length self.now.inbox }
    {
        self.inbox.is_empty()
    }

    /// The timestamp of the last event that was played, in nanoseconds since the epoch.
    pub fn processed(&self) -> Option<i128>
        ensures { result ≡ self.now.processed }
    {
        self.processed
    }

    /// Puts events at the end of the inbox. After want of memory nothing has changed, and the events are handed back.
    pub fn deliver(&mut self, items: Items) -> Result<(), Items>
        requires next { IsNext self.old.held (self.old.inbox ++ items) }
        ensures ok { OnOk result
            (self.new ≡ record self.old { inbox = self.old.inbox ++ items }) }
        ensures back { IfErr result (λ back. back ≡ items) }
        ensures unchanged { OnErr result (self.new ≡ self.old) }
    {
        let mut more = VecDeque::from_vec(items.into_items());
        if self.inbox.append(&mut more).is_err() {
            return Err(Items::of(more.into_vec()));
        }
        Ok(())
    }

    /// Plays the first event of the inbox. After want of memory nothing has changed.
    pub fn play_first(&mut self, steps: &mut Steps<L>) -> Result<(), Memory>
        requires some { 0 < length self.old.inbox }
        ensures played { OnOk result (PlaysFirst self.old 1 self.new) }
        ensures unchanged { OnErr result (self.new ≡ self.old) }
    {
        after_in_order();
        chains_are_full();
        let Some(item) = self.inbox.front() else {
            unreachable!()
        };
        self.found.reserve(item.routes.items().len())?;
        let more = self.keys.take(item, steps)?;
        keep_time(&mut self.processed, item);
        push_matches(&mut self.found, more.into_items());
        self.inbox.pop_front();
        Ok(())
    }

    /// Plays as many events as wait, at most `max`.
    pub fn play_some(&mut self, max: u32, steps: &mut Steps<L>) -> Played
        ensures played { PlaysFirst self.old result.items self.new }
        ensures all { result.wants_memory ≡ false
            → result.items ≡ min max (length self.old.inbox) }
        ensures few { IsTrue result.wants_memory
            → result.items < min max (length self.old.inbox) }
    {
        after_none();
        after_split();
        matches_split();
        self.stands();
        for items in 0..max {
            if self.is_idle() {
                return Played {
                    items,
                    wants_memory: false,
                };
            }
            match self.play_first(steps) {
                Ok(()) => {}
                Err(_) => {
                    return Played {
                        items,
                        wants_memory: true,
                    };
                }
            }
        }
        Played {
            items: max,
            wants_memory: false,
        }
    }

    /// Drops the pending sequences that aren't alive at a time, in nanoseconds since the epoch, where there is one.
    pub fn sweep(&mut self, time: Option<i128>, steps: &mut Steps<L>)
        ensures { self.new
            ≡ record self.old { held = alive_by self.old.span time self.old.held } }
    {
        after_in_order();
        if let Some(reach) = time {
            self.keys.sweep(reach, steps);
        }
    }

    /// The matches found, taken out.
    pub fn collect(&mut self, alloc: Global) -> Matches
        ensures found { result ≡ self.old.found }
        ensures left { self.new ≡ record self.old { found = [] } }
    {
        Matches::of(mem::replace(&mut self.found, Vec::new(alloc)))
    }

    /// A copy of the pending sequences, by key and stage.
    pub fn holders(&self) -> Result<Holders, Memory>
        ensures holders { IfOk result (λ held. held ≡ self.now.held) }
        ensures order { IfOk result (λ held. HoldersAreInOrder held) }
    {
        self.keys.holders()
    }
}
