//! Pending sequences and matches.
ghost use Rattle.std.specs.Prelude.{◌≡◌, IfOk};
ghost use Rattle.eql_values.specs.OrderKeys.{EventsAscend};

use crate::order::OrderKey;
use crate::value::Key;
use std::alloc::{AllocError, Global};
use std::marker::Model;
use std::slice;

/// The events of a chain. One alone stands in the chain itself, so that a copy of the chain takes no memory for a list.
#[derive(Drop)]
enum Events {
    /// One event.
    One(OrderKey),
    /// Any number of events.
    Many(Vec<OrderKey>),
}

/// The events of a sequence, in strictly ascending order.
pub struct Chain {
    events: Events,
}

impl Model for Chain {
    ghost use Rattle.std.specs.Prelude.{List};
    ghost use Rattle.eql_values.specs.declared.order.OrderKey.{OrderKey};
    ghost use Rattle.eql_values.specs.OrderKeys.{EventsAscend};
    ghost use Rattle.eql_values.specs.Events.{events_of};

    ghost Value = { List OrderKey };

    ghost view = { λ c. events_of c.events };

    ghost invariant = { λ c. EventsAscend (events_of c.events) };
}

// A drop of its own: where a chain is dropped there is one call, and no match.
impl Drop for Chain {
    fn drop(self) {
        let Chain { events: _ } = self;
    }
}

impl Chain {
    /// The list of these events.
    pub fn of(items: Vec<OrderKey>) -> Chain
        requires ascend { EventsAscend items.items }
        ensures { result ≡ items.items }
    {
        if let [event] = items.as_slice() {
            return Chain {
                events: Events::One(*event),
            };
        }
        Chain {
            events: Events::Many(items),
        }
    }

    /// A list of copies of these events. One alone takes no memory, and more take what they need.
    pub fn copy_of(alloc: Global, events: &[OrderKey]) -> Result<Chain, AllocError>
        requires ascend { EventsAscend events.now }
        ensures { IfOk result (λ chain. chain ≡ events.now) }
    {
        if let [event] = events {
            return Ok(Chain {
                events: Events::One(*event),
            });
        }
        let mut items = Vec::with_capacity(alloc, events.len())?;
        items.extend_from_slice(events)?;
        Ok(Chain {
            events: Events::Many(items),
        })
    }

    /// The events, lent.
    pub fn items(&self) -> &[OrderKey]
        ensures { result.now ≡ self.now }
    {
        match &self.events {
            Events::One(event) => slice::from_ref(event),
            Events::Many(events) => events.as_slice(),
        }
    }

    /// The events of every chain ascend. It does nothing.
    pub fn ascends(&self)
        ensures { EventsAscend self.now }
    {
        let _ = &self.events;
    }
}

impl Clone for Chain {
    ghost is_clone = { λ old new. new ≡ old };

    fn clone(&self) -> Result<Chain, AllocError> {
        match &self.events {
            Events::One(event) => Ok(Chain {
                events: Events::One(*event),
            }),
            Events::Many(events) => {
                let events = events.clone()?;
                Ok(Chain {
                    events: Events::Many(events),
                })
            }
        }
    }
}

/// A sequence that has its event for the last stage.
#[derive(Drop)]
pub struct Match {
    /// The key whose machine found it.
    pub key: Key,
    /// Its events, one for each stage.
    pub chain: Chain,
}

impl Clone for Match {
    ghost is_clone = { λ old new. new ≡ old };

    fn clone(&self) -> Result<Match, AllocError> {
        let key = self.key.clone()?;
        let chain = self.chain.clone()?;
        Ok(Match { key, chain })
    }
}

/// A list of matches.
#[derive(Drop)]
pub struct Matches {
    items: Vec<Match>,
}

impl Model for Matches {
    ghost use Rattle.std.specs.Prelude.{List};
    ghost use Rattle.eql_values.specs.declared.found.Match.{Match};

    ghost Value = { List Match };

    ghost view = { λ l. l.items.items };
}

impl Matches {
    /// The list of these matches.
    pub fn of(items: Vec<Match>) -> Matches
        ensures { result ≡ items.items }
    {
        Matches { items }
    }

    /// The matches, lent.
    pub fn items(&self) -> &Vec<Match>
        ensures { result.now.items ≡ self.now }
    {
        &self.items
    }

    /// The matches, taken out.
    pub fn into_items(self) -> Vec<Match>
        ensures { result.items ≡ self }
    {
        self.items
    }
}

impl Clone for Matches {
    ghost is_clone = { λ old new. new ≡ old };

    fn clone(&self) -> Result<Matches, AllocError> {
        let items = self.items.clone()?;
        Ok(Matches { items })
    }
}

/// A match with its number in the listing, from 1.
#[derive(Drop)]
pub struct Numbered {
    /// The number.
    pub number: u64,
    /// The match.
    pub found: Match,
}

impl Clone for Numbered {
    ghost is_clone = { λ old new. new ≡ old };

    fn clone(&self) -> Result<Numbered, AllocError> {
        let found = self.found.clone()?;
        Ok(Numbered {
            number: self.number,
            found,
        })
    }
}

/// A list of numbered matches.
#[derive(Drop)]
pub struct Numbereds {
    items: Vec<Numbered>,
}

impl Model for Numbereds {
    ghost use Rattle.std.specs.Prelude.{List};
    ghost use Rattle.eql_values.specs.declared.found.Numbered.{Numbered};

    ghost Value = { List Numbered };

    ghost view = { λ l. l.items.items };
}

impl Numbereds {
    /// The list of these matches.
    pub fn of(items: Vec<Numbered>) -> Numbereds
        ensures { result ≡ items.items }
    {
        Numbereds { items }
    }

    /// The matches, lent.
    pub fn items(&self) -> &Vec<Numbered>
        ensures { result.now.items ≡ self.now }
    {
        &self.items
    }

    /// The matches, taken out.
    pub fn into_items(self) -> Vec<Numbered>
        ensures { result.items ≡ self }
    {
        self.items
    }
}

impl Clone for Numbereds {
    ghost is_clone = { λ old new. new ≡ old };

    fn clone(&self) -> Result<Numbereds, AllocError> {
        let items = self.items.clone()?;
        Ok(Numbereds { items })
    }
}

/// A pending sequence: its key, the last stage that it has an event for, and its events.
#[derive(Drop)]
pub struct Holder {
    /// The key.
    pub key: Key,
    /// The last stage that it has an event for, from 1.
    pub stage: u32,
    /// Its events, one for each stage up to that one.
    pub chain: Chain,
}

impl Clone for Holder {
    ghost is_clone = { λ old new. new ≡ old };

    fn clone(&self) -> Result<Holder, AllocError> {
        let key = self.key.clone()?;
        let chain = self.chain.clone()?;
        Ok(Holder {
            key,
            stage: self.stage,
            chain,
        })
    }
}

/// A list of pending sequences.
#[derive(Drop)]
pub struct Holders {
    items: Vec<Holder>,
}

impl Model for Holders {
    ghost use Rattle.std.specs.Prelude.{List};
    ghost use Rattle.eql_values.specs.declared.found.Holder.{Holder};

    ghost Value = { List Holder };

    ghost view = { λ l. l.items.items };
}

impl Holders {
    /// The list of these sequences.
    pub fn of(items: Vec<Holder>) -> Holders
        ensures { result ≡ items.items }
    {
        Holders { items }
    }

    /// The sequences, lent.
    pub fn items(&self) -> &Vec<Holder>
        ensures { result.now.items ≡ self.now }
    {
        &self.items
    }

    /// The sequences, taken out.
    pub fn into_items(self) -> Vec<Holder>
        ensures { result.items ≡ self }
    {
        self.items
    }
}

impl Clone for Holders {
    ghost is_clone = { λ old new. new ≡ old };

    fn clone(&self) -> Result<Holders, AllocError> {
        let items = self.items.clone()?;
        Ok(Holders { items })
    }
}

/// The pending sequences of one key: stages with their chains.
#[derive(Drop)]
pub struct StageChains {
    items: Vec<(u32, Chain)>,
}

impl Model for StageChains {
    ghost use Rattle.std.specs.Prelude.{List};
    ghost use Rattle.std.specs.Prelude.{ℕ};
    ghost use Rattle.eql_values.specs.declared.order.OrderKey.{OrderKey};

    ghost Value = { List (ℕ × List OrderKey) };

    ghost view = { λ l. l.items.items };
}

impl StageChains {
    /// The list of these pairs.
    pub fn of(items: Vec<(u32, Chain)>) -> StageChains
        ensures { result ≡ items.items }
    {
        StageChains { items }
    }

    /// The pairs, lent.
    pub fn items(&self) -> &Vec<(u32, Chain)>
        ensures { result.now.items ≡ self.now }
    {
        &self.items
    }

    /// The pairs, taken out.
    pub fn into_items(self) -> Vec<(u32, Chain)>
        ensures { result.items ≡ self }
    {
        self.items
    }
}
