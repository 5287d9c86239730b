//! The slot table of the machine of one key. The slots are looked at by three calls alone, each of which is one probe.
ghost use Rattle.std.specs.Prelude.{◌≡◌, ◌+◌, ◌-◌, ◌<◌, ◌≤◌, ◌++◌, ◌∷◌, ◌==◌, [], length, vec_len, vec_capacity, if◌then◌else◌, Some, None, IfOk, IfSome, MatchBool, map, replicate, slice_index_or, slice_set, IsPermutation};
ghost use Rattle.std.specs.Option.{option_map, option_to_list};
ghost use Rattle.eql_values.specs.Chains.{in_time};
ghost use Rattle.eql_values.specs.Ordered.{found_or};
ghost use Rattle.eql_values.specs.OrderKeys.{EventsAscend};
ghost use Rattle.eql_auto.specs.Holding.{holder_of};
ghost use Rattle.eql_auto.specs.Machine.{AllAreBefore, ComesAfter, tags_of, went_on, stage_chains};
ghost use Rattle.eql_auto.specs.Moves.{chain_in, emptied_slot};
ghost use Rattle.eql_auto.specs.Kept.{sequence_view};
ghost use Rattle.eql_auto.specs.Starts.{first_event, first_of};

use crate::steps::Steps;
use eql_values::{Chain, Holder, Key, Memory, OrderKey, StageChains, is_in_time};
use std::alloc::Global;
use std::marker::{Model, PhantomData};
use std::sync::ledger::Ledger;

/// A pending sequence, with room for an event of each stage.
#[derive(Drop)]
struct Pending<T> {
    events: Vec<OrderKey>,
    tag: T,
}

/// The slots of the stages before the last, by stage.
#[derive(Drop)]
pub(crate) struct SlotTable<T, L: Ledger> {
    slots: Vec<Option<Pending<T>>>,
    ledger: PhantomData<L>,
}

impl<T, L: Ledger> Model for SlotTable<T, L> {
    ghost use Rattle.std.specs.Prelude.{List, Option};
    ghost use Rattle.eql_values.specs.declared.order.OrderKey.{OrderKey};
    ghost use Rattle.eql_auto.specs.Kept.{sequence_views, AreKept};

    ghost Value = { List (Option (List OrderKey × T)) };

    ghost view = { λ t. sequence_views t.slots.items };

    ghost invariant = { λ t. AreKept t.slots.items };
}

/// Which sequences an emptying drops.
#[derive(Clone, Copy)]
pub(crate) enum Which {
    /// Every one.
    All,
    /// One whose first timestamp plus the span is below `reach`, both in nanoseconds.
    Stale {
        /// The span.
        span: i128,
        /// The time.
        reach: i128,
    },
}

impl Which {
    /// Whether the emptying leaves what a slot has.
    fn spares<T>(self, slot: &Option<Pending<T>>) -> bool
        ensures { MatchBool result
            (emptied_slot self (option_map sequence_view slot.now)
            ≡ option_map sequence_view slot.now)
            (emptied_slot self (option_map sequence_view slot.now) ≡ None) }
    {
        match (self, slot) {
            (Which::Stale { span, reach }, Some(held)) => {
                is_in_time(Some(span), held.events.as_slice(), reach)
            }
            _ => false,
        }
    }
}

/// What came out of the table.
#[derive(Drop)]
pub(crate) struct Out<T> {
    /// The chain of a sequence that has its event for the last stage.
    pub completed: Option<Chain>,
    /// The tag of the sequence that ceased.
    pub ceased: Option<T>,
}

/// Whether an event comes in time for a sequence with these events.
fn is_early(span: Option<i128>, events: &Vec<OrderKey>, event: &OrderKey) -> bool
    ensures { result ≡ in_time span events.now.items event.now.ts }
{
    is_in_time(span, events.as_slice(), event.ts)
}

/// The first event of a pending sequence.
fn first_of<T>(pending: &Pending<T>) -> Option<OrderKey>
    ensures { result ≡ first_of pending.now.events.items }
{
    pending.events.first().copied()
}

/// So many empty slots.
fn empty_slots<T: Copy>(alloc: Global, count: usize) -> Result<Vec<Option<Pending<T>>>, Memory>
    ensures { IfOk result (λ slots. slots.items ≡ replicate count None) }
{
    let mut slots = Vec::with_capacity(alloc, count)?;
    for _ in 0..count {
        slots.push(None)?;
    }
    Ok(slots)
}

/// Takes what a slot has.
fn take_slot<T>(slots: &mut Vec<Option<Pending<T>>>, place: usize) -> Option<Pending<T>>
    requires { place < vec_len slots.old }
    ensures taken { result ≡ slice_index_or slots.old.items place None }
    ensures left { slots.new.items ≡ slice_set slots.old.items place None }
    ensures len { vec_len slots.new ≡ vec_len slots.old }
{
    std::mem::replace(&mut slots[place], None)
}

/// Puts a sequence into a slot, and takes out what was there.
fn replace_slot<T>(
    slots: &mut Vec<Option<Pending<T>>>,
    place: usize,
    pending: Pending<T>,
) -> Option<Pending<T>>
    requires { place < vec_len slots.old }
    ensures taken { result ≡ slice_index_or slots.old.items place None }
    ensures left { slots.new.items ≡ slice_set slots.old.items place (Some pending) }
    ensures len { vec_len slots.new ≡ vec_len slots.old }
{
    std::mem::replace(&mut slots[place], Some(pending))
}

/// The tag of a sequence.
fn tag_of<T: Copy>(pending: Option<Pending<T>>) -> Option<T>
    ensures { result ≡ option_map (λ p. p.tag) pending }
{
    match pending {
        None => None,
        Some(pending) => Some(pending.tag),
    }
}

impl<T: Copy, L: Ledger> SlotTable<T, L> {
    /// A table with this many empty slots.
    pub fn new(alloc: Global, count: usize) -> Result<SlotTable<T, L>, Memory>
        ensures { IfOk result (λ t. t ≡ replicate count None) }
    {
        let slots = empty_slots(alloc, count)?;
        Ok(SlotTable {
            slots,
            ledger: PhantomData,
        })
    }

    /// How many slots there are.
    pub fn len(&self) -> usize
        ensures { result ≡ length self.now }
    {
        self.slots.len()
    }

    /// How many sequences are pending.
    pub fn pending(&self) -> usize
        ensures { result ≡ length (tags_of self.now) }
    {
        let mut count = 0;
        for slot in &self.slots {
            if slot.is_some() {
                count += 1;
            }
        }
        count
    }

    /// The first event of the pending sequence of the least stage that has one.
    pub fn first_event(&self) -> Option<OrderKey>
        ensures { result ≡ first_event self.now }
    {
        for slot in &self.slots {
            if let Some(pending) = slot {
                return first_of(pending);
            }
        }
        None
    }

    /// Puts a sequence with its last event into the slot of that event's stage, or out of the table after the last slot.
    fn settle(&mut self, place: usize, pending: Pending<T>) -> Out<T>
        requires within { place ≤ length self.old }
        requires full { vec_len pending.events ≡ place + 1 }
        requires room { length self.old < vec_capacity pending.events }
        requires ascends { EventsAscend pending.events.items }
        ensures slots { self.new ≡ slice_set self.old place
            (Some (pending.events.items, pending.tag)) }
        ensures completed { result.completed ≡
            (if place == length self.old then Some pending.events.items else None) }
        ensures ceased { IsPermutation (option_to_list result.ceased ++ tags_of self.new)
            (pending.tag ∷ tags_of self.old) }
    {
        if place == self.slots.len() {
            return Out {
                completed: Some(Chain::of(pending.events)),
                ceased: Some(pending.tag),
            };
        }
        let older = replace_slot(&mut self.slots, place, pending);
        Out {
            completed: None,
            ceased: tag_of(older),
        }
    }

    /// Moves what the slot of a stage holds on to the next stage by one event, or out of the table after the last slot.
    /// A sequence that the event comes too late for is dropped. One probe.
    pub fn advance(
        &mut self,
        stage: u32,
        span: Option<i128>,
        event: OrderKey,
        steps: &mut Steps<L>,
    ) -> Out<T>
        requires from { 1 ≤ stage }
        requires to { stage ≤ length self.old }
        requires later { ComesAfter event (slice_index_or self.old (stage - 1) None) }
        ensures slots { self.new ≡ slice_set (slice_set self.old (stage - 1) None) stage
            (found_or (went_on span event (slice_index_or self.old (stage - 1) None))
            (slice_index_or self.old stage None)) }
        ensures completed { result.completed ≡
            (if stage == length self.old then chain_in
            (went_on span event (slice_index_or self.old (stage - 1) None)) else None) }
        ensures ceased { IsPermutation (option_to_list result.ceased ++ tags_of self.new)
            (tags_of self.old) }
        ensures probe { steps.new ≡ steps.old + 1 }
    {
        steps.tick();
        let place = stage as usize;
        match take_slot(&mut self.slots, place - 1) {
            None => Out {
                completed: None,
                ceased: None,
            },
            Some(held) => {
                let mut held = held;
                if !is_early(span, &held.events, &event) {
                    return Out {
                        completed: None,
                        ceased: Some(held.tag),
                    };
                }
                held.events.push_reserved(event);
                self.settle(place, held)
            }
        }
    }

    /// Begins a sequence of one event, in the room given: in the slot of stage 1, or out of a table without slots.
    /// One probe.
    pub fn begin(
        &mut self,
        room: Vec<OrderKey>,
        event: OrderKey,
        tag: T,
        steps: &mut Steps<L>,
    ) -> Out<T>
        requires empty { room.items ≡ [] }
        requires none { vec_len room ≡ 0 }
        requires room { length self.old < vec_capacity room }
        ensures slots { self.new ≡ slice_set self.old 0 (Some (event ∷ [], tag)) }
        ensures completed { result.completed ≡
            (if 0 == length self.old then Some (event ∷ []) else None) }
        ensures ceased { IsPermutation (option_to_list result.ceased ++ tags_of self.new)
            (tag ∷ tags_of self.old) }
        ensures probe { steps.new ≡ steps.old + 1 }
    {
        steps.tick();
        let mut events = room;
        events.push_reserved(event);
        self.settle(0, Pending { events, tag })
    }

    /// Empties the slot of a stage of every sequence, or of a stale one alone, and returns the tag of what it dropped.
    /// One probe.
    pub fn empty(&mut self, stage: u32, which: Which, steps: &mut Steps<L>) -> Option<T>
        requires from { 1 ≤ stage }
        requires to { stage ≤ length self.old }
        ensures slots { self.new ≡ slice_set self.old (stage - 1)
            (emptied_slot which (slice_index_or self.old (stage - 1) None)) }
        ensures ceased { IsPermutation (option_to_list result ++ tags_of self.new)
            (tags_of self.old) }
        ensures probe { steps.new ≡ steps.old + 1 }
    {
        steps.tick();
        let place = stage as usize - 1;
        if which.spares(&self.slots[place]) {
            return None;
        }
        tag_of(take_slot(&mut self.slots, place))
    }

    /// Puts a sequence with all its events into the empty slot of its stage, in the room given.
    pub fn put(&mut self, stage: u32, room: Vec<OrderKey>, chain: &Chain, tag: T)
        requires from { 1 ≤ stage }
        requires to { stage ≤ length self.old }
        requires open { slice_index_or self.old (stage - 1) None ≡ None }
        requires full { length chain.now ≡ stage }
        requires empty { room.items ≡ [] }
        requires none { vec_len room ≡ 0 }
        requires room { length self.old < vec_capacity room }
        ensures slots { self.new ≡ slice_set self.old (stage - 1) (Some (chain.now, tag)) }
        ensures tags { IsPermutation (tags_of self.new) (tag ∷ tags_of self.old) }
    {
        let mut events = room;
        copy_in_room(&mut events, chain.items());
        chain.ascends();
        replace_slot(&mut self.slots, stage as usize - 1, Pending { events, tag });
    }

    /// The pending sequences with their stages, by stage.
    pub fn holders(&self, alloc: Global) -> Result<StageChains, Memory>
        requires { length self.now < 256 }
        ensures { IfOk result (λ found. found ≡ stage_chains self.now) }
    {
        let mut found = Vec::new(alloc);
        for (place, slot) in self.slots.iter().enumerate() {
            add_holder(alloc, &mut found, place as u32 + 1, slot)?;
        }
        Ok(StageChains::of(found))
    }

    /// Adds copies of the pending sequences, each with a copy of the key, by stage.
    pub fn add_holders(
        &self,
        alloc: Global,
        key: &Key,
        found: &mut Vec<Holder>,
    ) -> Result<(), Memory>
        requires { length self.now < 256 }
        ensures { IfOk result (λ _. found.new.items ≡ found.old.items
            ++ map (holder_of key.now) (stage_chains self.now)) }
    {
        for (place, slot) in self.slots.iter().enumerate() {
            add_keyed(alloc, key, found, place as u32 + 1, slot)?;
        }
        Ok(())
    }
}

/// A copy of the chain of a pending sequence, with room for its events alone.
fn chain_of<T>(alloc: Global, pending: &Pending<T>) -> Result<Chain, Memory>
    requires { EventsAscend pending.now.events.items }
    ensures { IfOk result (λ chain. chain ≡ pending.now.events.items) }
{
    Ok(Chain::copy_of(alloc, &pending.events)?)
}

/// Adds a copy of the chain of a slot, if it has a sequence.
fn add_holder<T: Copy>(
    alloc: Global,
    found: &mut Vec<(u32, Chain)>,
    stage: u32,
    slot: &Option<Pending<T>>,
) -> Result<(), Memory>
    requires { IfSome slot.now (λ p. EventsAscend p.events.items) }
    ensures { IfOk result (λ _. found.new.items ≡ found.old.items
        ++ option_to_list (option_map (λ p. (stage, p.events.items)) slot.now)) }
{
    if let Some(pending) = slot {
        let chain = chain_of(alloc, pending)?;
        found.push((stage, chain))?;
    }
    Ok(())
}

/// Adds a copy of the chain of a slot with one of the key, if it has a sequence.
fn add_keyed<T: Copy>(
    alloc: Global,
    key: &Key,
    found: &mut Vec<Holder>,
    stage: u32,
    slot: &Option<Pending<T>>,
) -> Result<(), Memory>
    requires { IfSome slot.now (λ p. EventsAscend p.events.items) }
    ensures { IfOk result (λ _. found.new.items ≡ found.old.items
        ++ map (holder_of key.now) (option_to_list (option_map (λ p. (stage, p.events.items))
        slot.now))) }
{
    if let Some(pending) = slot {
        let chain = chain_of(alloc, pending)?;
        let key = key.clone()?;
        found.push(Holder { key, stage, chain })?;
    }
    Ok(())
}

/// Copies events to where there is room, which takes no memory.
fn copy_in_room(room: &mut Vec<OrderKey>, events: &[OrderKey])
    requires empty { room.old.items ≡ [] }
    requires none { vec_len room.old ≡ 0 }
    requires fits { length events.now ≤ vec_capacity room.old }
    ensures items { room.new.items ≡ events.now }
    ensures len { vec_len room.new ≡ length events.now }
    ensures room { vec_capacity room.old ≤ vec_capacity room.new }
{
    match room.extend_from_slice(events) {
        Ok(()) => {}
        Err(_) => unreachable!(),
    }
}
