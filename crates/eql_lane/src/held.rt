//! The events that are held, in the order of their places.
ghost use Rattle.std.specs.Prelude.{◌∷◌, ◌≡◌, ◌≤◌, ◌<◌, ◌+◌, ◌++◌, true, List, [], Ok, ◌^◌, IsTrue, IfOk, MatchOption, OnErr, OnOk, filter, length, map, take, drop, All, vec_capacity};
ghost use Rattle.std.specs.List.{take_while};
ghost use Rattle.std.specs.BTreeMap.{keys, insert_entry};
ghost use Rattle.std.specs.Ordering.{is_lt};
ghost use Rattle.std.specs.FinMap.Entries.{is_sorted};
ghost use Rattle.eql_values.specs.declared.item.Item.{Item as Event};
ghost use Rattle.eql_values.specs.Accepted.{sorted_items};
ghost use Rattle.eql_values.specs.Ascending.{Ascend};
ghost use Rattle.eql_values.specs.Marks.{is_below};
ghost use Rattle.eql_values.specs.OrderKeys.{order_cmp};
ghost use Rattle.eql_lane.specs.Holding.{pair, is_run_first};

use eql_values::{Item, Items, Mark, Memory, OrderKey, Routes};
use std::alloc::{AllocError, Global};
use std::collections::{BTreeMap, VecDeque};
use std::marker::Model;

/// The events that are held.
#[derive(Drop)]
pub(crate) struct Held {
    // Events that ascend. One that comes behind all of them is put at their end.
    run: VecDeque<Item>,
    // The others, by their places.
    others: BTreeMap<OrderKey, Routes>,
}

impl Model for Held {
    ghost use Rattle.std.specs.Prelude.{List};
    ghost use Rattle.eql_values.specs.declared.item.Item.{Item};
    ghost use Rattle.eql_lane.specs.Holding.{held_in, IsHeld};

    ghost Value = { List Item };

    ghost view = { λ h. held_in h.run.items h.others.entries };

    ghost invariant = { λ h. IsHeld h.run.items h.others.entries };
}

impl Clone for Held {
    ghost is_clone = { λ old new. new ≡ old };

    fn clone(&self) -> Result<Held, AllocError> {
        let run = self.run.clone()?;
        let others = self.others.clone()?;
        Ok(Held { run, others })
    }
}

/// Whether an event at this place lies below the mark.
fn lies_below(order: &OrderKey, mark: Mark) -> bool
    ensures { result ≡ is_below mark (record { order = order.now; routes = [] }) }
{
    match mark {
        Mark::Start => false,
        Mark::At(t) => order.ts < t,
        Mark::End => true,
    }
}

/// Whether an event at this place comes behind all of a run.
fn comes_last(run: &VecDeque<Item>, order: &OrderKey) -> bool
    requires { IsTrue (is_sorted order_cmp (map pair run.now.items)) }
    ensures { result ≡ true
        → All (λ (item : Event). IsTrue (is_lt (order_cmp item.order order.now))) run.now.items }
{
    match run.back() {
        None => true,
        Some(last) => last.order < *order,
    }
}

/// Puts an event at the end of a run.
fn append(run: &mut VecDeque<Item>, item: Item) -> Result<(), Memory>
    ensures items { OnOk result (run.new.items ≡ run.old.items ++ item ∷ []) }
    ensures unchanged { OnErr result (run.new.items ≡ run.old.items) }
{
    run.push_back(item)?;
    Ok(())
}

/// Puts an event among others.
fn put(others: &mut BTreeMap<OrderKey, Routes>, item: Item) -> Result<(), Memory>
    ensures entries { OnOk result (others.new.entries
        ≡ insert_entry order_cmp others.old.entries item.order item.routes) }
    ensures unchanged { OnErr result (others.new.entries ≡ others.old.entries) }
{
    others.insert(item.order, item.routes)?;
    Ok(())
}

/// Whether the first event of all is that of the run.
fn run_is_first(run: &VecDeque<Item>, others: &BTreeMap<OrderKey, Routes>) -> bool
    ensures { result ≡ is_run_first run.now.items others.now.entries }
{
    match (run.front(), others.first_key_value()) {
        (None, _) => false,
        (Some(_), None) => true,
        (Some(item), Some((order, _))) => item.order < *order,
    }
}

/// Takes out the first event of a map.
fn first_of(others: &mut BTreeMap<OrderKey, Routes>) -> Option<Item>
    ensures { MatchOption result ((others.old.entries ≡ []) × (others.new.entries ≡ []))
        (λ item. others.old.entries ≡ pair item ∷ others.new.entries) }
{
    match others.pop_first() {
        None => None,
        Some((order, routes)) => Some(Item { order, routes }),
    }
}

/// How many events of a run lie below the mark. They are its first ones.
fn run_below(run: &VecDeque<Item>, mark: Mark) -> usize
    requires { IsTrue (is_sorted order_cmp (map pair run.now.items)) }
    ensures { result ≡ length (filter (is_below mark) run.now.items) }
{
    run.partition_point(|item| lies_below(&item.order, mark))
}

/// How many events lie below the mark, before the first that doesn't.
fn others_below(others: &BTreeMap<OrderKey, Routes>, mark: Mark) -> usize
    ensures { result ≡ length (take_while (λ order. is_below mark
        (record { order = order; routes = [] })) (keys others.now)) }
{
    others
        .keys()
        .take_while(|order| lies_below(order, mark))
        .count()
}

impl Held {
    /// No events.
    pub(crate) fn new(alloc: Global) -> Held
        ensures { result ≡ [] }
    {
        Held {
            run: VecDeque::new(alloc),
            others: BTreeMap::new(alloc),
        }
    }

    /// These events.
    pub(crate) fn of(alloc: Global, items: Items) -> Held
        requires { Ascend items }
        ensures { result ≡ items }
    {
        Held {
            run: VecDeque::from_vec(items.into_items()),
            others: BTreeMap::new(alloc),
        }
    }

    /// Holds an event of a further line. After want of memory nothing has changed.
    pub(crate) fn push(&mut self, item: Item) -> Result<(), Memory>
        requires { All (λ (held : Event). held.order.line < item.order.line) self.old }
        ensures held { OnOk result (self.new ≡ sorted_items (self.old ++ item ∷ [])) }
        ensures unchanged { OnErr result (self.new ≡ self.old) }
    {
        if comes_last(&self.run, &item.order) {
            return append(&mut self.run, item);
        }
        put(&mut self.others, item)
    }

    /// Takes out the first event.
    pub(crate) fn pop_first(&mut self) -> Option<Item>
        ensures { MatchOption result (self.old ≡ []) (λ item. self.old ≡ item ∷ self.new) }
    {
        if run_is_first(&self.run, &self.others) {
            return self.run.pop_front();
        }
        first_of(&mut self.others)
    }

    /// All events, in order.
    pub(crate) fn into_items(self, alloc: Global) -> Result<Items, Memory>
        ensures { IfOk result (λ items. items ≡ self) }
    {
        let mut held = self;
        let mut items = Vec::new(alloc);
        while let Some(item) = held.pop_first() {
            items.push(item)?;
        }
        Ok(Items::of(items))
    }

    /// How many events lie below the mark.
    pub(crate) fn count_below(&self, mark: Mark) -> usize
        requires few { length self.now < 2 ^ 63 }
        ensures { result ≡ length (filter (is_below mark) self.now) }
    {
        run_below(&self.run, mark) + others_below(&self.others, mark)
    }

    /// The events stand in order.
    pub(crate) fn ordered(&self)
        ensures { IsTrue (is_sorted order_cmp (map pair self.now)) }
    {
        let _ = &self.run;
    }
}
