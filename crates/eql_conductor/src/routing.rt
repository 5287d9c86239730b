//! The events of each part: those with a route whose key belongs to the part, with these routes alone.
ghost use Rattle.std.specs.Prelude.{◌≡◌, ◌≢◌, ◌==◌, ◌<◌, ◌++◌, ◌∷◌, [], ℕ, filter, length, map, IfOk, OnOk};
ghost use Rattle.std.specs.List.{list_all};
ghost use Rattle.eql_values.specs.declared.item.Route.{Route as RouteValue};
ghost use Rattle.eql_values.specs.Ordered.{numbers};
ghost use Rattle.eql_values.specs.Routing.{routed_items, with_routes};
ghost use Rattle.eql_conductor.specs.PartLists.{AreSpread, Comes, Grows, events_of};
ghost use Rattle.eql_parts.specs.Spreading.{part_number};

use eql_parts::part_of;
use eql_values::{Item, Items, Memory, Route, Routes};
use std::alloc::Global;

// How many parts there are.
const PARTS: u32 = 16;

// The parts that the keys of the routes belong to, route by route.
fn parts_of(alloc: Global, routes: &Vec<Route>) -> Result<Vec<u32>, Memory>
    ensures { IfOk result (λ parts. parts.items
        ≡ map (λ (r : RouteValue). part_number r.key) routes.now.items) }
{
    let parts = routes
        .iter()
        .map(|route| part_of(&route.key))
        .collect(alloc)?;
    Ok(parts)
}

// Adds a copy of a route where its key, which belongs to the one part, belongs to the other.
fn add_own(own: &mut Vec<Route>, route: &Route, part: u32, p: u32) -> Result<(), Memory>
    requires { part ≡ part_number route.now.key }
    ensures { OnOk result (own.new.items
        ≡ own.old.items ++ filter (λ (r : RouteValue). part_number r.key == p) (route.now ∷ [])) }
{
    if part == p {
        own.push(route.clone()?)?;
    }
    Ok(())
}

// Copies of the routes whose keys belong to the part. The parts are those of all routes, route by route.
fn own_routes(
    alloc: Global,
    routes: &Vec<Route>,
    parts: &Vec<u32>,
    p: u32,
) -> Result<Vec<Route>, Memory>
    requires { parts.now.items ≡ map (λ (r : RouteValue). part_number r.key) routes.now.items }
    ensures { IfOk result (λ own. own.items
        ≡ filter (λ (r : RouteValue). part_number r.key == p) routes.now.items) }
{
    let mut own = Vec::new(alloc);
    for (i, route) in routes.iter().enumerate() {
        add_own(&mut own, route, parts[i], p)?;
    }
    Ok(own)
}

// The event with the part's routes alone, where it has some. The parts are those of its routes, route by route.
fn own_item(alloc: Global, item: &Item, parts: &Vec<u32>, p: u32) -> Result<Option<Item>, Memory>
    requires { parts.now.items ≡ map (λ (r : RouteValue). part_number r.key) item.now.routes }
    ensures { IfOk result (λ own. own ≡ with_routes item.now
        (filter (λ (r : RouteValue). part_number r.key == p) item.now.routes)) }
{
    item.routes.stand();
    let own = own_routes(alloc, item.routes.items(), parts, p)?;
    if own.is_empty() {
        return Ok(None);
    }
    Ok(Some(Item {
        order: item.order,
        routes: Routes::of(own),
    }))
}

// Puts an event at the end of the list in a place.
fn put(lists: &mut Vec<Vec<Item>>, place: usize, item: Item) -> Result<(), Memory>
    requires { place < length lists.old.items }
    ensures { OnOk result (Grows place (item ∷ []) lists.old.items lists.new.items) }
{
    lists[place].push(item)?;
    Ok(())
}

// Adds to the list of one part the event with the part's routes alone, where it has some.
fn add_to_one(
    alloc: Global,
    lists: &mut Vec<Vec<Item>>,
    item: &Item,
    parts: &Vec<u32>,
    p: u32,
) -> Result<(), Memory>
    requires place { p < length lists.old.items }
    requires parts { parts.now.items
        ≡ map (λ (r : RouteValue). part_number r.key) item.now.routes }
    ensures { OnOk result (Grows p (routed_items part_number p (item.now ∷ []))
        lists.old.items lists.new.items) }
{
    match own_item(alloc, item, parts, p)? {
        None => Ok(()),
        Some(own) => put(lists, p as usize, own),
    }
}

// Adds to the list of each part the event with the part's routes alone, where it has some.
fn add_to_each(alloc: Global, lists: &mut Vec<Vec<Item>>, item: &Item) -> Result<(), Memory>
    requires { length lists.old.items ≡ 16 }
    ensures { OnOk result (Comes item.now lists.old.items lists.new.items) }
{
    let parts = parts_of(alloc, item.routes.items())?;
    for p in 0..PARTS {
        add_to_one(alloc, lists, item, &parts, p)?;
    }
    Ok(())
}

// Whether the keys of all these routes belong to the part.
fn are_all_own(routes: &[Route], p: u32) -> bool
    ensures { result ≡ list_all (λ (r : RouteValue). part_number r.key == p) routes.now }
{
    routes.iter().all(|route| part_of(&route.key) == p)
}

// Adds an event to the lists of the parts that its routes belong to. Where they belong to one part, the event is copied as
// it is.
fn add_item(alloc: Global, lists: &mut Vec<Vec<Item>>, item: &Item) -> Result<(), Memory>
    requires { length lists.old.items ≡ 16 }
    ensures { OnOk result (Comes item.now lists.old.items lists.new.items) }
{
    let Some((first, others)) = item.routes.items().split_first() else {
        return Ok(());
    };
    let p = part_of(&first.key);
    if are_all_own(others, p) {
        put(lists, p as usize, item.clone()?)
    } else {
        add_to_each(alloc, lists, item)
    }
}

// Sixteen empty lists.
fn empty_lists(alloc: Global) -> Result<Vec<Vec<Item>>, Memory>
    ensures { IfOk result (λ lists. AreSpread [] lists.items) }
{
    let mut lists = Vec::new(alloc);
    for _list in 0..PARTS {
        lists.push(Vec::new(alloc))?;
    }
    Ok(lists)
}

// The same lists as lists of events.
fn all_items(alloc: Global, lists: Vec<Vec<Item>>) -> Result<Vec<Items>, Memory>
    ensures { IfOk result (λ own. own.items ≡ map events_of lists.items) }
{
    Ok(lists.into_iter().map(Items::of).collect(alloc)?)
}

/// The events of each of the sixteen parts.
pub(crate) fn spread(alloc: Global, items: &Items) -> Result<Vec<Items>, Memory>
    ensures { IfOk result (λ own. own.items
        ≡ map (λ (p : ℕ). routed_items part_number p items.now) (numbers 16)) }
{
    let mut lists = empty_lists(alloc)?;
    for item in items.items() {
        add_item(alloc, &mut lists, item)?;
    }
    all_items(alloc, lists)
}
