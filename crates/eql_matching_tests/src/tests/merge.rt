//! Lists of many shards and of parts, merged.
ghost use Rattle.std.specs.Prelude.{◌≡◌, All, IsTrue};
ghost use Rattle.eql_values.specs.Ascending.{Ascend};
ghost use Rattle.eql_laws.specs.Apart.{has_place, AreApart, IsApartFrom, AllAreApart};

use crate::tests::lookback::{
    Found, SEVEN, are_matches, are_pending, chain_of, found, key_of, one, order_at,
};
use eql_lookback::ascend;
use eql_merge::{merge, merge_holders, merge_matches};
use eql_values::{Holder, Holders, Item, ItemLists, Items, Match, Matches, OrderKey, Routes};
use std::alloc::Global;
use std::slice;

/// The events of a shard: none to six, some at the times of other shards' events. It is `None` where memory is short.
fn list_of(alloc: Global, shard: u32) -> Option<Items> {
    let mut items = Vec::new(alloc);
    for line in 0..shard % 7 {
        let item = Item {
            order: order_at((line * 5 + shard % 13) as i128, shard, line + 1),
            routes: Routes::of(Vec::new(alloc)),
        };
        if items.push(item).is_err() {
            return None;
        }
    }
    Some(Items::of(items))
}

/// The events of so many shards, or `None` where memory is short.
fn lists_of(alloc: Global, shards: u32) -> Option<Vec<Items>> {
    let mut lists = Vec::new(alloc);
    for shard in 0..shards {
        if lists.push(list_of(alloc, shard)?).is_err() {
            return None;
        }
    }
    Some(lists)
}

/// Whether each list ascends.
fn each_ascends(lists: &[Items]) -> bool
    ensures { IsTrue result → All Ascend lists.now }
{
    for items in lists {
        if !ascend(items.items()) {
            return false;
        }
    }
    true
}

/// Whether one of the events stands at this place.
fn is_among(order: &OrderKey, items: &[Item]) -> bool
    ensures { result ≡ has_place order.now items.now }
{
    items.iter().any(|item| *order == item.order)
}

/// Whether no place is in both lists.
fn is_apart(a: &[Item], b: &[Item]) -> bool
    ensures { IsTrue result → AreApart a.now b.now }
{
    match a {
        [] => true,
        [first, rest @ ..] => !is_among(&first.order, b) && is_apart(rest, b),
    }
}

/// Whether no place is in this list and in one of those.
fn is_apart_from(a: &[Item], lists: &[Items]) -> bool
    ensures { IsTrue result → IsApartFrom a.now lists.now }
{
    match lists {
        [] => true,
        [b, rest @ ..] => is_apart(a, b.items()) && is_apart_from(a, rest),
    }
}

/// Whether no place is in two of the lists.
fn are_apart(lists: &[Items]) -> bool
    ensures { IsTrue result → AllAreApart lists.now }
{
    match lists {
        [] => true,
        [a, rest @ ..] => is_apart_from(a.items(), rest) && are_apart(rest),
    }
}

/// Adds the places of events. Returns whether there is memory for that.
fn adds_orders(orders: &mut Vec<OrderKey>, items: &Items) -> bool {
    for item in items.items() {
        if orders.push(item.order).is_err() {
            return false;
        }
    }
    true
}

/// The places of the events of lists, one list after another, or `None` where memory is short.
fn orders_of(alloc: Global, lists: &[Items]) -> Option<Vec<OrderKey>> {
    let mut orders = Vec::new(alloc);
    for items in lists {
        if !adds_orders(&mut orders, items) {
            return None;
        }
    }
    Some(orders)
}

/// The lists as one, or `None` where one doesn't ascend, two aren't apart, or memory is short.
fn merged(alloc: Global, lists: Vec<Items>) -> Option<Items> {
    if !each_ascends(&lists) || !are_apart(&lists) {
        return None;
    }
    merge(alloc, ItemLists::of(lists)).ok()
}

/// Whether the lists are one list of the events at these places.
fn has_orders(alloc: Global, lists: Vec<Items>, expected: &[OrderKey]) -> bool {
    match merged(alloc, lists) {
        Some(all) => match orders_of(alloc, slice::from_ref(&all)) {
            Some(orders) => orders.as_slice() == expected,
            None => false,
        },
        None => false,
    }
}

/// Whether lists are merged into one in ascending order.
fn are_sorted(alloc: Global, lists: Vec<Items>) -> bool {
    match orders_of(alloc, &lists) {
        Some(mut orders) => orders.sort().is_ok() && has_orders(alloc, lists, &orders),
        None => false,
    }
}

/// Whether the lists of 256 shards are merged.
fn are_merged(alloc: Global) -> bool {
    match lists_of(alloc, 256) {
        Some(lists) => are_sorted(alloc, lists),
        None => false,
    }
}

#[test]
fn lists_of_many_shards(rt: HostRuntime) {
    assert!(rt; are_merged(rt.alloc()));
}

/// What a part has: a sequence of one event.
static ONE: &[Found] = &[found!(SEVEN, &[3])];

/// A match of it, or `None` where memory is short.
fn one_match(alloc: Global) -> Option<Match> {
    match (key_of(alloc, SEVEN), chain_of(alloc, 5, 3)) {
        (Some(key), Some(chain)) => Some(Match { key, chain }),
        _ => None,
    }
}

/// The match, merged with no others, or `None` where memory is short.
fn merged_match(alloc: Global) -> Option<Matches> {
    let found = Matches::of(one(alloc, one_match(alloc)?)?);
    merge_matches(alloc, one(alloc, found)?).ok()
}

/// Whether the one match of a part is as it was, merged with no others.
fn keeps_match(alloc: Global) -> bool {
    match merged_match(alloc) {
        Some(found) => are_matches(alloc, found.items(), ONE),
        None => false,
    }
}

#[test]
fn the_matches_of_one_part(rt: HostRuntime) {
    assert!(rt; keeps_match(rt.alloc()));
}

/// A pending sequence of it, or `None` where memory is short.
fn one_holder(alloc: Global) -> Option<Holder> {
    match (key_of(alloc, SEVEN), chain_of(alloc, 5, 3)) {
        (Some(key), Some(chain)) => Some(Holder {
            key,
            stage: 1,
            chain,
        }),
        _ => None,
    }
}

/// The pending sequence, merged with no others, or `None` where memory is short.
fn merged_holder(alloc: Global) -> Option<Holders> {
    let held = Holders::of(one(alloc, one_holder(alloc)?)?);
    merge_holders(alloc, one(alloc, held)?).ok()
}

/// Whether the one pending sequence of a part is as it was, merged with no others.
fn keeps_holder(alloc: Global) -> bool {
    match merged_holder(alloc) {
        Some(held) => are_pending(alloc, held.items(), ONE),
        None => false,
    }
}

#[test]
fn the_pending_sequences_of_one_part(rt: HostRuntime) {
    assert!(rt; keeps_holder(rt.alloc()));
}
