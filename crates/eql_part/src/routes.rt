//! An event played to all keys that it has a route of.
ghost use Rattle.std.specs.Prelude.{◌≡◌, ℕ, suc, ◌+◌, ◌<◌, ◌≤◌, ◌++◌, [], List, All, IfOk, IfSome, IsSome, IsTrue, OnErr, OnOk, length, vec_len, vec_capacity, find};
ghost use Rattle.std.specs.List.{filter_map};
ghost use Rattle.std.specs.Option.{option_map, option_to_list};
ghost use Rattle.eql_values.specs.declared.item.Route.{Route};
ghost use Rattle.eql_values.specs.declared.value.Value.{Value};
ghost use Rattle.eql_values.specs.Orders.{key_cmp, key_eq};
ghost use Rattle.eql_values.specs.Routes.{RoutesAreInOrder};
ghost use Rattle.eql_laws.specs.OneEvent.{slots_after_event};
ghost use Rattle.eql_part.specs.KeyTables.{AreBusy, AreBusyBut, AreOf, AreReadyFor, IsIdle, IsLaterAt, KeepsSequences, probes_of_all, sequences_in, slots_in};
ghost use Rattle.eql_part.specs.Links.{IsLinked};
ghost use Rattle.eql_part.specs.Routed.{ArePrepared, all_begun, match_there};
ghost use Rattle.eql_part.specs.Rooms.{IsTable, entries_of};

use crate::listing::{Start, tickets_differ};
use crate::machine::KeyMachine;
use crate::prepared::{Prepared, drop_all_empty, prepare_all};
use crate::rooms::Shape;
use crate::single::play_one;
use crate::table::KeyTable;
use crate::turns::turn_key;
use eql_auto::Steps;
use eql_span_list::SpanList;
use eql_values::{Chain, Key, Match, Memory, OrderKey, Route};
use std::sync::ledger::Ledger;

/// Adds the match of a key that has its event for the last stage, where there is one, in the room taken before.
pub(crate) fn add_match(found: &mut Vec<Match>, key: Option<Key>, completed: Option<Chain>)
    requires keyed { IfSome completed (λ _. IsSome key) }
    requires room { IfSome key (λ _. vec_len found.old < vec_capacity found.old) }
    ensures items { (q : List Value) → IfSome key (λ k. k ≡ q) → found.new.items
        ≡ found.old.items ++ option_to_list (option_map
        (λ c. record { key = q; chain = c }) completed) }
    ensures len { vec_len found.new ≤ vec_len found.old + 1 }
    ensures room { vec_capacity found.old ≤ vec_capacity found.new }
{
    if let (Some(key), Some(chain)) = (key, completed) {
        found.push_reserved(Match { key, chain });
    }
}

/// Plays an event to the keys of its routes, in the room taken before, and adds the matches that it completes.
pub(crate) fn turn_all<L: Ledger>(
    machines: &mut KeyTable<L>,
    list: &mut SpanList<Start>,
    shape: Shape,
    order: OrderKey,
    routes: &Vec<Route>,
    prepared: Vec<Prepared>,
    found: &mut Vec<Match>,
    steps: &mut Steps<L>,
)
    requires to { shape.stages ≤ 256 }
    requires of { AreOf shape.stages shape.span (entries_of machines.old) }
    requires table { IsTable shape.stages shape.span machines.old }
    requires order { RoutesAreInOrder routes.now.items }
    requires ready { AreReadyFor routes.now.items (entries_of machines.old) }
    requires busy { AreBusyBut routes.now.items (entries_of machines.old) }
    requires later { (key : List Value) → IsLaterAt order (entries_of machines.old) key }
    requires prepared { ArePrepared shape.stages routes.now.items prepared.items }
    requires linked { IsLinked (all_begun order routes.now.items prepared.items)
        (sequences_in (entries_of machines.old)) list.old }
    requires room { vec_len found.old + length routes.now.items ≤ vec_capacity found.old }
    ensures of { AreOf shape.stages shape.span (entries_of machines.new) }
    ensures table { IsTable shape.stages shape.span machines.new }
    ensures busy { AreBusy (entries_of machines.new) }
    ensures slots { (key : List Value) (k : ℕ) → suc k < shape.stages
        → slots_in (entries_of machines.new) key (suc k)
        ≡ slots_after_event shape.span order (find
        (λ (route : Route). key_eq key route.key) routes.now.items)
        (slots_in (entries_of machines.old) key) (suc k) }
    ensures found { found.new.items ≡ found.old.items
        ++ filter_map (match_there shape.stages shape.span
        (slots_in (entries_of machines.old)) order) routes.now.items }
    ensures linked { IsLinked [] (sequences_in (entries_of machines.new)) list.new }
    ensures probes { steps.new ≤ steps.old + probes_of_all shape.stages routes.now.items }
{
    let mut prepared = prepared.into_iter();
    for route in routes {
        match prepared.next() {
            None => unreachable!(),
            Some(ready) => {
                let completed = turn_key(machines, list, shape, order, route, ready.begun, steps);
                add_match(found, ready.key, completed);
            }
        }
    }
}

/// Whether the route says nothing to its key: it begins no sequence, and the key has no machine.
fn is_idle<L: Ledger>(machines: &KeyTable<L>, shape: Shape, route: &Route) -> bool
    requires { IsTable shape.stages shape.span machines.now }
    ensures { IsTrue result → IsIdle (entries_of machines.now) route.now }
{
    if route.mask.has(1) {
        return false;
    }
    machines.place(&route.key).is_none()
}

/// Whether the event says nothing to any key.
fn are_idle<L: Ledger>(machines: &KeyTable<L>, shape: Shape, routes: &Vec<Route>) -> bool
    requires { IsTable shape.stages shape.span machines.now }
    ensures { IsTrue result → All
        (λ (route : Route). IsIdle (entries_of machines.now) route) routes.now.items }
{
    for route in routes {
        if !is_idle(machines, shape, route) {
            return false;
        }
    }
    true
}

/// Plays an event that comes after all that is pending, and returns the matches that it completes. An event of one route
/// searches for its key once, and an event that says nothing to any key takes no memory. After want of memory the pending sequences are as they were.
pub(crate) fn play<L: Ledger>(
    machines: &mut KeyTable<L>,
    list: &mut SpanList<Start>,
    shape: Shape,
    order: OrderKey,
    routes: &Vec<Route>,
    steps: &mut Steps<L>,
) -> Result<Vec<Match>, Memory>
    requires from { 1 ≤ shape.stages }
    requires to { shape.stages ≤ 256 }
    requires of { AreOf shape.stages shape.span (entries_of machines.old) }
    requires table { IsTable shape.stages shape.span machines.old }
    requires busy { AreBusy (entries_of machines.old) }
    requires order { RoutesAreInOrder routes.now.items }
    requires later { (key : List Value) → IsLaterAt order (entries_of machines.old) key }
    requires linked { IsLinked [] (sequences_in (entries_of machines.old)) list.old }
    ensures of { AreOf shape.stages shape.span (entries_of machines.new) }
    ensures table { IsTable shape.stages shape.span machines.new }
    ensures busy { AreBusy (entries_of machines.new) }
    ensures slots { OnOk result ((key : List Value) (k : ℕ) → suc k < shape.stages
        → slots_in (entries_of machines.new) key (suc k)
        ≡ slots_after_event shape.span order (find
        (λ (route : Route). key_eq key route.key) routes.now.items)
        (slots_in (entries_of machines.old) key) (suc k)) }
    ensures found { IfOk result (λ found. found.items
        ≡ filter_map (match_there shape.stages shape.span
        (slots_in (entries_of machines.old)) order) routes.now.items) }
    ensures linked { IsLinked [] (sequences_in (entries_of machines.new)) list.new }
    ensures unchanged { OnErr result
        (KeepsSequences (entries_of machines.old) (entries_of machines.new)) }
    ensures probes { steps.new ≤ steps.old + probes_of_all shape.stages routes.now.items }
{
    if routes.len() == 1 {
        return play_one(machines, list, shape, order, &routes[0], steps);
    }
    if are_idle(machines, shape, routes) {
        return Ok(Vec::new(shape.alloc));
    }
    let mut found = Vec::with_capacity(shape.alloc, routes.len())?;
    match prepare_all(machines, list, shape, order, routes) {
        Ok(prepared) => {
            tickets_differ(list);
            turn_all(
                machines, list, shape, order, routes, prepared, &mut found, steps,
            );
            Ok(found)
        }
        Err(memory) => {
            drop_all_empty(machines, shape, routes);
            Err(memory)
        }
    }
}
