//! What is taken for the routes of an event before it is played: room, copies of keys, and places on the list.
ghost use Rattle.std.specs.Prelude.{◌≡◌, ◌≢◌, ◌<◌, ◌≤◌, ◌+◌, ◌++◌, ◌∷◌, [], List, All, IfOk, OnOk, OnErr, is_some, if◌then◌else◌, Some, None, map, length, vec_len, vec_capacity};
ghost use Rattle.std.specs.Option.{option_to_list};
ghost use Rattle.eql_values.specs.Masks.{has_after, has_stage};
ghost use Rattle.eql_values.specs.Orders.{key_cmp};
ghost use Rattle.eql_part.specs.KeyTables.{AreBusy, AreBusyBut, AreOf, AreReadyFor, IsReadyIn, KeepsOtherKeys, KeepsOtherRoutes, KeepsReady, KeepsSequences};
ghost use Rattle.eql_part.specs.Links.{Listed, begun_by};
ghost use Rattle.eql_part.specs.Routed.{ArePrepared, IsPrepared, all_begun, tickets_in};
ghost use Rattle.eql_part.specs.Rooms.{IsTable, entries_of};

use crate::listing::Start;
use crate::machine::KeyMachine;
use crate::rooms::{Shape, drop_empty, make_room};
use crate::table::KeyTable;
use eql_span_list::{SpanList, Ticket};
use eql_values::{Key, Memory, OrderKey, Route};
use std::sync::ledger::Ledger;

/// What is taken for one route.
#[derive(Drop)]
pub(crate) struct Prepared {
    /// The ticket of the sequence that the event begins, where it begins one.
    pub begun: Option<Ticket>,
    /// A copy of the key, where the event fits the last stage.
    pub key: Option<Key>,
}

/// Puts the sequence that an event begins on the list, where it begins one. After want of memory nothing has changed.
pub(crate) fn list_begun(
    list: &mut SpanList<Start>,
    order: OrderKey,
    route: &Route,
) -> Result<Option<Ticket>, Memory>
    ensures tagged { IfOk result (λ tag. is_some tag ≡ has_after 0 route.now.mask) }
    ensures list { IfOk result (λ tag. list.new ≡ list.old ++ begun_by order route.now tag) }
    ensures unchanged { OnErr result (list.new ≡ list.old) }
{
    if !route.mask.has(1) {
        return Ok(None);
    }
    let key = route.key.clone()?;
    let start = Start {
        time: order.ts,
        key,
    };
    match list.push_back(start) {
        Ok(ticket) => Ok(Some(ticket)),
        Err(_) => Err(Memory),
    }
}

/// A copy of the key of a route, where it has the stage.
pub(crate) fn copy_key(route: &Route, stage: u32) -> Result<Option<Key>, Memory>
    requires from { 1 ≤ stage }
    requires to { stage ≤ 256 }
    ensures { IfOk result (λ key. key
        ≡ (if has_stage route.now.mask stage then Some route.now.key else None)) }
{
    if route.mask.has(stage) {
        return Ok(Some(route.key.clone()?));
    }
    Ok(None)
}

/// Takes what one route may need. After want of memory the list is as it was.
fn prepare<L: Ledger>(
    machines: &mut KeyTable<L>,
    list: &mut SpanList<Start>,
    shape: Shape,
    order: OrderKey,
    route: &Route,
) -> Result<Prepared, Memory>
    requires from { 1 ≤ shape.stages }
    requires to { shape.stages ≤ 256 }
    requires of { AreOf shape.stages shape.span (entries_of machines.old) }
    requires table { IsTable shape.stages shape.span machines.old }
    ensures of { AreOf shape.stages shape.span (entries_of machines.new) }
    ensures table { IsTable shape.stages shape.span machines.new }
    ensures sequences { KeepsSequences (entries_of machines.old) (entries_of machines.new) }
    ensures ready { KeepsReady (entries_of machines.old) (entries_of machines.new) }
    ensures there { OnOk result (IsReadyIn (entries_of machines.new) route.now.key) }
    ensures others { KeepsOtherKeys route.now.key
        (entries_of machines.old) (entries_of machines.new) }
    ensures prepared { IfOk result (IsPrepared shape.stages route.now) }
    ensures list { IfOk result (λ ready. list.new ≡ list.old
        ++ begun_by order route.now ready.begun) }
    ensures unchanged { OnErr result (list.new ≡ list.old) }
{
    make_room(machines, shape, &route.key)?;
    let key = copy_key(route, shape.stages)?;
    let begun = list_begun(list, order, route)?;
    Ok(Prepared { begun, key })
}

/// Takes the last entry of the list off again, where it is that of a ticket.
fn unlist(list: &mut SpanList<Start>, tag: Option<Ticket>)
    requires { (base : List Listed) × (begun : List Listed) × (list.old ≡ base ++ begun)
        × (map (λ e. e.0) begun ≡ option_to_list tag) }
    ensures { (base begun : List Listed) → list.old ≡ base ++ begun → map (λ e. e.0) begun
        ≡ option_to_list tag → list.new ≡ base }
{
    if let Some(ticket) = tag {
        list.remove(ticket);
    }
}

/// Takes the sequences that were put on the list off again, the last first.
fn undo(list: &mut SpanList<Start>, prepared: Vec<Prepared>)
    requires { (base : List Listed) × (begun : List Listed) × (list.old ≡ base ++ begun)
        × (map (λ e. e.0) begun ≡ tickets_in prepared.items) }
    ensures { (base begun : List Listed) → list.old ≡ base ++ begun → map (λ e. e.0) begun
        ≡ tickets_in prepared.items → list.new ≡ base }
{
    let mut prepared = prepared;
    while let Some(last) = prepared.pop() {
        unlist(list, last.begun);
    }
}

/// Takes what the routes of an event may need. After want of memory the list is as it was.
pub(crate) fn prepare_all<L: Ledger>(
    machines: &mut KeyTable<L>,
    list: &mut SpanList<Start>,
    shape: Shape,
    order: OrderKey,
    routes: &Vec<Route>,
) -> Result<Vec<Prepared>, Memory>
    requires from { 1 ≤ shape.stages }
    requires to { shape.stages ≤ 256 }
    requires of { AreOf shape.stages shape.span (entries_of machines.old) }
    requires table { IsTable shape.stages shape.span machines.old }
    ensures of { AreOf shape.stages shape.span (entries_of machines.new) }
    ensures table { IsTable shape.stages shape.span machines.new }
    ensures sequences { KeepsSequences (entries_of machines.old) (entries_of machines.new) }
    ensures ready { OnOk result (AreReadyFor routes.now.items (entries_of machines.new)) }
    ensures others { KeepsOtherRoutes routes.now.items
        (entries_of machines.old) (entries_of machines.new) }
    ensures prepared { IfOk result
        (λ prepared. ArePrepared shape.stages routes.now.items prepared.items) }
    ensures list { IfOk result (λ prepared. list.new ≡ list.old
        ++ all_begun order routes.now.items prepared.items) }
    ensures unchanged { OnErr result (list.new ≡ list.old) }
{
    let mut prepared = Vec::with_capacity(shape.alloc, routes.len())?;
    for route in routes {
        match prepare(machines, list, shape, order, route) {
            Ok(ready) => prepared.push_reserved(ready),
            Err(memory) => {
                undo(list, prepared);
                return Err(memory);
            }
        }
    }
    Ok(prepared)
}

/// Keeps no machine for the keys of routes with nothing pending.
pub(crate) fn drop_all_empty<L: Ledger>(
    machines: &mut KeyTable<L>,
    shape: Shape,
    routes: &Vec<Route>,
)
    requires of { AreOf shape.stages shape.span (entries_of machines.old) }
    requires table { IsTable shape.stages shape.span machines.old }
    requires busy { AreBusyBut routes.now.items (entries_of machines.old) }
    ensures of { AreOf shape.stages shape.span (entries_of machines.new) }
    ensures table { IsTable shape.stages shape.span machines.new }
    ensures sequences { KeepsSequences (entries_of machines.old) (entries_of machines.new) }
    ensures busy { AreBusy (entries_of machines.new) }
{
    for route in routes {
        drop_empty(machines, shape, &route.key);
    }
}
