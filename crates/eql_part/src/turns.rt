//! What an event does to the machine of one key, and to those of all keys that it has a route of.
ghost use Rattle.std.specs.Prelude.{◌≡◌, ℕ, ◌+◌, ◌<◌, ◌≤◌, ◌++◌, List, is_some};
ghost use Rattle.eql_values.specs.Masks.{has_after};
ghost use Rattle.eql_values.specs.Orders.{key_cmp};
ghost use Rattle.eql_values.specs.Matching.{key_event_by};
ghost use Rattle.eql_laws.specs.Slots.{chain_coming, slots_after};
ghost use Rattle.eql_part.specs.KeyTables.{AreOf, IsBusyAt, IsLaterAt, IsReadyIn, KeepsOtherKeys, probes_of, sequences_in, slots_in};
ghost use Rattle.eql_part.specs.Links.{IsLinked, Listed, begun_by};
ghost use Rattle.eql_part.specs.Rooms.{IsTable, entries_of};

use crate::listing::{Start, tickets_differ};
use crate::machine::KeyMachine;
use crate::rooms::{Shape, drop_empty};
use crate::table::KeyTable;
use eql_auto::Steps;
use eql_span_list::{SpanList, Ticket};
use eql_values::{Chain, Key, OrderKey, Route};
use std::sync::ledger::Ledger;

/// Plays what an event says to one key, in the room taken before, and takes the sequences that ceased off the list.
fn turn_machine<L: Ledger>(
    machines: &mut KeyTable<L>,
    list: &mut SpanList<Start>,
    shape: Shape,
    order: OrderKey,
    route: &Route,
    tag: Option<Ticket>,
    steps: &mut Steps<L>,
) -> Option<Chain>
    requires to { shape.stages ≤ 256 }
    requires of { AreOf shape.stages shape.span (entries_of machines.old) }
    requires table { IsTable shape.stages shape.span machines.old }
    requires ready { IsReadyIn (entries_of machines.old) route.now.key }
    requires later { IsLaterAt order (entries_of machines.old) route.now.key }
    requires tagged { is_some tag ≡ has_after 0 route.now.mask }
    requires linked { (begun : List Listed) × IsLinked (begun_by order route.now tag ++ begun)
        (sequences_in (entries_of machines.old)) list.old }
    ensures of { AreOf shape.stages shape.span (entries_of machines.new) }
    ensures table { IsTable shape.stages shape.span machines.new }
    ensures others { KeepsOtherKeys route.now.key
        (entries_of machines.old) (entries_of machines.new) }
    ensures slots { (k : ℕ) → 1 ≤ k → k < shape.stages
        → slots_in (entries_of machines.new) route.now.key k
        ≡ slots_after shape.span (slots_in (entries_of machines.old) route.now.key)
        (key_event_by order route.now) k }
    ensures answer { result ≡ chain_coming shape.span
        (slots_in (entries_of machines.old) route.now.key)
        (key_event_by order route.now) shape.stages }
    ensures linked { (begun : List Listed) → IsLinked (begun_by order route.now tag ++ begun)
        (sequences_in (entries_of machines.old)) list.old
        → IsLinked begun (sequences_in (entries_of machines.new)) list.new }
    ensures probes { steps.new ≤ steps.old + probes_of shape.stages route.now }
{
    tickets_differ(list);
    match machines.place(&route.key) {
        None => unreachable!(),
        Some(place) => machines.rooms[place]
            .machine
            .turn(list, order, route, tag, steps),
    }
}

/// Plays what an event says to one key, and keeps no machine for it where nothing of it is pending then.
pub(crate) fn turn_key<L: Ledger>(
    machines: &mut KeyTable<L>,
    list: &mut SpanList<Start>,
    shape: Shape,
    order: OrderKey,
    route: &Route,
    tag: Option<Ticket>,
    steps: &mut Steps<L>,
) -> Option<Chain>
    requires to { shape.stages ≤ 256 }
    requires of { AreOf shape.stages shape.span (entries_of machines.old) }
    requires table { IsTable shape.stages shape.span machines.old }
    requires ready { IsReadyIn (entries_of machines.old) route.now.key }
    requires later { IsLaterAt order (entries_of machines.old) route.now.key }
    requires tagged { is_some tag ≡ has_after 0 route.now.mask }
    requires linked { (begun : List Listed) × IsLinked (begun_by order route.now tag ++ begun)
        (sequences_in (entries_of machines.old)) list.old }
    ensures of { AreOf shape.stages shape.span (entries_of machines.new) }
    ensures table { IsTable shape.stages shape.span machines.new }
    ensures others { KeepsOtherKeys route.now.key
        (entries_of machines.old) (entries_of machines.new) }
    ensures busy { IsBusyAt (entries_of machines.new) route.now.key }
    ensures slots { (k : ℕ) → 1 ≤ k → k < shape.stages
        → slots_in (entries_of machines.new) route.now.key k
        ≡ slots_after shape.span (slots_in (entries_of machines.old) route.now.key)
        (key_event_by order route.now) k }
    ensures answer { result ≡ chain_coming shape.span
        (slots_in (entries_of machines.old) route.now.key)
        (key_event_by order route.now) shape.stages }
    ensures linked { (begun : List Listed) → IsLinked (begun_by order route.now tag ++ begun)
        (sequences_in (entries_of machines.old)) list.old
        → IsLinked begun (sequences_in (entries_of machines.new)) list.new }
    ensures probes { steps.new ≤ steps.old + probes_of shape.stages route.now }
{
    let completed = turn_machine(machines, list, shape, order, route, tag, steps);
    drop_empty(machines, shape, &route.key);
    completed
}
