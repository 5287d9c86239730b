//! Pending sequences that are there at the start are put in, in the order of their first events.
ghost use Rattle.std.specs.Prelude.{◌≡◌, ℕ, ℤ, ◌<◌, ◌≤◌, ◌≤ℤ◌, ◌++◌, ◌∷◌, [], List, All, IfOk, OnOk, None, Some, length, map, IsPermutation};
ghost use Rattle.std.specs.List.{Contains};
ghost use Rattle.std.specs.List.Sorted.{IsSortedByKey};
ghost use Rattle.std.specs.Ordering.{int_cmp};
ghost use Rattle.eql_values.specs.declared.found.Holder.{Holder as Held};
ghost use Rattle.eql_values.specs.declared.order.OrderKey.{OrderKey};
ghost use Rattle.eql_values.specs.declared.value.Value.{Value};
ghost use Rattle.eql_values.specs.Orders.{key_cmp};
ghost use Rattle.eql_laws.specs.Shapes.{HasStageBefore, IsFull};
ghost use Rattle.eql_part.specs.KeyTables.{AreBusy, AreOf, IsBusyAt, IsReadyIn, KeepsOtherKeys, sequences_in, slots_in};
ghost use Rattle.eql_part.specs.Links.{Differ, IsLinked, Listed, StartsRise, first_time, slot_of};
ghost use Rattle.eql_part.specs.Rooms.{IsTable, entries_of};

use crate::listing::{Start, tickets_differ};
use crate::machine::KeyMachine;
use crate::rooms::{Shape, make_room};
use crate::table::KeyTable;
use eql_span_list::{SpanList, Ticket};
use eql_values::{Chain, Holder, Key, Memory};
use std::sync::ledger::Ledger;

/// The timestamp of the first event of a chain, in nanoseconds since the epoch.
fn first_time(chain: &Chain) -> i128
    ensures { result ≡ first_time chain.now }
{
    match chain.items().first() {
        None => 0,
        Some(first) => first.ts,
    }
}

/// Puts pending sequences in the order of their first timestamps.
pub(crate) fn sort_by_start(holders: &mut Vec<Holder>) -> Result<(), Memory>
    ensures same { IsPermutation holders.old.items holders.new.items }
    ensures sorted { OnOk result (IsSortedByKey
        (λ h. first_time h.chain) int_cmp holders.new.items) }
{
    holders.sort_by_key(|holder| first_time(&holder.chain))?;
    Ok(())
}

/// What the list has of a sequence of a key.
fn start_of(key: &Key, chain: &Chain) -> Result<Start, Memory>
    ensures { IfOk result (λ start. start
        ≡ record { time = first_time chain.now; key = key.now }) }
{
    let time = first_time(chain);
    let key = key.clone()?;
    Ok(Start { time, key })
}

/// Puts a sequence that is on the list into the machine of its key.
fn put_listed<L: Ledger>(
    machines: &mut KeyTable<L>,
    list: &SpanList<Start>,
    shape: Shape,
    holder: Holder,
    ticket: Ticket,
)
    requires to { shape.stages ≤ 256 }
    requires of { AreOf shape.stages shape.span (entries_of machines.old) }
    requires table { IsTable shape.stages shape.span machines.old }
    requires ready { IsReadyIn (entries_of machines.old) holder.key }
    requires stage { HasStageBefore shape.stages holder }
    requires full { IsFull holder }
    requires empty { slots_in (entries_of machines.old) holder.key holder.stage ≡ None }
    requires linked { IsLinked
        ((ticket, record { time = first_time holder.chain; key = holder.key }) ∷ [])
        (sequences_in (entries_of machines.old)) list.now }
    ensures of { AreOf shape.stages shape.span (entries_of machines.new) }
    ensures table { IsTable shape.stages shape.span machines.new }
    ensures rest { KeepsOtherKeys holder.key (entries_of machines.old) (entries_of machines.new) }
    ensures busy { IsBusyAt (entries_of machines.new) holder.key }
    ensures here { slots_in (entries_of machines.new) holder.key holder.stage ≡ Some holder.chain }
    ensures others { (q : List Value) (k : ℕ) → (q ≡ holder.key → k ≡ holder.stage → ⊥)
        → slots_in (entries_of machines.new) q k ≡ slots_in (entries_of machines.old) q k }
    ensures linked { IsLinked [] (sequences_in (entries_of machines.new)) list.now }
{
    tickets_differ(list);
    match machines.place(&holder.key) {
        None => unreachable!(),
        Some(place) => machines.rooms[place]
            .machine
            .put(holder.stage, holder.chain, ticket),
    }
}

/// Puts a sequence in that begins no earlier than those on the list.
fn put<L: Ledger>(
    machines: &mut KeyTable<L>,
    list: &mut SpanList<Start>,
    shape: Shape,
    holder: Holder,
) -> Result<(), Memory>
    requires from { 1 ≤ shape.stages }
    requires to { shape.stages ≤ 256 }
    requires of { AreOf shape.stages shape.span (entries_of machines.old) }
    requires table { IsTable shape.stages shape.span machines.old }
    requires busy { AreBusy (entries_of machines.old) }
    requires stage { HasStageBefore shape.stages holder }
    requires full { IsFull holder }
    requires empty { slots_in (entries_of machines.old) holder.key holder.stage ≡ None }
    requires linked { IsLinked [] (sequences_in (entries_of machines.old)) list.old }
    requires late { All (λ (e : Listed). e.1.time ≤ℤ first_time holder.chain) list.old }
    ensures of { AreOf shape.stages shape.span (entries_of machines.new) }
    ensures table { IsTable shape.stages shape.span machines.new }
    ensures busy { OnOk result (AreBusy (entries_of machines.new)) }
    ensures here { OnOk result (slots_in (entries_of machines.new) holder.key holder.stage
        ≡ Some holder.chain) }
    ensures others { OnOk result ((q : List Value) (k : ℕ)
        → (q ≡ holder.key → k ≡ holder.stage → ⊥) → slots_in (entries_of machines.new) q k
        ≡ slots_in (entries_of machines.old) q k) }
    ensures linked { OnOk result (IsLinked [] (sequences_in (entries_of machines.new)) list.new) }
    ensures late { OnOk result ((time : ℤ) → All (λ (e : Listed). e.1.time ≤ℤ time) list.old
        → first_time holder.chain ≤ℤ time → All (λ (e : Listed). e.1.time ≤ℤ time) list.new) }
{
    make_room(machines, shape, &holder.key)?;
    let start = start_of(&holder.key, &holder.chain)?;
    match list.push_back(start) {
        Ok(ticket) => {
            tickets_differ(list);
            put_listed(machines, list, shape, holder, ticket);
            Ok(())
        }
        Err(_) => Err(Memory),
    }
}

/// Puts sequences in, in the order of their first timestamps, where there is none.
pub(crate) fn put_all<L: Ledger>(
    machines: &mut KeyTable<L>,
    list: &mut SpanList<Start>,
    shape: Shape,
    holders: Vec<Holder>,
) -> Result<(), Memory>
    requires from { 1 ≤ shape.stages }
    requires to { shape.stages ≤ 256 }
    requires none { (entries_of machines.old) ≡ [] }
    requires table { IsTable shape.stages shape.span machines.old }
    requires empty { list.old ≡ [] }
    requires stages { All (HasStageBefore shape.stages) holders.items }
    requires full { All IsFull holders.items }
    requires differ { Differ (map slot_of holders.items) }
    requires rise { StartsRise holders.items }
    ensures of { AreOf shape.stages shape.span (entries_of machines.new) }
    ensures table { IsTable shape.stages shape.span machines.new }
    ensures busy { OnOk result (AreBusy (entries_of machines.new)) }
    ensures there { OnOk result (All (λ (h : Held).
        slots_in (entries_of machines.new) h.key h.stage
        ≡ Some h.chain) holders.items) }
    ensures no_other { OnOk result ((q : List Value) (k : ℕ) (c : List OrderKey)
        → slots_in (entries_of machines.new) q k ≡ Some c
        → Contains holders.items (record { key = q; stage = k; chain = c })) }
    ensures linked { OnOk result (IsLinked [] (sequences_in (entries_of machines.new)) list.new) }
{
    for holder in holders {
        put(machines, list, shape, holder)?;
    }
    Ok(())
}
