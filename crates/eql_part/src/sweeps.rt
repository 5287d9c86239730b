//! Sequences that are no longer alive are dropped, those of the earliest first events first.
ghost use Rattle.std.specs.Prelude.{◌≡◌, ℕ, ◌+◌, ◌-◌, ◌*◌, ◌<◌, ◌≤◌, [], List, All, IsTrue, true, false, length};
ghost use Rattle.eql_values.specs.declared.value.Value.{Value};
ghost use Rattle.eql_values.specs.Orders.{key_cmp};
ghost use Rattle.eql_laws.specs.Alive.{alive_at};
ghost use Rattle.eql_part.specs.KeyTables.{AreBusy, AreOf, KeepsOtherKeys, holders_in, sequences_in, slots_in};
ghost use Rattle.eql_part.specs.Links.{BeginsStale, IsLinked, Listed, TimesAscend, is_early};
ghost use Rattle.eql_part.specs.Rooms.{IsTable, entries_of};

use crate::listing::{Start, tickets_differ};
use crate::machine::KeyMachine;
use crate::rooms::{Shape, drop_empty};
use crate::table::KeyTable;
use eql_auto::Steps;
use eql_laws::same_holders;
use eql_span_list::SpanList;
use eql_values::{Key, OrderKey, is_in_time};
use std::sync::ledger::Ledger;

/// Whether the time from a first timestamp is at most the span, all in nanoseconds.
fn is_early(span: Option<i128>, first: i128, now: i128) -> bool
    ensures { result ≡ is_early span first now }
{
    let event = OrderKey {
        ts: first,
        tie: None,
        shard: 0,
        line: 0,
        at: 0,
    };
    is_in_time(span, &[event], now)
}

/// Whether the first on the list is no longer alive at a time.
fn is_front_stale(list: &SpanList<Start>, span: Option<i128>, now: i128) -> bool
    requires { TimesAscend list.now }
    ensures stale { IsTrue result → BeginsStale span now list.now }
    ensures fresh { result ≡ false → All (λ (e : Listed). is_early span e.1.time now
        ≡ true) list.now }
{
    match list.front() {
        None => false,
        Some(first) => !is_early(span, first.time, now),
    }
}

/// Drops the sequences of the key of the first on the list that are no longer alive, and returns what the list had of one
/// of them.
fn expire_machine<L: Ledger>(
    machines: &mut KeyTable<L>,
    list: &mut SpanList<Start>,
    shape: Shape,
    reach: i128,
    steps: &mut Steps<L>,
) -> Start
    requires to { shape.stages ≤ 256 }
    requires of { AreOf shape.stages shape.span (entries_of machines.old) }
    requires linked { IsLinked [] (sequences_in (entries_of machines.old)) list.old }
    requires stale { BeginsStale shape.span reach list.old }
    requires table { IsTable shape.stages shape.span machines.old }
    ensures of { AreOf shape.stages shape.span (entries_of machines.new) }
    ensures table { IsTable shape.stages shape.span machines.new }
    ensures others { KeepsOtherKeys result.key
        (entries_of machines.old) (entries_of machines.new) }
    ensures alive { (key : List Value) (k : ℕ)
        → alive_at shape.span reach (slots_in (entries_of machines.new) key k)
        ≡ alive_at shape.span reach (slots_in (entries_of machines.old) key k) }
    ensures linked { IsLinked [] (sequences_in (entries_of machines.new)) list.new }
    ensures fewer { length (holders_in (entries_of machines.new)) < length
        (holders_in (entries_of machines.old)) }
    ensures probes { steps.new ≤ steps.old + (shape.stages - 1) }
{
    tickets_differ(list);
    let dropped = match list.front() {
        None => unreachable!(),
        Some(first) => match machines.place(&first.key) {
            None => unreachable!(),
            Some(place) => machines.rooms[place].machine.expire(list, reach, steps),
        },
    };
    match dropped {
        None => unreachable!(),
        Some(start) => start,
    }
}

/// Drops the sequences of the key of the first on the list that are no longer alive, and keeps no machine for it where
/// nothing of it is pending then.
fn expire_front<L: Ledger>(
    machines: &mut KeyTable<L>,
    list: &mut SpanList<Start>,
    shape: Shape,
    reach: i128,
    steps: &mut Steps<L>,
)
    requires to { shape.stages ≤ 256 }
    requires of { AreOf shape.stages shape.span (entries_of machines.old) }
    requires linked { IsLinked [] (sequences_in (entries_of machines.old)) list.old }
    requires stale { BeginsStale shape.span reach list.old }
    requires table { IsTable shape.stages shape.span machines.old }
    requires busy { AreBusy (entries_of machines.old) }
    ensures of { AreOf shape.stages shape.span (entries_of machines.new) }
    ensures table { IsTable shape.stages shape.span machines.new }
    ensures busy { AreBusy (entries_of machines.new) }
    ensures alive { (key : List Value) (k : ℕ)
        → alive_at shape.span reach (slots_in (entries_of machines.new) key k)
        ≡ alive_at shape.span reach (slots_in (entries_of machines.old) key k) }
    ensures linked { IsLinked [] (sequences_in (entries_of machines.new)) list.new }
    ensures fewer { length (holders_in (entries_of machines.new)) < length
        (holders_in (entries_of machines.old)) }
    ensures probes { steps.new ≤ steps.old + (shape.stages - 1) }
{
    same_holders();
    let start = expire_machine(machines, list, shape, reach, steps);
    drop_empty(machines, shape, &start.key);
}

/// Drops all sequences that are no longer alive. It looks at the front of the list alone.
pub(crate) fn sweep_all<L: Ledger>(
    machines: &mut KeyTable<L>,
    list: &mut SpanList<Start>,
    shape: Shape,
    reach: i128,
    steps: &mut Steps<L>,
)
    requires to { shape.stages ≤ 256 }
    requires of { AreOf shape.stages shape.span (entries_of machines.old) }
    requires linked { IsLinked [] (sequences_in (entries_of machines.old)) list.old }
    requires table { IsTable shape.stages shape.span machines.old }
    requires busy { AreBusy (entries_of machines.old) }
    ensures of { AreOf shape.stages shape.span (entries_of machines.new) }
    ensures table { IsTable shape.stages shape.span machines.new }
    ensures busy { AreBusy (entries_of machines.new) }
    ensures slots { (key : List Value) (k : ℕ) → slots_in (entries_of machines.new) key k
        ≡ alive_at shape.span reach (slots_in (entries_of machines.old) key k) }
    ensures linked { IsLinked [] (sequences_in (entries_of machines.new)) list.new }
    ensures fewer { length (holders_in (entries_of machines.new))
        ≤ length (holders_in (entries_of machines.old)) }
    ensures probes { steps.new + (shape.stages - 1) * length (holders_in (entries_of machines.new))
        ≤ steps.old + (shape.stages - 1) * length (holders_in (entries_of machines.old)) }
{
    while is_front_stale(list, shape.span, reach) {
        expire_front(machines, list, shape, reach, steps);
    }
}
