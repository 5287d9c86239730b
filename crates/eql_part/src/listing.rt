//! The list of first timestamps and keys, in the order of first events, and how sequences leave it.
ghost use Rattle.std.specs.Prelude.{◌≡◌, ◌≤◌, [], All, length, MatchOption};
ghost use Rattle.eql_span_list.specs.Entries.{HasDistinctTickets, HasTicket};
ghost use Rattle.eql_part.specs.Links.{Differ, IsOneOf, IsWithout};

use eql_auto::Auto;
use eql_span_list::{SpanList, Ticket};
use eql_values::Key;
use std::sync::ledger::Ledger;

/// What the list has of a pending sequence.
#[derive(Drop)]
pub(crate) struct Start {
    /// Its first timestamp, in nanoseconds since the epoch.
    pub time: i128,
    /// Its key.
    pub key: Key,
}

/// What was taken off the list.
#[derive(Drop)]
pub(crate) struct TakenOff {
    /// How many sequences.
    pub count: u32,
    /// One of them, if any.
    pub last: Option<Start>,
}

/// The tickets of every list are distinct. It does nothing.
pub(crate) fn tickets_differ(list: &SpanList<Start>)
    ensures { HasDistinctTickets list.now }
{
    let _ = list.front();
}

/// Takes the sequences of a machine that ceased off the list.
pub(crate) fn take_off<L: Ledger>(
    machine: &mut Auto<Ticket, L>,
    list: &mut SpanList<Start>,
) -> TakenOff
    requires listed { All (HasTicket list.old) machine.old.gone }
    requires apart { Differ machine.old.gone }
    requires few { length machine.old.gone ≤ 256 }
    ensures machine { machine.new ≡ record machine.old { gone = [] } }
    ensures count { result.count ≡ length machine.old.gone }
    ensures last { MatchOption result.last (machine.old.gone ≡ [])
        (λ start. IsOneOf machine.old.gone list.old start) }
    ensures list { IsWithout list.old machine.old.gone list.new }
{
    let mut count = 0;
    let mut last = None;
    while let Some(ticket) = machine.next_gone() {
        last = Some(list.remove(ticket));
        count += 1;
    }
    TakenOff { count, last }
}
