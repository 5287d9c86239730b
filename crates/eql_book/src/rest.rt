//! What the pipes hold back until the end: what the first tail keeps, as the pipes after it keep it.
ghost use Rattle.std.specs.Prelude.{◌≡◌, ◌≢◌, ◌≤◌, ◌++◌, ◌-◌, [], None, Err, MatchOption, OnOk, OnErr, drop, length, string_bytes, take};
ghost use Rattle.eql_outside.specs.Outside.{Rose};
ghost use Rattle.eql_outside.specs.Unfailing.{IsUnfailing};
ghost use Rattle.eql_outside.specs.Written.{WroteAll, WroteFront, WroteBut};
ghost use Rattle.eql_values.specs.Numbering.{pipe_output};
ghost use Rattle.eql_laws.specs.Resuming.{piped_from};
ghost use Rattle.eql_book.specs.Gates.{KeepsBetween, Narrows, pipe_of, pipes_of, seen_of};
ghost use Rattle.eql_book.specs.Listing.{listing};

use crate::gate::Gate;
use crate::page::Page;
use crate::tail::Tail;
use circular_buffer::HeapCircularBuffer;
use eql_outside::{OutRefused, Sink};
use eql_values::Numbered;
use std::alloc::Global;

/// Between which places a pipe keeps what lies between these two.
fn narrowed(range: (usize, usize), gate: &Gate) -> (usize, usize)
    requires { range.0 ≤ range.1 }
    ensures keeps { Narrows (pipe_of gate.now) range result }
    ensures order { result.0 ≤ result.1 }
    ensures within { result.1 ≤ range.1 }
{
    let (from, to) = range;
    match gate {
        Gate::Head(head) => (from, from + (to - from).min(head.count as usize)),
        Gate::Tail(tail) => (to - (to - from).min(tail.count as usize), to),
    }
}

/// Between which places of a list of this length the pipes keep it.
fn kept_range(len: usize, gates: &[Gate]) -> (usize, usize)
    ensures keeps { KeepsBetween (pipes_of gates.now) len result }
    ensures order { result.0 ≤ result.1 }
    ensures within { result.1 ≤ len }
{
    let mut range = (0, len);
    for gate in gates {
        range = narrowed(range, gate);
    }
    range
}

/// Prints what lies between two places of a list.
fn print_range<K: Sink>(
    kept: &HeapCircularBuffer<Numbered>,
    from: usize,
    to: usize,
    page: &mut Page,
    alloc: Global,
    sink: &mut K,
) -> Result<(), OutRefused>
    requires order { from ≤ to }
    requires within { to ≤ length kept.now.items }
    ensures places { page.new.places ≡ page.old.places }
    ensures printed { OnOk result (WroteBut (string_bytes page.new.waiting)
        (string_bytes page.old.waiting
        ++ listing page.old.places (take (to - from) (drop from kept.now.items)))
        (K.written sink.old) (K.written sink.new)) }
    ensures part { OnErr result (WroteFront
        (string_bytes page.old.waiting
        ++ listing page.old.places (take (to - from) (drop from kept.now.items)))
        (K.written sink.old) (K.written sink.new)) }
    ensures keeps { K.kept sink.new ≡ K.kept sink.old }
    ensures silent { K.written sink.old ≡ None → K.written sink.new ≡ None }
    ensures cause { result ≡ Err OutRefused.Failed
        → Rose (K.fault_count sink.old) (K.fault_count sink.new) }
    ensures steady { result ≢ Err OutRefused.Failed
        → K.fault_count sink.new ≡ K.fault_count sink.old }
    ensures counts { K.fault_count sink.old ≤ K.fault_count sink.new }
    ensures unfailing { IsUnfailing (K.fault_plan sink.old)
        → (result ≢ Err OutRefused.Failed) × IsUnfailing (K.fault_plan sink.new) }
{
    for index in from..to {
        match kept.get(index) {
            Some(found) => page.add(alloc, found, sink)?,
            None => unreachable!(),
        }
    }
    Ok(())
}

/// Writes what a tail keeps, as the pipes after it keep it.
fn write_tail<K: Sink>(
    tail: &Tail,
    after: &[Gate],
    page: &mut Page,
    alloc: Global,
    sink: &mut K,
) -> Result<(), OutRefused>
    requires { string_bytes page.old.waiting ≡ [] }
    ensures places { page.new.places ≡ page.old.places }
    ensures empty { OnOk result (string_bytes page.new.waiting ≡ []) }
    ensures printed { OnOk result (WroteAll
        (listing page.old.places (pipe_output (pipes_of after.now) tail.now.kept.items))
        (K.written sink.old) (K.written sink.new)) }
    ensures part { OnErr result (WroteFront
        (listing page.old.places (pipe_output (pipes_of after.now) tail.now.kept.items))
        (K.written sink.old) (K.written sink.new)) }
    ensures keeps { K.kept sink.new ≡ K.kept sink.old }
    ensures silent { K.written sink.old ≡ None → K.written sink.new ≡ None }
    ensures cause { result ≡ Err OutRefused.Failed
        → Rose (K.fault_count sink.old) (K.fault_count sink.new) }
    ensures steady { result ≢ Err OutRefused.Failed
        → K.fault_count sink.new ≡ K.fault_count sink.old }
    ensures counts { K.fault_count sink.old ≤ K.fault_count sink.new }
    ensures unfailing { IsUnfailing (K.fault_plan sink.old)
        → (result ≢ Err OutRefused.Failed) × IsUnfailing (K.fault_plan sink.new) }
{
    let (from, to) = kept_range(tail.kept.len(), after);
    print_range(&tail.kept, from, to, page, alloc, sink)?;
    page.send(alloc, sink)?;
    Ok(())
}

/// The first tail, with the pipes after it.
fn first_tail(gates: &Vec<Gate>) -> Option<(&Tail, &[Gate])>
    ensures { MatchOption result
        (piped_from (pipes_of gates.now.items) (seen_of gates.now.items) [] ≡ [])
        (λ r. piped_from (pipes_of gates.now.items) (seen_of gates.now.items) []
        ≡ pipe_output (pipes_of r.1.now) r.0.now.kept.items) }
{
    for (index, gate) in gates.iter().enumerate() {
        if let Gate::Tail(tail) = gate {
            return Some((tail, &gates[index + 1..]));
        }
    }
    None
}

/// Writes what the pipes hold back until the end.
pub(crate) fn write_rest<K: Sink>(
    gates: &Vec<Gate>,
    page: &mut Page,
    alloc: Global,
    sink: &mut K,
) -> Result<(), OutRefused>
    requires { string_bytes page.old.waiting ≡ [] }
    ensures places { page.new.places ≡ page.old.places }
    ensures empty { OnOk result (string_bytes page.new.waiting ≡ []) }
    ensures printed { OnOk result (WroteAll (listing page.old.places
        (piped_from (pipes_of gates.now.items) (seen_of gates.now.items) []))
        (K.written sink.old) (K.written sink.new)) }
    ensures part { OnErr result (WroteFront
        (listing page.old.places
        (piped_from (pipes_of gates.now.items) (seen_of gates.now.items) []))
        (K.written sink.old) (K.written sink.new)) }
    ensures keeps { K.kept sink.new ≡ K.kept sink.old }
    ensures silent { K.written sink.old ≡ None → K.written sink.new ≡ None }
    ensures cause { result ≡ Err OutRefused.Failed
        → Rose (K.fault_count sink.old) (K.fault_count sink.new) }
    ensures steady { result ≢ Err OutRefused.Failed
        → K.fault_count sink.new ≡ K.fault_count sink.old }
    ensures counts { K.fault_count sink.old ≤ K.fault_count sink.new }
    ensures unfailing { IsUnfailing (K.fault_plan sink.old)
        → (result ≢ Err OutRefused.Failed) × IsUnfailing (K.fault_plan sink.new) }
{
    match first_tail(gates) {
        Some((tail, after)) => write_tail(tail, after, page, alloc, sink),
        None => Ok(()),
    }
}
