//! The summary: its text, and the run that writes it.
ghost use Rattle.std.specs.Prelude.{◌≡◌, ◌≢◌, ◌≤◌, Err, IfOk, OnErr, OnOk, [], string_bytes};
ghost use Rattle.eql_outside.specs.Outside.{Rose};
ghost use Rattle.eql_outside.specs.Unfailing.{IsUnfailing};
ghost use Rattle.eql_values.specs.Lines.{lines_of};
ghost use Rattle.eql_runs.specs.Summaries.{Makes, summary};
ghost use Rattle.eql_summary.specs.Written.{MakesAll, MakesFront};

use crate::ends::Ends;
use crate::search::list_made;
use eql_hands::Gate;
use eql_outside::{OutRefused, Sink};
use eql_runs::made_is_searched;
use eql_values::Memory;
use std::alloc::Global;
use std::sync::Wait;
use std::thread::Threads;

/// The four lines on so many events and the listing of what was found in them.
fn summary_of(alloc: Global, events: u32, listing: &[u8]) -> Result<Vec<u8>, Memory>
    ensures { IfOk result (λ text. text.items ≡ summary events (lines_of listing.now)) }
{
    let ends = Ends::of(listing);
    let counts = format!(in alloc; "events {}\nmatches {}\nfirst ", events, ends.count)?;
    let mut text = counts.into_bytes();
    text.extend_from_slice(ends.first)?;
    text.extend_from_slice(b"\nlast ")?;
    text.extend_from_slice(ends.last)?;
    text.extend_from_slice(b"\n")?;
    Ok(text)
}

/// The four lines of a run over so many events.
fn made_summary<R: Threads + Wait + Sync, W: Gate + Sync>(
    rt: &R,
    alloc: Global,
    hands: u32,
    events: u32,
    gate: &W,
) -> Result<Vec<u8>, Memory>
    requires hands { hands ≤ 16 }
    requires events { events ≤ 1000000 }
    ensures { IfOk result (λ text. Makes events text.items []) }
{
    let listing = list_made(rt, alloc, hands, events, gate)?;
    summary_of(alloc, events, listing.bytes().as_slice())
}

/// Runs `made`: searches so many events that it makes itself, with so many further threads, and writes how many
/// events and matches there are and the first and the last line of the listing.
///
/// On `Ok` they are written whole, and else a front of them, or nothing.
pub fn write_summary<R: Threads + Wait + Sync, K: Sink, W: Gate + Sync>(
    rt: &R,
    alloc: Global,
    hands: u32,
    events: u32,
    out: &mut K,
    gate: &W,
) -> Result<(), OutRefused>
    requires hands { hands ≤ 16 }
    requires events { events ≤ 1000000 }
    ensures whole { OnOk result (MakesAll events (K.written out.old) (K.written out.new)) }
    ensures front { OnErr result (MakesFront events (K.written out.old) (K.written out.new)) }

    // The output's count rises where it failed, and nowhere else.
    ensures cause { result ≡ Err OutRefused.Failed
        → Rose (K.fault_count out.old) (K.fault_count out.new) }
    ensures steady { result ≢ Err OutRefused.Failed
        → K.fault_count out.new ≡ K.fault_count out.old }
    ensures counts { K.fault_count out.old ≤ K.fault_count out.new }
    ensures unfailing { IsUnfailing (K.fault_plan out.old) → result ≢ Err OutRefused.Failed }
{
    made_is_searched();
    match made_summary(rt, alloc, hands, events, gate) {
        Ok(text) => out.write(alloc, text.as_slice()),
        Err(_) => Err(OutRefused::Memory),
    }
}
