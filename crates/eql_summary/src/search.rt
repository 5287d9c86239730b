//! The search over made events.
ghost use Rattle.std.specs.Prelude.{◌≤◌, IfOk};
ghost use Rattle.eql_summary.specs.Written.{IsMadeListing, IsWant};

use crate::inputs::{made_find, made_shelf};
use eql_find::{FindError, find_matches};
use eql_hands::Gate;
use eql_inputs::InputError;
use eql_laws::lines_go_on;
use eql_outside::{MemSink, OutRefused, Sink};
use eql_runs::{made_is_searched, runs_are_determined};
use eql_values::Memory;
use std::alloc::Global;
use std::sync::Wait;
use std::thread::Threads;

/// Why the search stopped: memory ran out, since nothing else can stop it.
fn want_of(error: FindError) -> Memory
    requires { IsWant error }
{
    match error {
        FindError::Files(InputError::Memory) | FindError::Report(OutRefused::Memory) => Memory,
        _ => unreachable!(),
    }
}

/// The listing of the search over so many made events, with so many further threads.
pub(crate) fn list_made<R: Threads + Wait + Sync, W: Gate + Sync>(
    rt: &R,
    alloc: Global,
    hands: u32,
    events: u32,
    gate: &W,
) -> Result<MemSink, Memory>
    requires hands { hands ≤ 16 }
    requires events { events ≤ 1000000 }
    ensures { IfOk result (λ sink. IsMadeListing events (⟦<MemSink as Sink>⟧.written sink)) }
{
    made_is_searched();
    runs_are_determined();
    lines_go_on();
    let find = made_find(alloc, hands)?;
    let mut shelf = made_shelf(alloc, events)?;
    let mut listing = MemSink::new(alloc, Vec::new(alloc));
    let mut report = MemSink::new(alloc, Vec::new(alloc));
    match find_matches(
        rt,
        alloc,
        &find,
        &mut shelf,
        &mut listing,
        &mut report,
        gate,
    ) {
        Ok(()) => Ok(listing),
        Err(error) => Err(want_of(error)),
    }
}
