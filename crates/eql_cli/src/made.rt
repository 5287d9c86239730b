//! A run of `made`: the summary of a search over made events.
ghost use Rattle.std.specs.Prelude.{◌≤◌, IfErr, OnOk, OnErr};
ghost use Rattle.eql_outside.specs.Unfailing.{IsUnfailing};
ghost use Rattle.eql_find.specs.Errors.{IsFault, OutFollows};
ghost use Rattle.eql_summary.specs.Written.{MakesAll, MakesFront};
ghost use Rattle.eql_cli.specs.Printing.{StopsWriting};

use eql_find::FindError;
use eql_hands::Gate;
use eql_inputs::InputError;
use eql_outside::{OutRefused, Sink};
use eql_summary::write_summary;
use std::alloc::Global;
use std::sync::Wait;
use std::thread::Threads;

/// Runs `made`: searches so many events that the program makes itself, and writes the summary to `out`.
///
/// On `Ok` it is there whole. Else `out` got a front of it.
pub(crate) fn run_made<'a, R: Threads + Wait + Sync, K: Sink, W: Gate + Sync>(
    rt: &R,
    alloc: Global,
    hands: u32,
    events: u32,
    out: &mut K,
    gate: &W,
) -> Result<(), FindError<'a>>
    requires hands { hands ≤ 16 }
    requires events { events ≤ 1000000 }
    ensures done { OnOk result (MakesAll events (K.written out.old) (K.written out.new)) }
    ensures prefix { OnErr result (MakesFront events (K.written out.old) (K.written out.new)) }
    ensures stops { IfErr result StopsWriting }
    ensures out { OutFollows result (K.fault_count out.old) (K.fault_count out.new) }
    ensures counts { K.fault_count out.old ≤ K.fault_count out.new }
    ensures unfailing { IsUnfailing (K.fault_plan out.old)
        → IfErr result (λ error. ¬ IsFault error) }
{
    match write_summary(rt, alloc, hands, events, out, gate) {
        Ok(()) => Ok(()),
        Err(OutRefused::Failed) => Err(FindError::Write),
        Err(OutRefused::Memory) => Err(FindError::Files(InputError::Memory)),
    }
}
