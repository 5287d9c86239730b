//! A run by its words: the command is read, run, and why it stopped is told.
ghost use Rattle.std.specs.Prelude.{◌≡◌, ℕ, List, IfErr, IfSome, Some, false};
ghost use Rattle.eql_outside.specs.Unfailing.{AreUnfailing, IsUnfailing};
ghost use Rattle.eql_words.specs.Bounds.{IsBounded};
ghost use Rattle.eql_words.specs.Commands.{command_of};
ghost use Rattle.eql_words.specs.Words.{bytes_of};
ghost use Rattle.eql_runs.specs.Outcomes.{DiskIsSame, RunEnds};
ghost use Rattle.eql_runs.specs.Runs.{AsksDisk};
ghost use Rattle.eql_find.specs.Errors.{IsFault};
ghost use Rattle.eql_cli.specs.Outcomes.{CommandEnds};
ghost use Rattle.eql_find.specs.Outcomes.{FaultsAreTold};

use crate::check::check_query;
use crate::made::run_made;
use crate::tell::{tell_end, tell_memory, tell_usage};
use eql_find::{FindError, find_matches};
use eql_hands::Gate;
use eql_outside::{Shelf, Sink};
use eql_runs::runs_are_determined;
use eql_words::{Command, commands_are_bounded, read_command};
use std::alloc::Global;
use std::sync::Wait;
use std::thread::Threads;

/// Runs a command.
///
/// `ends` says what was written, why the run stopped and what its disk came to hold; `told` that no fault is passed over.
fn run_command<'a, R: Threads + Wait + Sync, H: Shelf, K: Sink, E: Sink, G: Gate + Sync>(
    rt: &R,
    alloc: Global,
    command: &'a Command,
    shelf: &mut H,
    out: &mut K,
    err: &mut E,
    gate: &G,
) -> Result<(), FindError<'a>>
    requires { IsBounded command.now }
    ensures ends { CommandEnds K.Sink E.Sink command.now (H.files shelf.old)
        (H.disk_history shelf.old) (H.disk_history shelf.new)
        out.old out.new err.old err.new result }
    ensures told { FaultsAreTold K.Sink E.Sink H.Shelf shelf.old shelf.new
        (H.disk_fault_count shelf.old) (H.disk_fault_count shelf.new)
        out.old out.new err.old err.new result }
    ensures unfailing { IsUnfailing (H.fault_plan shelf.old)
        → AreUnfailing (H.source_plans shelf.old)
        → (AsksDisk command.now → IsUnfailing (H.disk_plan shelf.old))
        → IsUnfailing (K.fault_plan out.old) → IsUnfailing (E.fault_plan err.old)
        → IfErr result (λ error. ¬ IsFault error) }
    ensures kept { H.files shelf.new ≡ H.files shelf.old }
    ensures lent { IfSome (H.lent_count shelf.old) (λ n. H.lent_count shelf.new ≡ Some n) }
    ensures back { H.is_out shelf.old ≡ false → H.is_out shelf.new ≡ false }
    ensures disk_kept { ¬ (AsksDisk command.now) → DiskIsSame H.Shelf shelf.old shelf.new }
{
    match command {
        Command::Find(find) => find_matches(rt, alloc, find, shelf, out, err, gate),
        Command::Check { query, fields } => check_query(alloc, query, fields, shelf, out),
        Command::Made { hands, events } => run_made(rt, alloc, *hands, *events, out, gate),
    }
}

/// Runs a command, tells why it stopped, and returns its status. `ends` says of all words that are this command what the
/// status says of them.
fn end_command<R: Threads + Wait + Sync, H: Shelf, K: Sink, E: Sink, G: Gate + Sync>(
    rt: &R,
    alloc: Global,
    command: &Command,
    shelf: &mut H,
    out: &mut K,
    err: &mut E,
    gate: &G,
) -> u8
    requires { IsBounded command.now }
    ensures ends { (words : List (List ℕ)) → command_of words ≡ Some command.now
        → RunEnds H.Shelf K.Sink E.Sink words shelf.old shelf.new
        out.old out.new err.old err.new result }
{
    runs_are_determined();
    match run_command(rt, alloc, command, shelf, out, err, gate) {
        Ok(()) => 0,
        Err(error) => tell_end(alloc, &error, err),
    }
}

/// Runs the program on the words after its name, and returns its status. The fields of `ends` are the clauses of `eql_main`.
pub(crate) fn run_words<R: Threads + Wait + Sync, H: Shelf, K: Sink, E: Sink, G: Gate + Sync>(
    rt: &R,
    alloc: Global,
    words: &Vec<String>,
    shelf: &mut H,
    out: &mut K,
    err: &mut E,
    gate: &G,
) -> u8
    ensures ends { RunEnds H.Shelf K.Sink E.Sink (bytes_of words.now.items)
        shelf.old shelf.new out.old out.new err.old err.new result }
{
    runs_are_determined();
    commands_are_bounded();
    match read_command(alloc, words) {
        Ok(Some(command)) => end_command(rt, alloc, &command, shelf, out, err, gate),
        Ok(None) => {
            tell_usage(alloc, err);
            2
        }
        Err(_) => {
            tell_memory(alloc, err);
            8
        }
    }
}
