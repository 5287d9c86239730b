//! What a run tells on the error output: one text in one write. Where memory runs out as a line with a name or a number is
//! made, nothing is told.
ghost use Rattle.std.specs.Prelude.{◌≡◌, ◌≤◌, IfOk, codes, string_bytes};
ghost use Rattle.eql_outside.specs.Written.{WroteFront};
ghost use Rattle.eql_words.specs.Usage.{usage_text};
ghost use Rattle.eql_runs.specs.CutRefusals.{cut_text, differing, held_text};
ghost use Rattle.eql_runs.specs.Runs.{limit_text};
ghost use Rattle.eql_find.specs.Errors.{IsReport, cut_refusal_of, limit_of, run_status_of};
ghost use Rattle.eql_cli.specs.Telling.{TellsRun};

use eql_cut::Differs;
use eql_find::{CutStop, FindError};
use eql_inputs::{tell_error, tell_text};
use eql_lane::ShardLimit;
use eql_outside::{Area, DiskHeld, Sink};
use eql_values::Memory;
use eql_words::usage;
use std::alloc::Global;

/// Tells which words make a command.
pub(crate) fn tell_usage<E: Sink>(alloc: Global, err: &mut E)
    ensures told { WroteFront usage_text
        (E.written err.old) (E.written err.new) }
    ensures counts { E.fault_count err.old ≤ E.fault_count err.new }
{
    tell_text(alloc, usage().as_bytes(), err);
}

/// Tells that memory ran out.
pub(crate) fn tell_memory<E: Sink>(alloc: Global, err: &mut E)
    ensures told { WroteFront (codes "out of memory\n")
        (E.written err.old) (E.written err.new) }
    ensures counts { E.fault_count err.old ≤ E.fault_count err.new }
{
    tell_text(alloc, b"out of memory\n", err);
}

/// The line of a limit.
fn limit_line(alloc: Global, limit: ShardLimit) -> Result<String, Memory>
    ensures { IfOk result (λ line. string_bytes line ≡ limit_text (limit_of limit)) }
{
    match limit {
        ShardLimit::Lines { shard } => Ok(format!(in alloc; "limit: lines shard {}\n", shard)?),
        ShardLimit::Bytes { shard } => Ok(format!(in alloc; "limit: bytes shard {}\n", shard)?),
    }
}

/// Tells which shard reached a limit.
fn tell_limit<E: Sink>(alloc: Global, limit: ShardLimit, err: &mut E)
    ensures told { WroteFront (limit_text (limit_of limit))
        (E.written err.old) (E.written err.new) }
    ensures counts { E.fault_count err.old ≤ E.fault_count err.new }
{
    if let Ok(line) = limit_line(alloc, limit) {
        tell_text(alloc, line.as_bytes(), err);
    }
}

/// The word for what differs between a cut and the run.
fn differing(differs: &Differs) -> &'static str
    ensures { result.now ≡ differing differs.now }
{
    match differs {
        Differs::Query { .. } => "query",
        Differs::Mapping { .. } => "mapping",
        Differs::Tie { .. } => "tiebreaker",
        Differs::Slack { .. } => "slack",
        Differs::Shards { .. } => "shards",
    }
}

/// The line of a cut that is refused.
fn cut_line(alloc: Global, why: &CutStop) -> Result<String, Memory>
    ensures { IfOk result (λ line. string_bytes line ≡ cut_text (cut_refusal_of why.now)) }
{
    match why {
        CutStop::Foreign { area } => Ok(format!(in alloc; "checkpoint: Foreign area {}\n", area)?),
        CutStop::Damaged { area, at } => {
            Ok(format!(in alloc; "checkpoint: Damaged area {} at {}\n", area, at)?)
        }
        CutStop::Differs(differs) => {
            Ok(format!(in alloc; "checkpoint: Differs {}\n", differing(differs))?)
        }
        CutStop::Unfit => Ok(String::from_str(alloc, "checkpoint: Unfit\n")?),
        CutStop::Short { shard, offset, had } => Ok(format!(in alloc;
            "checkpoint: Short shard {} offset {} had {}\n",
            shard, offset, had
        )?),
        CutStop::OtherBytes { shard } => {
            Ok(format!(in alloc; "checkpoint: Differs shard {}\n", shard)?)
        }
        CutStop::NoLine { shard, line } => {
            Ok(format!(in alloc; "checkpoint: NoLine shard {} line {}\n", shard, line)?)
        }
        CutStop::Grown { shard } => Ok(format!(in alloc; "checkpoint: Grown shard {}\n", shard)?),
    }
}

/// Tells why the cut of a checkpoint is refused.
fn tell_cut<E: Sink>(alloc: Global, why: &CutStop, err: &mut E)
    ensures told { WroteFront (cut_text (cut_refusal_of why.now))
        (E.written err.old) (E.written err.new) }
    ensures counts { E.fault_count err.old ≤ E.fault_count err.new }
{
    if let Ok(line) = cut_line(alloc, why) {
        tell_text(alloc, line.as_bytes(), err);
    }
}

/// The line of an area whose file serves for something else. It is that of another program's.
fn shared_line(area: Area) -> &'static str
    ensures { result.now ≡ held_text (DiskHeld.Shared area) }
{
    match area {
        Area::A => "checkpoint: Foreign area 0\n",
        Area::B => "checkpoint: Foreign area 1\n",
    }
}

/// Tells why the disk of a checkpoint is held.
fn tell_held<E: Sink>(alloc: Global, why: DiskHeld, err: &mut E)
    ensures told { WroteFront (held_text why) (E.written err.old) (E.written err.new) }
    ensures counts { E.fault_count err.old ≤ E.fault_count err.new }
{
    match why {
        DiskHeld::Busy => tell_text(alloc, b"checkpoint: Busy\n", err),
        DiskHeld::Shared(area) => tell_text(alloc, shared_line(area).as_bytes(), err),
    }
}

/// Tells why a run stopped. Where its report was refused nothing more is told.
fn tell_run<'a, E: Sink>(alloc: Global, error: &FindError<'a>, err: &mut E)
    ensures told { TellsRun error.now (E.written err.old) (E.written err.new) }
    ensures quiet { IsReport error.now → err.new ≡ err.old }
    ensures counts { E.fault_count err.old ≤ E.fault_count err.new }
{
    match error {
        FindError::Files(error) => tell_error(alloc, error, err),
        FindError::Cut(why) => tell_cut(alloc, why, err),
        FindError::Held(why) => tell_held(alloc, *why, err),
        FindError::Disk => tell_text(alloc, b"checkpoint disk fault\n", err),
        FindError::Write => tell_text(alloc, b"write fault\n", err),
        FindError::Limit(limit) => tell_limit(alloc, *limit, err),
        FindError::Generation => tell_text(alloc, b"limit: generation\n", err),
        FindError::Report(_) => {}
    }
}

/// Tells why a run stopped, and returns its status.
pub(crate) fn tell_end<'a, E: Sink>(alloc: Global, error: &FindError<'a>, err: &mut E) -> u8
    ensures status { result ≡ run_status_of error.now }
    ensures told { TellsRun error.now (E.written err.old) (E.written err.new) }
    ensures quiet { IsReport error.now → err.new ≡ err.old }
    ensures counts { E.fault_count err.old ≤ E.fault_count err.new }
{
    tell_run(alloc, error, err);
    error.status()
}
