//! The report: a line for each shard.
ghost use Rattle.std.specs.Prelude.{◌≡◌, ◌≢◌, ◌≤◌, ◌++◌, Err, IfOk, OnOk, OnErr, codes, length, string_bytes};
ghost use Rattle.eql_outside.specs.Outside.{Rose};
ghost use Rattle.eql_outside.specs.Unfailing.{IsUnfailing};
ghost use Rattle.eql_outside.specs.Written.{WroteAll, WroteFront};
ghost use Rattle.eql_book.specs.Report.{report_text};
ghost use Rattle.eql_runs.specs.Searches.{report_lines};
ghost use Rattle.eql_shards.specs.Reports.{counts_in};

use eql_book::report_line;
use eql_lane::Lane;
use eql_outside::{OutRefused, Sink, Source};
use eql_values::{Counts, LineReader, Memory};
use std::alloc::Global;

/// Adds the line of a shard to a report.
fn add_line(alloc: Global, report: &mut String, shard: u32, counts: Counts) -> Result<(), Memory>
    ensures { OnOk result (string_bytes report.new
        ≡ string_bytes report.old ++ report_text shard counts ++ codes "\n") }
{
    let line = report_line(alloc, shard, &counts)?;
    report.push_str(line.text())?;
    report.push_str("\n")?;
    Ok(())
}

/// The lines of the report, one for each lane in their order.
fn report_of<S: Source, L: LineReader>(
    alloc: Global,
    lanes: &Vec<Lane<S, L>>,
) -> Result<String, Memory>
    requires few { length lanes.now.items ≤ 256 }
    ensures { IfOk result (λ report.
        string_bytes report ≡ report_lines 0 (counts_in lanes.now.items)) }
{
    let mut report = String::new(alloc);
    for shard in 0..lanes.len() {
        add_line(alloc, &mut report, shard as u32, lanes[shard].counts())?;
    }
    Ok(report)
}

/// Writes the report of lanes, in one write.
pub fn write_report<S: Source, L: LineReader, E: Sink>(
    alloc: Global,
    lanes: &Vec<Lane<S, L>>,
    err: &mut E,
) -> Result<(), OutRefused>
    requires few { length lanes.now.items ≤ 256 }
    ensures whole { OnOk result (WroteAll (report_lines 0 (counts_in lanes.now.items))
        (E.written err.old) (E.written err.new)) }
    ensures front { OnErr result (WroteFront (report_lines 0 (counts_in lanes.now.items))
        (E.written err.old) (E.written err.new)) }
    ensures cause { result ≡ Err OutRefused.Failed
        → Rose (E.fault_count err.old) (E.fault_count err.new) }
    ensures steady { result ≢ Err OutRefused.Failed
        → E.fault_count err.new ≡ E.fault_count err.old }
    ensures counts { E.fault_count err.old ≤ E.fault_count err.new }
    ensures unfailing { IsUnfailing (E.fault_plan err.old) → result ≢ Err OutRefused.Failed }
{
    match report_of(alloc, lanes) {
        Ok(report) => err.write(alloc, report.as_bytes()),
        Err(_) => Err(OutRefused::Memory),
    }
}
