//! The line that tells what became of the lines of a shard.
ghost use Rattle.std.specs.Prelude.{◌≡◌, ◌++◌, IfOk, OnOk, string_bytes};
ghost use Rattle.std.specs.Str.{chars};
ghost use Rattle.eql_book.specs.Report.{counts_text, first_text, reason_text, report_text};

use eql_values::{Counts, FirstBad, Memory, Reason, Text};
use std::alloc::{AllocError, Global};

/// The name of a reason.
fn reason_name(reason: Reason) -> &'static str
    ensures { result.now ≡ reason_text reason }
{
    match reason {
        Reason::Long => "Long",
        Reason::NotJson => "NotJson",
        Reason::NotObject => "NotObject",
        Reason::NoTime => "NoTime",
        Reason::BadTime => "BadTime",
        Reason::Kind => "Kind",
        Reason::Fraction => "Fraction",
        Reason::Range => "Range",
    }
}

/// Prints the first line that was rejected, where lines were.
fn print_first(line: &mut String, rejected: u32, first: Option<FirstBad>) -> Result<(), AllocError>
    ensures { OnOk result
        (string_bytes line.new ≡ string_bytes line.old ++ first_text rejected first) }
{
    if rejected == 0 {
        return Ok(());
    }
    match first {
        Some(bad) => {
            let number = bad.line;
            write!(line, " first {number} ")?;
            line.push_str(reason_name(bad.reason))
        }
        None => Ok(()),
    }
}

/// Prints the number of a shard and its counts.
fn print_counts(line: &mut String, shard: u32, counts: &Counts) -> Result<(), AllocError>
    ensures { OnOk result
        (string_bytes line.new ≡ string_bytes line.old ++ counts_text shard counts.now) }
{
    let lines = counts.lines;
    let accepted = counts.accepted;
    let late = counts.late;
    let rejected = counts.rejected;
    write!(
        line,
        "shard {shard}: lines {lines} accepted {accepted} late {late} rejected {rejected}"
    )
}

/// The line that tells what became of the lines of a shard, which is given by its number from 0:
/// `shard S: lines L accepted A late B rejected R`, followed by ` first N REASON` where lines were
/// rejected. It has no line feed, as the line of a match has none.
pub fn report_line(alloc: Global, shard: u32, counts: &Counts) -> Result<Text, Memory>
    ensures { IfOk result (λ text. text ≡ chars (report_text shard counts.now)) }
{
    let mut line = String::new(alloc);
    print_counts(&mut line, shard, counts)?;
    print_first(&mut line, counts.rejected, counts.first)?;
    Ok(Text::of(line))
}
