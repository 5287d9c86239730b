//! A run of `check`: the canonical text of a query.
ghost use Rattle.std.specs.Prelude.{◌≡◌, ◌≤◌, ◌++◌, IfErr, IfOk, IfSome, OnOk, OnErr, Some, codes, encode_utf8_all, string_bytes};
ghost use Rattle.eql_outside.specs.Unfailing.{IsUnfailing, AreUnfailing};
ghost use Rattle.eql_outside.specs.Written.{WroteAll, WroteFront};
ghost use Rattle.eql_query.specs.QueryTree.{query_tree};
ghost use Rattle.eql_parser.specs.Printed.{query_shown};
ghost use Rattle.eql_runs.specs.Outcomes.{DiskIsSame};
ghost use Rattle.eql_find.specs.Errors.{AbsencesFollow, CountFollows, FaultsFollow, IsFault, IsRefusal, OutFollows};
ghost use Rattle.eql_cli.specs.Printing.{HasPrintCause, PrintsAll, PrintsSome, StopsWriting};

use eql_find::FindError;
use eql_inputs::{InputError, read_checked};
use eql_outside::{OutRefused, Shelf, Sink};
use eql_parser::print;
use eql_query::Query;
use eql_values::Memory;
use eql_words::Name;
use std::alloc::Global;

/// The line of a query: its canonical text and a line end.
fn query_line(alloc: Global, query: &Query) -> Result<String, Memory>
    ensures { IfOk result (λ line. string_bytes line
        ≡ encode_utf8_all (query_shown (query_tree query.now)) ++ codes "\n") }
{
    let text = print(alloc, query)?;
    let mut line = String::from_str(alloc, text.text())?;
    line.push_str("\n")?;
    Ok(line)
}

/// Writes the line of a query.
fn write_query<'a, K: Sink>(alloc: Global, query: &Query, out: &mut K) -> Result<(), FindError<'a>>
    ensures all { OnOk result (WroteAll
        (encode_utf8_all (query_shown (query_tree query.now)) ++ codes "\n")
        (K.written out.old) (K.written out.new)) }
    ensures front { OnErr result (WroteFront
        (encode_utf8_all (query_shown (query_tree query.now)) ++ codes "\n")
        (K.written out.old) (K.written out.new)) }
    ensures stops { IfErr result StopsWriting }
    ensures out { OutFollows result (K.fault_count out.old) (K.fault_count out.new) }
    ensures counts { K.fault_count out.old ≤ K.fault_count out.new }
    ensures unfailing { IsUnfailing (K.fault_plan out.old)
        → IfErr result (λ error. ¬ IsFault error) }
{
    let Ok(line) = query_line(alloc, query) else {
        return Err(FindError::Files(InputError::Memory));
    };
    match out.write(alloc, line.as_bytes()) {
        Ok(()) => Ok(()),
        Err(OutRefused::Failed) => Err(FindError::Write),
        Err(OutRefused::Memory) => Err(FindError::Files(InputError::Memory)),
    }
}

/// Runs `check`: reads the query and the mapping, and writes the canonical text of the query and a line end to `out`.
///
/// On `Ok` it is there whole. Else `out` got a front of it, nothing at all where the files are refused.
pub(crate) fn check_query<'a, H: Shelf, K: Sink>(
    alloc: Global,
    query: &'a Name,
    fields: &'a Name,
    shelf: &mut H,
    out: &mut K,
) -> Result<(), FindError<'a>>
    ensures done { OnOk result (PrintsAll query.now fields.now (H.files shelf.old)
        (K.written out.old) (K.written out.new)) }
    ensures prefix { OnErr result (PrintsSome query.now fields.now (H.files shelf.old)
        (K.written out.old) (K.written out.new)) }
    ensures untouched { IfErr result (λ error. IsRefusal error → out.new ≡ out.old) }
    ensures cause { IfErr result (HasPrintCause query.now fields.now (H.files shelf.old)) }
    ensures faults { FaultsFollow result (H.faults_of shelf.old) (H.faults_of shelf.new) }
    ensures count { CountFollows result (H.fault_count shelf.old) (H.fault_count shelf.new) }
    ensures absences { AbsencesFollow result
        (H.absent_count shelf.old) (H.absent_count shelf.new) }
    ensures out { OutFollows result (K.fault_count out.old) (K.fault_count out.new) }
    ensures counts { (H.fault_count shelf.old ≤ H.fault_count shelf.new)
        × (H.absent_count shelf.old ≤ H.absent_count shelf.new)
        × (K.fault_count out.old ≤ K.fault_count out.new) }
    ensures unfailing { IsUnfailing (H.fault_plan shelf.old)
        → AreUnfailing (H.source_plans shelf.old) → IsUnfailing (K.fault_plan out.old)
        → IfErr result (λ error. ¬ IsFault error) }
    ensures kept { H.files shelf.new ≡ H.files shelf.old }
    ensures disk_kept { DiskIsSame H.Shelf shelf.old shelf.new }
    ensures lent { IfSome (H.lent_count shelf.old) (λ n. H.lent_count shelf.new ≡ Some n) }
{
    match read_checked(alloc, query, fields, shelf) {
        Ok(inputs) => write_query(alloc, inputs.checked.query(), out),
        Err(error) => Err(FindError::Files(error)),
    }
}
